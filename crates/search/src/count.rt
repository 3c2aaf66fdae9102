// The count-only search.
ghost use Rattle.std.specs.Prelude.{◌≡◌, true};
ghost use Rattle.query.specs.Ask.{good_query};
ghost use Rattle.search.specs.Search.{count_of};

use crate::found::hits_of;
use answer::Refusal;
use query::ask::{Ask, judge};

// How many shapes of a file a good query hits, any bytes. No flags are kept.
pub fn count_good(a: Ask, s: &[u8]) -> Result<usize, Refusal>
    requires { good_query a.query ≡ true }
    ensures { result ≡ count_of a s.now }
{
    let mut none = [0u8; 0];
    hits_of(a, s, &mut none)
}

// How many any query hits.
pub fn count(a: Ask, s: &[u8]) -> Result<usize, Refusal>
    ensures { result ≡ count_of a s.now }
{
    judge(a)?;
    count_good(a, s)
}
