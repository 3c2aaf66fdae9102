// The search: the places of the hits at the start of a lent list.
ghost use Rattle.std.specs.Prelude.{◌≡◌, true, length};
ghost use Rattle.answer.specs.Outcome.{Fills};
ghost use Rattle.query.specs.Ask.{good_query};
ghost use Rattle.search.specs.Search.{search_of};

use crate::flags::list_flags;
use crate::found::hits_of;
use answer::Refusal;
use answer::table::ROOM;
use query::ask::{Ask, judge};

// Lists the places of what a good query hits in a file, any bytes. One bit for each place of a file is kept, so that each page is decoded once and
// nothing is written before the last refusal is past.
pub fn search_good(a: Ask, s: &[u8], out: &mut [u32]) -> Result<usize, Refusal>
    requires { good_query a.query ≡ true }
    ensures { Fills (search_of a s.now (length out.old)) out.old result out.new }
{
    let mut flags = [0u8; 32768];
    let n = hits_of(a, s, &mut flags)?;
    if out.len() < n {
        return Err(Refusal::because(ROOM));
    }
    list_flags(&flags, n, out);
    Ok(n)
}

// Lists what any query hits.
pub fn search(a: Ask, s: &[u8], out: &mut [u32]) -> Result<usize, Refusal>
    ensures { Fills (search_of a s.now (length out.old)) out.old result out.new }
{
    judge(a)?;
    search_good(a, s, out)
}
