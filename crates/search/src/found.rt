// The hits of a file: how many, and a flag for each as far as the flags reach.
ghost use Rattle.std.specs.Prelude.{◌≡◌, true};
ghost use Rattle.answer.specs.Limits.{most_shapes};
ghost use Rattle.query.specs.Ask.{good_query};
ghost use Rattle.frame.specs.Ahead.{Begun};
ghost use Rattle.search.specs.Search.{met_in, hits_of};
ghost use Rattle.search.specs.Met.{Meets};

use crate::pages::walk_hits;
use answer::Refusal;
use frame::cursor::Cursor;
use frame::walk::frame;
use page::scratch::Scratch;
use query::ask::Ask;

// The walk with its own scratch, which serves every page.
fn own_hits(a: Ask, s: &[u8], from: Cursor, flags: &mut [u8]) -> Result<usize, Refusal>
    requires { (good_query a.query ≡ true) × Begun s.now from }
    ensures { Meets (met_in a s.now) 0 most_shapes result flags.old flags.new }
{
    let mut scratch = Scratch::new();
    walk_hits(a, s, from, &mut scratch, flags)
}

// The frame, and then the pages that the query meets, any bytes.
pub fn hits_of(a: Ask, s: &[u8], flags: &mut [u8]) -> Result<usize, Refusal>
    requires { good_query a.query ≡ true }
    ensures { Meets (hits_of a s.now) 0 most_shapes result flags.old flags.new }
{
    let totals = frame(s)?;
    own_hits(a, s, totals.first, flags)
}
