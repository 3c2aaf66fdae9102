// What a query hits in a page that was loaded.
ghost use Rattle.std.specs.Prelude.{◌≡◌, true, ◌+◌, ◌≤◌, length};
ghost use Rattle.answer.specs.Limits.{most_shapes};
ghost use Rattle.query.specs.Ask.{good_query};
ghost use Rattle.search.specs.Met.{Noted};
ghost use Rattle.search.specs.Ready.{Askable};

use crate::flags::note;
use query::ask::{Ask, hit};
use shape::lists::Lists;
use types::parts::total;

// How many shapes of a page are hit, the first of which has place n. Each is noted.
pub(crate) fn shapes_hit(a: Ask, n: usize, lists: Lists<'_>, flags: &mut [u8]) -> usize
    requires query_value { good_query a.query ≡ true }
    requires types_bound { n + length lists.types.now ≤ most_shapes }
    requires askable { Askable lists }
    ensures { Noted a n lists.entry result flags.old flags.new }
{
    let mut k: usize = 0;
    let mut at: usize = 0;
    let mut found: usize = 0;
    for (i, count) in lists.counts.iter().enumerate() {
        let e = k + *count as usize;
        let end = at + total(&lists.lens[k..e]);
        let is = hit(a, &lists.xs[at..end], &lists.ys[at..end]);
        found += note(is, n + i, flags);
        k = e;
        at = end;
    }
    found
}
