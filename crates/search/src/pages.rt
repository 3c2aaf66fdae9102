// What a query hits in the pages of a file: a page is opened only if its stored box meets the query, and is decoded once.
ghost use Rattle.std.specs.Prelude.{◌≡◌, true, List};
ghost use Rattle.answer.specs.Limits.{most_shapes};
ghost use Rattle.answer.specs.Outcome.{ok};
ghost use Rattle.query.specs.Ask.{good_query};
ghost use Rattle.frame.specs.declared.cursor.PageAt.{PageAt};
ghost use Rattle.frame.specs.Next.{page, next_of};
ghost use Rattle.frame.specs.Frame.{Page};
ghost use Rattle.frame.specs.Ahead.{Within, Ahead, Begun};
ghost use Rattle.search.specs.Search.{met_in};
ghost use Rattle.search.specs.Met.{Meets, PageMeets};
ghost use Rattle.search.specs.Skipped.{Skips};

use crate::hits::shapes_hit;
use answer::Refusal;
use frame::cursor::Cursor;
use frame::read::{at_end, glance};
use page::open::open_in;
use page::scratch::Scratch;
use query::ask::{Ask, opens};
use shape::lists::Lists;

// The hits of the page at a cursor, which is opened. The scratch serves every page.
fn page_hits(
    a: Ask,
    s: &[u8],
    c: Cursor,
    scratch: &mut Scratch,
    flags: &mut [u8],
) -> Result<usize, Refusal>
    requires query_value { good_query a.query ≡ true }
    requires within { Within c }
    requires c_value { (p : PageAt) × (next_of s.now c ≡ ok (page p)) }
    ensures { PageMeets a s.now c result flags.old flags.new }
{
    // no `?`, as in `walk_hits` below
    match open_in(s, c, scratch) {
        Ok(p) => {
            let g = p.head.g;
            let m = p.head.p;
            let v = p.head.v;
            let from = p.body + p.head.layout.types;
            let to = from + g;
            let lists = Lists {
                types: &s[from..to],
                counts: &scratch.counts[..g],
                lens: &scratch.lens[..m],
                xs: &scratch.xs[..v],
                ys: &scratch.ys[..v],
            };
            Ok(shapes_hit(a, c.shapes, lists, flags))
        }
        Err(w) => Err(w),
    }
}

// The next page that the query meets, from a cursor on, or the end. The others are passed by at a glance.
fn next_met(a: Ask, s: &[u8], from: Cursor) -> Cursor
    requires { (good_query a.query ≡ true) × ((ps : List Page) × Ahead s.now from ps) }
    ensures { Skips a s.now from result }
{
    let mut c = from;
    while !at_end(s, c) {
        let l = glance(s, c);
        if opens(a, l.v, l.stored) {
            return c;
        }
        c = l.next;
    }
    c
}

// The hits of a file whose frame is sound, from the cursor after its first block.
pub(crate) fn walk_hits(
    a: Ask,
    s: &[u8],
    from: Cursor,
    scratch: &mut Scratch,
    flags: &mut [u8],
) -> Result<usize, Refusal>
    requires { (good_query a.query ≡ true) × Begun s.now from }
    ensures { Meets (met_in a s.now) 0 most_shapes result flags.old flags.new }
{
    let mut c = next_met(a, s, from);
    let mut found: usize = 0;
    while !at_end(s, c) {
        // no `?`: the answer would go through memory piece by piece, and counting a page of one empty shape took 1.4 times as long
        match page_hits(a, s, c, scratch, flags) {
            Ok(n) => {
                found += n;
                let l = glance(s, c);
                c = next_met(a, s, l.next);
            }
            Err(w) => return Err(w),
        }
    }
    Ok(found)
}
