// What is read at a cursor once the rules have let its block pass. Nothing is tested again.
ghost use Rattle.std.specs.Prelude.{◌≡◌, ◌*◌, ◌≤◌};
ghost use Rattle.answer.specs.Limits.{most_page_shapes};
ghost use Rattle.answer.specs.Outcome.{ok};
ghost use Rattle.frame.specs.declared.cursor.PageAt.{PageAt};
ghost use Rattle.frame.specs.Next.{NextBlock, page, next_of, ends_at, glance_of};

use crate::cursor::{Cursor, Glance, PageAt};
use crate::head::{box_at, read_head};
use crate::layout::{BOUNDS, SHAPES, VERTICES};
use block::kinds::END;
use block::{HEAD, kind_at};
use le::number::{u16_at, u32_at};

// Whether the end block stands there.
pub fn at_end(s: &[u8], c: Cursor) -> bool
    requires { (t : NextBlock) × (next_of s.now c ≡ ok t) }
    ensures { result ≡ ends_at s.now c }
{
    let at = c.at;
    kind_at(s, at) == END
}

// A glance at the page that stands there.
pub fn glance(s: &[u8], c: Cursor) -> Glance
    requires { (c.shapes ≤ most_page_shapes * c.pages) × ((p : PageAt) × (next_of s.now c ≡ ok (page p))) }
    ensures { (p : PageAt) × (next_of s.now c ≡ ok (page p)) × (result ≡ glance_of p) }
{
    let at = c.at;
    let body = at + HEAD;
    Glance {
        v: u16_at(s, body + VERTICES),
        stored: box_at(s, body + BOUNDS),
        next: Cursor {
            edition: c.edition,
            at: body + u32_at(s, at),
            pages: c.pages + 1,
            shapes: c.shapes + u16_at(s, body + SHAPES),
        },
    }
}

// The page that stands there.
pub fn page_at(s: &[u8], c: Cursor) -> PageAt
    requires { (c.shapes ≤ most_page_shapes * c.pages) × ((p : PageAt) × (next_of s.now c ≡ ok (page p))) }
    ensures { next_of s.now c ≡ ok (page result) }
{
    let at = c.at;
    let body = at + HEAD;
    let len = u32_at(s, at);
    let end = body + len;
    let head = read_head(c.edition, &s[body..end]);
    PageAt {
        head,
        body,
        len,
        next: Cursor {
            edition: c.edition,
            at: end,
            pages: c.pages + 1,
            shapes: c.shapes + head.g,
        },
    }
}
