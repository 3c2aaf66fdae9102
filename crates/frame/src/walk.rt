// The walk over a file: the first block, then step by step to the end.
ghost use Rattle.std.specs.Prelude.{◌≡◌, suc, ◌+◌, ◌≤◌, length};
ghost use Rattle.answer.specs.Limits.{most_pages};
ghost use Rattle.answer.specs.Outcome.{on, ok, refused};
ghost use Rattle.answer.specs.Refusal.{because};
ghost use Rattle.frame.specs.Next.{as_first, first_of};
ghost use Rattle.frame.specs.Frame.{walk, page_totals, frame_of, totals_of};

use crate::cursor::Cursor;
use crate::layout::EDITION;
use crate::read::{at_end, glance};
use crate::rules::block_rules;
use answer::Refusal;
use block::kinds::FIRST;
use block::{Block, block_at};
use le::number::u16_at;

// How many pages and shapes a file has, and the cursor after its first block, from which its pages are walked again.
#[derive(Clone, Copy)]
pub struct Totals {
    pub pages: usize,
    pub shapes: usize,
    pub first: Cursor,
}

// Refused by a number.
fn refused(number: u8) -> Result<Cursor, Refusal>
    ensures { result ≡ refused (because number) }
{
    Err(Refusal::because(number))
}

// The first block, once it is found.
fn first_step(s: &[u8], b: Block) -> Result<Cursor, Refusal>
    requires { b.body + b.len ≤ length s.now }
    ensures { result ≡ as_first s.now b }
{
    let kind = b.kind;
    let body = b.body;
    let len = b.len;
    if kind != FIRST {
        return refused(answer::table::KIND);
    }
    if len != 2 {
        return refused(answer::table::LENGTHS);
    }
    let edition = u16_at(s, body);
    if edition != EDITION {
        return refused(answer::table::KIND);
    }
    Ok(Cursor {
        edition,
        at: body + 2,
        pages: 0,
        shapes: 0,
    })
}

// The first block of a file, any bytes.
fn first(s: &[u8]) -> Result<Cursor, Refusal>
    ensures { result ≡ first_of s.now }
{
    let b = block_at(s, 0)?;
    first_step(s, b)
}

// The walk from a cursor to the end.
fn walk_from(s: &[u8], from: Cursor) -> Result<Totals, Refusal>
    requires { (from.pages ≡ 0) × (from.shapes ≡ 0) }
    ensures { result ≡ on (walk (suc most_pages) s.now from) (λ ps. ok (page_totals from ps)) }
{
    let mut c = from;
    loop {
        block_rules(s, c)?;
        if at_end(s, c) {
            return Ok(Totals {
                pages: c.pages,
                shapes: c.shapes,
                first: from,
            });
        }
        let l = glance(s, c);
        c = l.next;
    }
}

// The frame of a file, any bytes.
pub fn frame(s: &[u8]) -> Result<Totals, Refusal>
    ensures { result ≡ on (frame_of s.now) (λ f. ok (totals_of f)) }
{
    let c = first(s)?;
    walk_from(s, c)
}
