// The rules of the block at a cursor, over any bytes: that it is present, its kind, and what its kind asks for.
ghost use Rattle.std.specs.Prelude.{◌≡◌, ◌+◌, ◌≤◌, length};
ghost use Rattle.answer.specs.Limits.{most_pages};
ghost use Rattle.answer.specs.Rule.{passed};
ghost use Rattle.frame.specs.Next.{as_page, as_end, by_kind, next_of};

use crate::cursor::Cursor;
use crate::head::head_rules;
use answer::limits::MOST_PAGES;
use answer::table::{COUNTS, KIND, LENGTHS, MANY};
use answer::{Refusal, in_page, rule};
use block::kinds::{END, PAGE};
use block::{Block, block_in, present};
use le::number::u32_at;

// A page block.
fn page_block_rules(s: &[u8], c: Cursor, b: Block) -> Result<(), Refusal>
    requires { b.body + b.len ≤ length s.now }
    ensures { result ≡ passed (as_page s.now c b) }
{
    let pages = c.pages;
    let body = b.body;
    let len = b.len;
    if MOST_PAGES <= pages {
        return Err(Refusal::because(MANY));
    }
    let end = body + len;
    head_rules(c.edition, &s[body..end])
}

// The end block.
fn end_rules(s: &[u8], c: Cursor, b: Block) -> Result<(), Refusal>
    requires { b.body + b.len ≤ length s.now }
    ensures { result ≡ passed (as_end s.now c b) }
{
    let body = b.body;
    let len = b.len;
    let pages = c.pages;
    let shapes = c.shapes;
    if len != 8 {
        return Err(Refusal::because(LENGTHS));
    }
    if u32_at(s, body) != pages {
        return Err(Refusal::because(COUNTS));
    }
    if u32_at(s, body + 4) != shapes {
        return Err(Refusal::because(COUNTS));
    }
    rule(body + 8 == s.len(), LENGTHS)
}

// A block that is present, by its kind.
fn kind_rules(s: &[u8], c: Cursor, b: Block) -> Result<(), Refusal>
    requires { b.body + b.len ≤ length s.now }
    ensures { result ≡ passed (by_kind s.now c b) }
{
    let kind = b.kind;
    if kind == PAGE {
        return page_block_rules(s, c, b);
    }
    if kind == END {
        return end_rules(s, c, b);
    }
    Err(Refusal::because(KIND))
}

// The block at a cursor. A refusal's page is the number of pages before it.
pub(crate) fn block_rules(s: &[u8], c: Cursor) -> Result<(), Refusal>
    requires { c.pages ≤ most_pages }
    ensures { result ≡ passed (next_of s.now c) }
{
    let at = c.at;
    let page = c.pages as u32;
    if present(s, at) {
        return in_page(kind_rules(s, c, block_in(s, at)), page);
    }
    in_page(Err(Refusal::because(LENGTHS)), page)
}
