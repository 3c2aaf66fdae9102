// The query block: kind 4, and a body that is empty, or 16 or 32 bytes of floats, for everything, a spot, a window.
ghost use Rattle.std.specs.Prelude.{◌≡◌, ◌&&◌, ◌+◌, ◌≤◌, length};
ghost use Rattle.answer.specs.Table.{query};
ghost use Rattle.answer.specs.Refusal.{because};
ghost use Rattle.answer.specs.Outcome.{refused};
ghost use Rattle.block.specs.Block.{head_bytes};
ghost use Rattle.extent.specs.Rank.{finite};
ghost use Rattle.extent.specs.Boxes.{bounds_at};
ghost use Rattle.query.specs.Block.{window_bytes, body_len, len_of, block_len, spot_asked, window_asked, asked, ask_of};

use crate::ask::{Ask, Query};
use answer::Refusal;
use answer::table::QUERY;
use block::{Block, HEAD, block_at};
use extent::bounds::bounds_at;
use extent::boxes::form_of;
use extent::rank::{finite, float_of};
use le::number::u64_at;

// The bytes of a body: two floats for a spot, four for a window.
const SPOT: usize = 16;

const WINDOW: usize = 32;

// The body is empty, or 16 or 32 bytes.
#[tactic(auto, unfolding(crate::specs::Block::body_len))]
fn body_len(n: usize) -> bool
    ensures { result ≡ body_len n }
{
    n == 0 || n == SPOT || n == WINDOW
}

// No query block.
fn no_block() -> Result<usize, Refusal>
    ensures { result ≡ refused (because query) }
{
    Err(Refusal::because(QUERY))
}

// The bytes that a block takes, if it is a query block.
fn len_of(b: Block) -> Result<usize, Refusal>
    ensures { result ≡ len_of b }
{
    let n = b.len;
    if b.kind == block::kinds::QUERY && body_len(n) {
        return Ok(HEAD + n);
    }
    no_block()
}

// The bytes that the query block at the front of an input takes.
pub fn block_len(s: &[u8]) -> Result<usize, Refusal>
    ensures { result ≡ block_len s.now }
{
    match block_at(s, 0) {
        Ok(b) => len_of(b),
        Err(_) => no_block(),
    }
}

// Nothing that can be asked.
fn nothing_asked() -> Result<Ask, Refusal>
    ensures { result ≡ refused (because query) }
{
    Err(Refusal::because(QUERY))
}

// Whether two patterns are finite.
fn both_finite(x: u64, y: u64) -> bool
    ensures { result ≡ (finite x && finite y) }
{
    finite(x) && finite(y)
}

// The spot of two patterns.
fn spot_asked(x: u64, y: u64) -> Result<Ask, Refusal>
    ensures { result ≡ spot_asked x y }
{
    if both_finite(x, y) {
        return Ok(Ask {
            query: Query::Spot(float_of(x), float_of(y)),
        });
    }
    nothing_asked()
}

// The window of the four patterns of a body.
fn window_asked(s: &[u8]) -> Result<Ask, Refusal>
    requires { head_bytes + window_bytes ≤ length s.now }
    ensures { result ≡ window_asked (bounds_at s.now head_bytes) }
{
    let Some(b) = form_of(bounds_at(s, HEAD)) else {
        return nothing_asked();
    };
    Ok(Ask {
        query: Query::Window(b),
    })
}

// What a block asks, by its length.
fn asked(s: &[u8]) -> Result<Ask, Refusal>
    ensures { result ≡ asked s.now }
{
    let n = s.len();
    if n == HEAD {
        return Ok(Ask {
            query: Query::Everything,
        });
    }
    if n == HEAD + SPOT {
        return spot_asked(u64_at(s, HEAD), u64_at(s, HEAD + 8));
    }
    if n == HEAD + WINDOW {
        return window_asked(s);
    }
    nothing_asked()
}

// What exactly a query block asks.
pub fn ask_of(s: &[u8]) -> Result<Ask, Refusal>
    ensures { result ≡ ask_of s.now }
{
    // no `?`: the answer would go through memory piece by piece, and reading a query took nearly twice as long
    match block_len(s) {
        Ok(n) => {
            if n == s.len() {
                return asked(s);
            }
            nothing_asked()
        }
        Err(w) => Err(w),
    }
}
