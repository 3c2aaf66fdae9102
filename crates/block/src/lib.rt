// Blocks, by their heads. All numbers little-endian. Each block: length of the body (u32), kind (u16), body.
#![tactic(auto)]

ghost use Rattle.std.specs.Prelude.{◌≡◌, true, ◌+◌, ◌≤◌, length};
ghost use Rattle.std.proofs.lemmas.List.Edits.{sets};
ghost use Rattle.answer.specs.Table.{lengths};
ghost use Rattle.answer.specs.Refusal.{because};
ghost use Rattle.answer.specs.Outcome.{refused, ok};
ghost use Rattle.block.specs.Block.{head_bytes, kind_at, present_at, block_at, block_head};

use answer::Refusal;
use answer::table::LENGTHS;
use le::number::{put_u16, put_u32, u16_at, u32_at};

pub mod kinds;

// The bytes of a head: four of the length, two of the kind.
pub const HEAD: usize = 6;

// A block: its kind, any number that a file may hold, as `block_at` promises; the place of its body's first byte, and the body's length.
#[derive(Clone, Copy)]
pub struct Block {
    pub kind: usize,
    pub body: usize,
    pub len: usize,
}

// A length doesn't fit.
fn short() -> Result<Block, Refusal>
    ensures { result ≡ refused (because lengths) }
{
    Err(Refusal::because(LENGTHS))
}

// Whether a block stands at a place, any place, with all of its body.
#[tactic(auto, unfolding(crate::specs::Block::present_at))]
pub fn present(s: &[u8], at: usize) -> bool
    ensures { result ≡ present_at s.now at }
{
    let n = s.len();
    HEAD <= n && at <= n - HEAD && u32_at(s, at) <= n - (at + HEAD)
}

// The kind that the head at a place says.
pub fn kind_at(s: &[u8], at: usize) -> usize
    requires { at + head_bytes ≤ length s.now }
    ensures { result ≡ kind_at s.now at }
{
    u16_at(s, at + 4)
}

// The block that is present at a place.
pub fn block_in(s: &[u8], at: usize) -> Block
    requires { present_at s.now at ≡ true }
    ensures { block_at s.now at ≡ ok result }
{
    Block {
        kind: kind_at(s, at),
        body: at + HEAD,
        len: u32_at(s, at),
    }
}

// The block whose head stands at a place, any place.
pub fn block_at(s: &[u8], at: usize) -> Result<Block, Refusal>
    ensures { result ≡ block_at s.now at }
{
    if present(s, at) {
        return Ok(block_in(s, at));
    }
    short()
}

// Puts a block's head from place at on; the rest stays.
pub fn put_head(d: &mut [u8], at: usize, len: usize, kind: usize)
    requires { at + head_bytes ≤ length d.old }
    ensures { d.new ≡ sets d.old at (block_head len kind) }
{
    put_u32(d, at, len as u64);
    put_u16(d, at + 4, kind as u64);
}
