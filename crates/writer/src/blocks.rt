// The first and the last block of a file.
ghost use Rattle.std.specs.Prelude.{◌≡◌, ◌+◌, ◌≤◌, length};
ghost use Rattle.std.proofs.lemmas.List.Edits.{sets};
ghost use Rattle.frame.specs.Next.{first_block_bytes};
ghost use Rattle.frame.specs.Whole.{end_block_bytes, end_block};
ghost use Rattle.writer.specs.State.{first_block};

use block::kinds::{END, FIRST};
use block::{HEAD, put_head};
use frame::layout::EDITION;
use le::number::{put_u16, put_u32};

// Their bytes.
pub(crate) const FIRST_BLOCK: usize = 8;

pub(crate) const END_BLOCK: usize = 14;

// The edition, at the buffer's start.
pub(crate) fn put_first(d: &mut [u8])
    requires { first_block_bytes ≤ length d.old }
    ensures { d.new ≡ sets d.old 0 first_block }
{
    put_head(d, 0, 2, FIRST);
    put_u16(d, HEAD, EDITION as u64);
}

// How many pages, and how many shapes.
pub(crate) fn put_end(d: &mut [u8], at: usize, pages: u32, shapes: u32)
    requires { at + end_block_bytes ≤ length d.old }
    ensures { d.new ≡ sets d.old at (end_block pages shapes) }
{
    put_head(d, at, 8, END);
    put_u32(d, at + HEAD, pages as u64);
    put_u32(d, at + HEAD + 4, shapes as u64);
}
