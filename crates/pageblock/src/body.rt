// The parts of a page's body, put where its layout says; what stands elsewhere stays.
ghost use Rattle.std.specs.Prelude.{◌≡◌, ◌+◌, ◌≤◌, length};
ghost use Rattle.std.proofs.lemmas.List.Edits.{sets};
ghost use Rattle.answer.specs.Limits.{vertex_limit};
ghost use Rattle.column.specs.Column.{encode};
ghost use Rattle.frame.specs.Layout.{bounds_place};
ghost use Rattle.pageblock.specs.Body.{handed_of, count_bytes, box_bytes, table_bytes, column_bytes};
ghost use Rattle.pageblock.specs.Ready.{FiniteVertices, Sized, Laid};

use crate::lists::PageLists;
use column::write::Fitted;
use extent::bounds::Bounds;
use frame::layout::{Layout, PARTS, SECOND_SIZE, SHAPES, VERTICES};
use le::number::{put_u16, put_u32, put_u64};
use le::run::{put_bytes, put_run};

// How many shapes, vertices and parts, of the body that begins at a place.
pub(crate) fn put_counts(d: &mut [u8], body: usize, g: usize, v: usize, p: usize)
    requires { body + bounds_place ≤ length d.old }
    ensures { d.new ≡ sets d.old body (count_bytes g v p) }
{
    put_u16(d, body + SHAPES, g as u64);
    put_u16(d, body + VERTICES, v as u64);
    put_u16(d, body + PARTS, p as u64);
}

// Four patterns, from a place on.
pub(crate) fn put_bounds(d: &mut [u8], at: usize, b: Bounds)
    requires { at + 32 ≤ length d.old }
    ensures { d.new ≡ sets d.old at (box_bytes b) }
{
    put_u64(d, at, b.least_x);
    put_u64(d, at + 8, b.least_y);
    put_u64(d, at + 16, b.greatest_x);
    put_u64(d, at + 24, b.greatest_y);
}

// The registers, the types, the part counts and the part lengths, of the body that begins at a place.
pub(crate) fn put_tables(d: &mut [u8], body: usize, l: Layout, lists: PageLists)
    requires { Laid l (handed_of lists) × (body + l.sizes ≤ length d.old) }
    ensures { d.new ≡ sets d.old (body + l.registers) (table_bytes l.each (handed_of lists.entry)) }
{
    put_run(d, body + l.registers, lists.registers);
    put_bytes(d, body + l.types, lists.types);
    put_run(d, body + l.counts, lists.counts);
    put_run(d, body + l.lens, lists.lens);
}

// A column, put straight into the part that is to hold it.
fn put_column(d: &mut [u8], at: usize, vs: &[u64], f: Fitted)
    requires { (at + f.bytes ≤ length d.old) × (length vs.now ≤ vertex_limit) × Sized vs.now f }
    ensures { d.new ≡ sets d.old at (encode 64 vs.now) }
{
    let end = at + f.bytes;
    column::write::put(&mut d[at..end], vs, f.width);
}

// The byte lengths of the two columns, and the columns, from a place on.
pub(crate) fn put_columns(d: &mut [u8], at: usize, xs: &[u64], ys: &[u64], fx: Fitted, fy: Fitted)
    requires { (at + 8 + fx.bytes + fy.bytes ≤ length d.old) × FiniteVertices xs.now ys.now × Sized xs.now fx × Sized ys.now fy }
    ensures { d.new ≡ sets d.old at (column_bytes xs.now ys.now) }
{
    put_u32(d, at, fx.bytes as u64);
    put_u32(d, at + SECOND_SIZE, fy.bytes as u64);
    put_column(d, at + 8, xs, fx);
    put_column(d, at + 8 + fx.bytes, ys, fy);
}
