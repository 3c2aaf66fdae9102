// Where things stand in a page's body, by edition. This file alone knows its offsets and strides.
ghost use Rattle.std.specs.Prelude.{◌≡◌, ◌≤◌};
ghost use Rattle.answer.specs.Limits.{vertex_limit, most_page_shapes};
ghost use Rattle.frame.specs.Layout.{each, layout_of};

// The edition that is written, and the only one that is read.
pub const EDITION: usize = 1;

// What stands first, in every edition: how many shapes, how many vertices, how many parts, and the box.
pub const SHAPES: usize = 0;

pub const VERTICES: usize = 2;

pub const PARTS: usize = 4;

pub const BOUNDS: usize = 6;

// The bytes of these, which every page has; behind them come the registers.
pub const FIRST: usize = 38;

// The place of the byte length of the y column behind that of the x column.
pub const SECOND_SIZE: usize = 4;

// The places of a page body's parts, from its first byte: the registers, the types, the part counts, the part lengths, the two byte lengths, and
// the columns; and the bytes from one register to the next.
#[derive(Clone, Copy)]
pub struct Layout {
    pub registers: usize,
    pub each: usize,
    pub types: usize,
    pub counts: usize,
    pub lens: usize,
    pub sizes: usize,
    pub columns: usize,
}

// The bytes from one register to the next.
fn each(edition: usize) -> usize
    ensures { result ≡ each edition }
{
    4
}

// The layout of a body with g shapes and p parts.
pub fn layout_of(edition: usize, g: usize, p: usize) -> Layout
    requires { (g ≤ most_page_shapes) × (p ≤ vertex_limit) }
    ensures { result ≡ layout_of edition g p }
{
    let each = each(edition);
    let types = FIRST + each * g;
    let counts = types + g;
    let lens = counts + 2 * g;
    let sizes = lens + 2 * p;
    let columns = sizes + 8;
    Layout {
        registers: FIRST,
        each,
        types,
        counts,
        lens,
        sizes,
        columns,
    }
}
