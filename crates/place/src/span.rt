// Which parts and which vertices of a page are a shape's own.
ghost use Rattle.std.specs.Prelude.{◌≡◌, ◌≤◌, ◌<◌, length};
ghost use Rattle.answer.specs.Limits.{vertex_limit};
ghost use Rattle.types.specs.Parts.{total};
ghost use Rattle.place.specs.Span.{span_of};

use types::parts::total;

// A shape's first part and the one behind its last, its first vertex and the one behind its last.
#[derive(Clone, Copy)]
pub struct Span {
    pub part: usize,
    pub part_end: usize,
    pub vertex: usize,
    pub vertex_end: usize,
}

// The span of the shape at index i, by the page's part counts and part lengths.
pub fn span_of(counts: &[u16], lens: &[u16], i: usize) -> Span
    requires i_in_bounds { i < length counts.now }
    requires counts_value { total counts.now ≡ length lens.now }
    requires lens_len_bound { (length lens.now ≤ vertex_limit) × (total lens.now ≤ vertex_limit) }
    ensures { result ≡ span_of counts.now lens.now i }
{
    let part = total(&counts[..i]);
    let part_end = part + counts[i] as usize;
    let vertex = total(&lens[..part]);
    let vertex_end = total(&lens[..part_end]);
    Span {
        part,
        part_end,
        vertex,
        vertex_end,
    }
}
