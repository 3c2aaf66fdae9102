// The bounds of a box: its four patterns, any patterns. They are read from bytes, tested, and taken from vertices, with no float made.
ghost use Rattle.std.specs.Prelude.{◌≡◌, ◌+◌, ◌≤◌, length};
ghost use Rattle.extent.specs.Boxes.{bounds_at, four_finite, good_form, box_of};

use crate::rank::finite;
use crate::span::{first_as, span_of};
use crate::value::good_axis;
use le::number::u64_at;

// Four patterns.
#[derive(Clone, Copy)]
pub struct Bounds {
    pub least_x: u64,
    pub least_y: u64,
    pub greatest_x: u64,
    pub greatest_y: u64,
}

// The four that stand in bytes from a place on.
pub fn bounds_at(s: &[u8], at: usize) -> Bounds
    requires { at + 32 ≤ length s.now }
    ensures { result ≡ bounds_at s.now at }
{
    Bounds {
        least_x: u64_at(s, at),
        least_y: u64_at(s, at + 8),
        greatest_x: u64_at(s, at + 16),
        greatest_y: u64_at(s, at + 24),
    }
}

// Whether all four are finite.
#[tactic(auto, unfolding(crate::specs::Boxes::four_finite))]
pub(crate) fn four_finite(p: Bounds) -> bool
    ensures { result ≡ four_finite p }
{
    finite(p.least_x) && finite(p.least_y) && finite(p.greatest_x) && finite(p.greatest_y)
}

// Whether they are those of a box of good form.
pub fn good_patterns(p: Bounds) -> bool
    ensures { result ≡ good_form p }
{
    good_axis(p.least_x, p.greatest_x) && good_axis(p.least_y, p.greatest_y)
}

// The bounds that are stored of vertices, by their x and their y: among equal values the first met; of no vertex, all zero.
pub fn stored_bounds(xs: &[u64], ys: &[u64]) -> Bounds
    requires { length ys.now ≡ length xs.now }
    ensures { result ≡ box_of xs.now ys.now }
{
    if xs.len() == 0 {
        return Bounds {
            least_x: 0,
            least_y: 0,
            greatest_x: 0,
            greatest_y: 0,
        };
    }
    let x = span_of(xs);
    let y = span_of(ys);
    Bounds {
        least_x: first_as(xs, x.least),
        least_y: first_as(ys, y.least),
        greatest_x: first_as(xs, x.greatest),
        greatest_y: first_as(ys, y.greatest),
    }
}
