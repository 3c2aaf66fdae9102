// Boxes, by value. What is decided of them is decided on the patterns of their floats (`value`).
ghost use Rattle.std.specs.Prelude.{◌≡◌, ◌<◌, true, length};
ghost use Rattle.extent.specs.Rank.{all_finite};
ghost use Rattle.extent.specs.Boxes.{patterns, FiniteBox, four_finite, in_order, good_form, same_box, meets};
ghost use Rattle.extent.specs.Forms.{form_of, Made, bounds_from, ValueBox, ValueForm};

use crate::bounds::{Bounds, four_finite, good_patterns};
use crate::rank::{finite_float, float_of};
use crate::span::{Span, span_of};
use crate::value::{float_at_most, float_same};

// A box is four floats.
#[derive(Clone, Copy)]
pub struct Box {
    pub least_x: f64,
    pub least_y: f64,
    pub greatest_x: f64,
    pub greatest_y: f64,
}

// Whether two boxes share a point, edges included.
#[tactic(auto, unfolding(crate::specs::Boxes::meets))]
pub fn meets(a: Box, b: Box) -> bool
    requires { FiniteBox (patterns a) × FiniteBox (patterns b) }
    ensures { result ≡ meets (patterns a) (patterns b) }
{
    float_at_most(a.least_x, b.greatest_x)
        && float_at_most(b.least_x, a.greatest_x)
        && float_at_most(a.least_y, b.greatest_y)
        && float_at_most(b.least_y, a.greatest_y)
}

// Whether two boxes are the same in value.
#[tactic(auto, unfolding(crate::specs::Boxes::same_box))]
pub fn same_value(a: Box, b: Box) -> bool
    requires { FiniteBox (patterns a) × FiniteBox (patterns b) }
    ensures { result ≡ same_box (patterns a) (patterns b) }
{
    float_same(a.least_x, b.least_x)
        && float_same(a.least_y, b.least_y)
        && float_same(a.greatest_x, b.greatest_x)
        && float_same(a.greatest_y, b.greatest_y)
}

// The box of four finite patterns.
pub fn box_with(p: Bounds) -> Box
    requires { FiniteBox p }
    ensures { Made p result }
{
    Box {
        least_x: float_of(p.least_x),
        least_y: float_of(p.least_y),
        greatest_x: float_of(p.greatest_x),
        greatest_y: float_of(p.greatest_y),
    }
}

// The bounds of a span of x and a span of y.
fn bounds_from(x: Span, y: Span) -> Bounds
    ensures { result ≡ bounds_from x y }
{
    Bounds {
        least_x: x.least,
        least_y: y.least,
        greatest_x: x.greatest,
        greatest_y: y.greatest,
    }
}

// The box of all vertices in value, by their x and their y, of which there is one or more.
pub fn box_of(xs: &[u64], ys: &[u64]) -> Box
    requires { (0 < length xs.now) × (length ys.now ≡ length xs.now) × (all_finite xs.now ≡ true) × (all_finite ys.now ≡ true) }
    ensures { ValueBox xs.now ys.now result }
{
    box_with(bounds_from(span_of(xs), span_of(ys)))
}

// The box of all vertices in value, any patterns: all are finite exactly where the least and the greatest are.
pub fn box_if_finite(xs: &[u64], ys: &[u64]) -> Option<Box>
    requires { length ys.now ≡ length xs.now }
    ensures { ValueForm xs.now ys.now result }
{
    if xs.len() == 0 {
        return Some(box_with(Bounds {
            least_x: 0,
            least_y: 0,
            greatest_x: 0,
            greatest_y: 0,
        }));
    }
    let p = bounds_from(span_of(xs), span_of(ys));
    if four_finite(p) {
        return Some(box_with(p));
    }
    None
}

// The box of four patterns, any patterns.
pub fn form_of(p: Bounds) -> Option<Box>
    ensures { result ≡ form_of p }
{
    if good_patterns(p) {
        return Some(box_with(p));
    }
    None
}

// Whether the four floats of a box are finite, any floats.
#[tactic(auto, unfolding(crate::specs::Boxes::four_finite))]
fn floats_finite(b: Box) -> bool
    ensures { result ≡ four_finite (patterns b) }
{
    finite_float(b.least_x)
        && finite_float(b.least_y)
        && finite_float(b.greatest_x)
        && finite_float(b.greatest_y)
}

// Whether a box is not reversed.
#[tactic(auto, unfolding(crate::specs::Boxes::in_order))]
fn in_order(b: Box) -> bool
    requires { FiniteBox (patterns b) }
    ensures { result ≡ in_order (patterns b) }
{
    float_at_most(b.least_x, b.greatest_x) && float_at_most(b.least_y, b.greatest_y)
}

// Whether a box of any floats is of good form.
#[tactic(auto, unfolding(crate::specs::Boxes::good_form))]
pub fn good_form(b: Box) -> bool
    ensures { result ≡ good_form (patterns b) }
{
    floats_finite(b) && in_order(b)
}
