// What a searcher asks, and what it meets.
ghost use Rattle.std.specs.Prelude.{◌≡◌, true, ◌&&◌, length};
ghost use Rattle.answer.specs.Table.{query};
ghost use Rattle.answer.specs.Rule.{rule};
ghost use Rattle.extent.specs.Rank.{finite, all_finite};
ghost use Rattle.extent.specs.Boxes.{pattern_of, patterns, FiniteBox, spot_of};
ghost use Rattle.query.specs.Ask.{good_query, reach_of, stored, in_window, hit, opens};

use answer::table::QUERY;
use answer::{Refusal, rule};
use extent::boxes::{Box, box_of, good_form, meets};
use extent::rank::finite_float;

// A query is everything, a spot with its two coordinates, or a window with four.
#[derive(Clone, Copy)]
pub enum Query {
    Everything,
    Spot(f64, f64),
    Window(Box),
}

// What a searcher asks.
#[derive(Clone, Copy)]
pub struct Ask {
    pub query: Query,
}

// Whether both coordinates of a spot are finite.
fn spot_finite(x: f64, y: f64) -> bool
    ensures { result ≡ (finite (pattern_of x) && finite (pattern_of y)) }
{
    finite_float(x) && finite_float(y)
}

// Whether a query's coordinates are finite and least ≤ greatest, any floats.
pub fn good_query(q: Query) -> bool
    ensures { result ≡ good_query q }
{
    match q {
        Query::Everything => true,
        Query::Spot(x, y) => spot_finite(x, y),
        Query::Window(b) => good_form(b),
    }
}

// The first rule of a search: the query is good.
pub fn judge(a: Ask) -> Result<(), Refusal>
    ensures { result ≡ rule (good_query a.query) query }
{
    let q = a.query;
    rule(good_query(q), QUERY)
}

// A spot is a window of one point.
fn point(x: f64, y: f64) -> Box
    ensures { patterns result ≡ spot_of (pattern_of x) (pattern_of y) }
{
    Box {
        least_x: x,
        least_y: y,
        greatest_x: x,
        greatest_y: y,
    }
}

// Whether vertices, by their x and their y, meet a window.
fn shape_in(w: Box, xs: &[u64], ys: &[u64]) -> bool
    requires { FiniteBox (patterns w) × (length ys.now ≡ length xs.now) × (all_finite xs.now ≡ true) × (all_finite ys.now ≡ true) }
    ensures { result ≡ in_window (patterns w) (reach_of xs.now ys.now) }
{
    0 < xs.len() && meets(w, box_of(xs, ys))
}

// Whether a page of v vertices and a stored box meets a window.
fn page_in(w: Box, v: usize, b: Box) -> bool
    requires { FiniteBox (patterns w) × FiniteBox (patterns b) }
    ensures { result ≡ in_window (patterns w) (stored v (patterns b)) }
{
    0 < v && meets(w, b)
}

// Whether what is asked meets a shape, by the x and the y of its vertices.
pub fn hit(a: Ask, xs: &[u64], ys: &[u64]) -> bool
    requires { (good_query a.query ≡ true) × (length ys.now ≡ length xs.now) × (all_finite xs.now ≡ true) × (all_finite ys.now ≡ true) }
    ensures { result ≡ hit a xs.now ys.now }
{
    let q = a.query;
    match q {
        Query::Everything => true,
        Query::Spot(x, y) => shape_in(point(x, y), xs, ys),
        Query::Window(w) => shape_in(w, xs, ys),
    }
}

// Whether what is asked opens a page, by the number of its vertices and its stored box.
pub fn opens(a: Ask, v: usize, b: Box) -> bool
    requires { (good_query a.query ≡ true) × FiniteBox (patterns b) }
    ensures { result ≡ opens a v (patterns b) }
{
    let q = a.query;
    match q {
        Query::Everything => true,
        Query::Spot(x, y) => page_in(point(x, y), v, b),
        Query::Window(w) => page_in(w, v, b),
    }
}
