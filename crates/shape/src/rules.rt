// Rules 12 to 16 of a page's contents, over its lists.
ghost use Rattle.std.specs.Prelude.{◌≡◌, true, not, ◌||◌, ltb, length};
ghost use Rattle.answer.specs.Table as table;
ghost use Rattle.answer.specs.Rule.{rule};
ghost use Rattle.answer.specs.All.{all_of};
ghost use Rattle.extent.specs.Boxes.{patterns, FiniteBox, same_box};
ghost use Rattle.shape.specs.Outline.{outlines_in};
ghost use Rattle.shape.specs.Rules.{finite_rule, ring_rule, on_grid_shape, grid_rule, turn_rule};

use crate::lists::Lists;
use crate::which::{OnGrid, RingsClosed, ShapeRule, TurnsHold};
use answer::table::{BOX, FINITE, GRID, RING, TURN};
use answer::{Refusal, rule};
use extent::boxes::{Box, box_if_finite, same_value};
use types::parts::total;

// 12: all coordinates are finite.
pub fn finite_rule(xs: &[u64], ys: &[u64]) -> Result<(), Refusal>
    requires { length ys.now ≡ length xs.now }
    ensures { result ≡ finite_rule xs.now ys.now }
{
    rule(box_if_finite(xs, ys).is_some(), FINITE)
}

// Whether each shape passes a rule that goes shape by shape: a shape's parts, and its vertices, are the first of those left.
fn each_shape<R: ShapeRule>(lists: Lists<'_>) -> bool
    requires { all_of R.ready (outlines_in lists) ≡ true }
    ensures { result ≡ all_of R.test (outlines_in lists.entry) }
{
    let mut k: usize = 0;
    let mut at: usize = 0;
    for (t, n) in lists.types.iter().zip(lists.counts) {
        let e = k + *n as usize;
        let end = at + total(&lists.lens[k..e]);
        if !R::holds(
            *t,
            &lists.lens[k..e],
            &lists.xs[at..end],
            &lists.ys[at..end],
        ) {
            return false;
        }
        k = e;
        at = end;
    }
    true
}

// Whether each shape passes a rule: with no walk over the shapes where it says nothing of their types.
fn shapes_hold<R: ShapeRule>(lists: Lists<'_>) -> bool
    requires { all_of R.ready (outlines_in lists) ≡ true }
    ensures { result ≡ all_of R.test (outlines_in lists.entry) }
{
    lists.types.iter().all(|t| R::spares(*t)) || each_shape::<R>(lists)
}

// 13: rings are closed.
pub fn ring_rule(lists: Lists<'_>) -> Result<(), Refusal>
    ensures { result ≡ ring_rule (outlines_in lists.entry) }
{
    rule(shapes_hold::<RingsClosed>(lists), RING)
}

// 14: each MultiPolygon is on grid.
pub fn grid_rule(lists: Lists<'_>) -> Result<(), Refusal>
    ensures { result ≡ grid_rule (outlines_in lists.entry) }
{
    rule(shapes_hold::<OnGrid>(lists), GRID)
}

// 15: no ring of a MultiPolygon has turn zero, and the first is clockwise. 14 has passed.
pub fn turn_rule(lists: Lists<'_>) -> Result<(), Refusal>
    requires { all_of on_grid_shape (outlines_in lists) ≡ true }
    ensures { result ≡ turn_rule (outlines_in lists.entry) }
{
    rule(shapes_hold::<TurnsHold>(lists), TURN)
}

// Whether a box is in value that of v vertices, if there are any.
fn box_holds(b: Box, own: Box, v: usize) -> bool
    requires { FiniteBox (patterns b) × FiniteBox (patterns own) }
    ensures { result ≡ (not (ltb 0 v) || same_box (patterns b) (patterns own)) }
{
    v == 0 || same_value(b, own)
}

// 16: the page's box is in value its v vertices' own. Rules 7 and 12 have passed.
pub fn box_rule(b: Box, own: Box, v: usize) -> Result<(), Refusal>
    requires { FiniteBox (patterns b) × FiniteBox (patterns own) }
    ensures { result ≡ rule (not (ltb 0 v) || same_box (patterns b) (patterns own)) table.box }
{
    rule(box_holds(b, own, v), BOX)
}
