// 15, of one shape: its rings turn as they must.
ghost use Rattle.std.specs.Prelude.{◌≡◌, true, ◌≤◌, length};
ghost use Rattle.answer.specs.Limits.{vertex_limit};
ghost use Rattle.shape.specs.Outline.{part_with, parts_of, outline_with};
ghost use Rattle.shape.specs.Ready.{Cut, Gridded};
ghost use Rattle.shape.specs.Rules.{on_grid_shape, turn_not_zero, rings_turned, turns_hold};

use crate::parts::all_parts;
use grid::turning::{clockwise, no_turn, turn};
use types::rows::MULTI_POLYGON;

// Whether a ring's turn is not zero.
fn ring_turned(xs: &[u64], ys: &[u64]) -> bool
    requires { Gridded xs.now ys.now }
    ensures { result ≡ turn_not_zero (part_with xs.now ys.now) }
{
    !no_turn(turn(xs, ys))
}

// Whether the first ring, if there is one, is clockwise and no other ring's turn is zero.
fn rings_turned(lens: &[u16], xs: &[u64], ys: &[u64]) -> bool
    requires { Cut lens.now xs.now ys.now × Gridded xs.now ys.now }
    ensures { result ≡ rings_turned (parts_of lens.now xs.now ys.now) }
{
    let Some((n, others)) = lens.split_first() else {
        return true;
    };
    let (x, xs_left) = xs.split_at(*n as usize);
    let (y, ys_left) = ys.split_at(*n as usize);
    clockwise(turn(x, y)) && all_parts(others, xs_left, ys_left, ring_turned)
}

// Whether a shape's rings turn as they must, if it is a MultiPolygon.
pub(crate) fn turns_hold(t: u8, lens: &[u16], xs: &[u64], ys: &[u64]) -> bool
    requires cut { Cut lens.now xs.now ys.now }
    requires xs_len_bound { length xs.now ≤ vertex_limit }
    requires ys_value { on_grid_shape (outline_with t lens.now xs.now ys.now) ≡ true }
    ensures { result ≡ turns_hold (outline_with t lens.now xs.now ys.now) }
{
    t != MULTI_POLYGON || rings_turned(lens, xs, ys)
}
