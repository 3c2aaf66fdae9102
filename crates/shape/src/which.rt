// The three rules that go shape by shape, of one shape.
ghost use Rattle.std.specs.Prelude.{◌≡◌, ℕ, Bool, true, ◌≤◌};
ghost use Rattle.types.specs.Types.{last_type};
ghost use Rattle.shape.specs.Outline.{Outline, outline_with};
ghost use Rattle.shape.specs.Ready.{Cut};
ghost use Rattle.shape.specs.Rules.{rings_closed, on_grid_shape, turns_hold};
ghost use Rattle.shape.specs.Which.{always, turnable, no_rings, no_multi_polygon, rings-spared, grid-spared, turns-spared};

use crate::ongrid::on_grid_shape;
use crate::ring::rings_closed;
use crate::turned::turns_hold;
use types::rows::{MULTI_POLYGON, row_of};

// A rule that goes shape by shape.
pub(crate) trait ShapeRule {
    // what it tests of a shape, what must have passed before, and of which types it says nothing
    ghost test: { Outline → Bool };

    ghost ready: { Outline → Bool };

    ghost spared: { ℕ → Bool };

    // Whether a shape passes.
    fn holds(t: u8, lens: &[u16], xs: &[u64], ys: &[u64]) -> bool
        requires t_le_last_type { t ≤ last_type }
        requires cut { Cut lens.now xs.now ys.now }
        requires ys_value { ready (outline_with t lens.now xs.now ys.now) ≡ true }
        ensures { result ≡ test (outline_with t lens.now xs.now ys.now) };

    // Whether it says nothing of a type, any type.
    fn spares(t: u8) -> bool
        ensures { result ≡ spared t };

    // a shape of such a type passes
    ghost spared_passes: { (o : Outline) → spared o.kind ≡ true → test o ≡ true };
}

// 13.
pub(crate) struct RingsClosed;

impl ShapeRule for RingsClosed {
    ghost test = { rings_closed };

    ghost ready = { always };

    ghost spared = { no_rings };

    ghost spared_passes = { rings-spared };

    fn holds(t: u8, lens: &[u16], xs: &[u64], ys: &[u64]) -> bool {
        rings_closed(t, lens, xs, ys)
    }

    fn spares(t: u8) -> bool {
        t > MULTI_POLYGON || !row_of(t).rings
    }
}

// 14.
pub(crate) struct OnGrid;

impl ShapeRule for OnGrid {
    ghost test = { on_grid_shape };

    ghost ready = { always };

    ghost spared = { no_multi_polygon };

    ghost spared_passes = { grid-spared };

    fn holds(t: u8, lens: &[u16], xs: &[u64], ys: &[u64]) -> bool {
        on_grid_shape(t, lens, xs, ys)
    }

    fn spares(t: u8) -> bool {
        t != MULTI_POLYGON
    }
}

// 15.
pub(crate) struct TurnsHold;

impl ShapeRule for TurnsHold {
    ghost test = { turns_hold };

    ghost ready = { turnable };

    ghost spared = { no_multi_polygon };

    ghost spared_passes = { turns-spared };

    fn holds(t: u8, lens: &[u16], xs: &[u64], ys: &[u64]) -> bool {
        turns_hold(t, lens, xs, ys)
    }

    fn spares(t: u8) -> bool {
        t != MULTI_POLYGON
    }
}
