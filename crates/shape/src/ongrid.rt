// 14, of one shape: it is on grid.
ghost use Rattle.std.specs.Prelude.{◌≡◌};
ghost use Rattle.shape.specs.Outline.{outline_with};
ghost use Rattle.shape.specs.Rules.{on_grid_shape};

use grid::whole::all_on_grid;
use types::rows::MULTI_POLYGON;

// Whether a shape is on grid, if it is a MultiPolygon.
pub fn on_grid_shape(t: u8, lens: &[u16], xs: &[u64], ys: &[u64]) -> bool
    ensures { result ≡ on_grid_shape (outline_with t lens.now xs.now ys.now) }
{
    t != MULTI_POLYGON || (all_on_grid(xs) && all_on_grid(ys))
}
