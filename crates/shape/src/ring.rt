// 13, of one shape: its rings are closed.
ghost use Rattle.std.specs.Prelude.{◌≡◌, ◌≤◌, length};
ghost use Rattle.types.specs.Types.{last_type};
ghost use Rattle.shape.specs.Outline.{part_with, outline_with};
ghost use Rattle.shape.specs.Ready.{Cut};
ghost use Rattle.shape.specs.Rules.{closed_ring, rings_closed};

use crate::parts::all_parts;
use types::rows::row_of;

// Whether a ring is closed: first and last vertex have the same bit patterns.
fn closed_ring(xs: &[u64], ys: &[u64]) -> bool
    requires { length ys.now ≡ length xs.now }
    ensures { result ≡ closed_ring (part_with xs.now ys.now) }
{
    let n = xs.len();
    n == 0 || (xs[0] == xs[n - 1] && ys[0] == ys[n - 1])
}

// Whether a shape's parts are closed, if those of its type are rings.
pub(crate) fn rings_closed(t: u8, lens: &[u16], xs: &[u64], ys: &[u64]) -> bool
    requires { (t ≤ last_type) × Cut lens.now xs.now ys.now }
    ensures { result ≡ rings_closed (outline_with t lens.now xs.now ys.now) }
{
    !row_of(t).rings || all_parts(lens, xs, ys, closed_ring)
}
