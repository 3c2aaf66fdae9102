// The turn of a ring on grid.
ghost use Rattle.std.specs.Prelude.{◌≡◌, true, ◌^◌, ◌≤◌, nat_abs, length};
ghost use Rattle.answer.specs.Limits.{vertex_limit};
ghost use Rattle.grid.specs.Grid.{all_on_grid};
ghost use Rattle.grid.specs.Turn.{edge, turn_of, clockwise, zero_turn};

use crate::whole::whole;

// What the edge from one vertex to the next adds to the turn.
fn edge(x0: i64, y0: i64, x1: i64, y1: i64) -> i64
    requires { (nat_abs x0 ≤ 2 ^ 24) × (nat_abs y0 ≤ 2 ^ 24) × (nat_abs x1 ≤ 2 ^ 24) × (nat_abs y1 ≤ 2 ^ 24) }
    ensures { result ≡ edge x0 y0 x1 y1 }
{
    x0 * y1 - x1 * y0
}

// The turn of the ring of these vertices, by their x and their y. It fits: an edge is at most 2^49, so 2,048 are at most 2^60.
pub fn turn(xs: &[u64], ys: &[u64]) -> i64
    requires { (length ys.now ≡ length xs.now) × (length xs.now ≤ vertex_limit) × (all_on_grid xs.now ≡ true) × (all_on_grid ys.now ≡ true) }
    ensures { result ≡ turn_of xs.now ys.now }
{
    if xs.len() == 0 {
        return 0;
    }
    let mut x = whole(xs[0]);
    let mut y = whole(ys[0]);
    let mut sum: i64 = 0;
    for i in 1..xs.len() {
        let next_x = whole(xs[i]);
        let next_y = whole(ys[i]);
        sum = sum + edge(x, y, next_x, next_y);
        x = next_x;
        y = next_y;
    }
    sum
}

// Whether a turn is clockwise.
pub fn clockwise(t: i64) -> bool
    ensures { result ≡ clockwise t }
{
    t < 0
}

// Whether a turn is zero.
pub fn no_turn(t: i64) -> bool
    ensures { result ≡ zero_turn t }
{
    t == 0
}
