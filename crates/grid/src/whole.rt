// Coordinates on grid, as whole numbers of decimetres.
ghost use Rattle.std.specs.Prelude.{◌≡◌, true, ◌^◌, ◌≤◌, eqb, nat_abs};
ghost use Rattle.grid.specs.Grid.{on_grid, whole_of, all_on_grid};

use extent::rank::float_of;

// 0 exactly if a pattern's value is a whole number from -2^24 to 2^24. Without its sign, 0 is 0, 1 is 0x3FF0.., and 2^24 is 0x4170.. Between the last two
// the exponent's field is from 1023 to 1047, and a shift up by that less 1011 leaves the digits below the point.
fn off_grid(b: u64) -> u64
    ensures { eqb result 0 ≡ on_grid b }
{
    let m = b % 0x8000_0000_0000_0000;
    if m < 0x3FF0_0000_0000_0000 {
        return m;
    }
    if m > 0x4170_0000_0000_0000 {
        return m;
    }
    m << (m / 0x10_0000_0000_0000 - 1011)
}

// Whether a pattern's value is a whole number from -2^24 to 2^24.
pub fn on_grid(b: u64) -> bool
    ensures { result ≡ on_grid b }
{
    off_grid(b) == 0
}

// The whole number of a pattern on grid. The cast has no meaning at -0.
pub fn whole(b: u64) -> i64
    requires { on_grid b ≡ true }
    ensures { (result ≡ whole_of b) × (nat_abs result ≤ 2 ^ 24) }
{
    if b == 0x8000_0000_0000_0000 {
        return 0;
    }
    float_of(b) as i64
}

// Whether all patterns are on grid. The walk has no way out before its end, so that it can take several at a time.
pub fn all_on_grid(vs: &[u64]) -> bool
    ensures { result ≡ all_on_grid vs.now }
{
    let mut off: u64 = 0;
    for b in vs {
        off = off | off_grid(*b);
    }
    off == 0
}
