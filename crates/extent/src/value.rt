// The order of values, decided on whole numbers: no answer depends on the floating-point mode of the caller.
ghost use Rattle.std.specs.Prelude.{◌≡◌, true};
ghost use Rattle.extent.specs.Rank.{finite, key, at_most, same_value};
ghost use Rattle.extent.specs.Boxes.{pattern_of};
ghost use Rattle.extent.specs.Forms.{good_axis};

use crate::rank::bits_of;

// The key of a pattern: its rank, raised by 2^63. Values compare as their keys.
pub(crate) fn key(b: u64) -> u64
    ensures { result ≡ key b }
{
    if b < 0x8000_0000_0000_0000 {
        return b + 0x8000_0000_0000_0000;
    }
    std::num::wrapping_sub_u64(0, b)
}

// Whether the value of a pattern is at most that of another.
pub(crate) fn at_most(a: u64, b: u64) -> bool
    ensures { result ≡ at_most a b }
{
    key(a) <= key(b)
}

// Whether the value of a float is at most that of another.
pub(crate) fn float_at_most(x: f64, y: f64) -> bool
    requires x_value { finite (pattern_of x) ≡ true }
    requires y_value { finite (pattern_of y) ≡ true }
    ensures { result ≡ at_most (pattern_of x) (pattern_of y) }
{
    at_most(bits_of(x), bits_of(y))
}

// Whether two floats are equal in value.
pub(crate) fn float_same(x: f64, y: f64) -> bool
    requires x_value { finite (pattern_of x) ≡ true }
    requires y_value { finite (pattern_of y) ≡ true }
    ensures { result ≡ same_value (pattern_of x) (pattern_of y) }
{
    key(bits_of(x)) == key(bits_of(y))
}

// Whether two patterns are finite, and the first is at most the second: the finite ones have the keys between 2^52 and 2^64 - 2^52.
pub(crate) fn good_axis(least: u64, greatest: u64) -> bool
    ensures { result ≡ good_axis least greatest }
{
    let low = key(least);
    let high = key(greatest);
    low <= high && 0x0010_0000_0000_0000 < low && high < 0xFFF0_0000_0000_0000
}
