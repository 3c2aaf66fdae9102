// Finite patterns, and the floats that they are.
ghost use Rattle.std.specs.Prelude.{◌≡◌, true, from_bits};
ghost use Rattle.std.specs.Float.{binary64};
ghost use Rattle.extent.specs.Rank.{finite};
ghost use Rattle.extent.specs.Boxes.{pattern_of};

// Neither an infinity nor a NaN: the exponent's field is below 2047.
pub fn finite(b: u64) -> bool
    ensures { result ≡ finite b }
{
    b / 4503599627370496 % 2048 < 2047
}

// The float of a finite pattern.
pub fn float_of(b: u64) -> f64
    requires { finite b ≡ true }
    ensures { (result ≡ from_bits binary64 b) × (pattern_of result ≡ b) }
{
    f64::from_bits(b)
}

// The pattern of a finite float.
pub(crate) fn bits_of(x: f64) -> u64
    requires { finite (pattern_of x) ≡ true }
    ensures { result ≡ pattern_of x }
{
    f64::to_bits(x)
}

// Whether a float is finite, any float: it lies between the least and the greatest of the finite ones. (A NaN lies nowhere.)
pub fn finite_float(x: f64) -> bool
    ensures { result ≡ finite (pattern_of x) }
{
    let least = float_of(0xFFEF_FFFF_FFFF_FFFF);
    let greatest = float_of(0x7FEF_FFFF_FFFF_FFFF);
    least <= x && x <= greatest
}
