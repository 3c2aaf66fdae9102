// The least and the greatest of a list in value, found on the patterns as numbers, in one walk. Patterns with sign bit 1 come before all others in value,
// and go down as their numbers go up.
ghost use Rattle.std.specs.Prelude.{◌≡◌, ◌<◌, length};
ghost use Rattle.extent.specs.Span.{lower, higher, flipped, higher_flipped, by_sign, span_of, Spans, first_zero, first_as, is_zero};

// The patterns of the least and of the greatest.
#[derive(Clone, Copy)]
pub struct Span {
    pub least: u64,
    pub greatest: u64,
}

// The lower of two numbers.
#[tactic(auto, unfolding(crate::specs::Span::lower))]
fn lower(a: u64, v: u64) -> u64
    ensures { result ≡ lower a v }
{
    a.min(v)
}

// The higher of two numbers.
#[tactic(auto, unfolding(crate::specs::Span::higher))]
fn higher(a: u64, v: u64) -> u64
    ensures { result ≡ higher a v }
{
    a.max(v)
}

// A pattern with its sign bit turned over.
fn flipped(b: u64) -> u64
    ensures { result ≡ flipped b }
{
    if b < 0x8000_0000_0000_0000 {
        return b + 0x8000_0000_0000_0000;
    }
    b - 0x8000_0000_0000_0000
}

// Of two patterns the one that is higher with its sign bit turned over.
fn higher_flipped(a: u64, v: u64) -> u64
    ensures { result ≡ higher_flipped a v }
{
    if flipped(a) < flipped(v) {
        return v;
    }
    a
}

// By the sign bit of b: plus where it is 0, else minus.
fn by_sign(b: u64, plus: u64, minus: u64) -> u64
    ensures { result ≡ by_sign b plus minus }
{
    if b < 0x8000_0000_0000_0000 {
        return plus;
    }
    minus
}

// The least and the greatest of a list, which has a value or more.
pub(crate) fn span_of(vs: &[u64]) -> Span
    requires { 0 < length vs.now }
    ensures { (result ≡ span_of vs.now) × Spans vs.now result }
{
    let mut low = vs[0];
    let mut high = vs[0];
    let mut up = vs[0];
    for v in &vs[1..] {
        low = lower(low, *v);
        high = higher(high, *v);
        up = higher_flipped(up, *v);
    }
    Span {
        least: by_sign(high, low, high),
        greatest: by_sign(low, up, low),
    }
}

// Whether a pattern is a zero of either sign.
fn is_zero(b: u64) -> bool
    ensures { result ≡ is_zero b }
{
    b % 0x8000_0000_0000_0000 == 0
}

// The first zero of a list; 0 where there is none.
fn first_zero(vs: &[u64]) -> u64
    ensures { result ≡ first_zero vs.now }
{
    for v in vs {
        if is_zero(*v) {
            return *v;
        }
    }
    0
}

// The first of a list that is equal in value to b, its least or its greatest: no two patterns are equal in value but the two zeros.
pub(crate) fn first_as(vs: &[u64], b: u64) -> u64
    ensures { result ≡ first_as vs.now b }
{
    if is_zero(b) {
        return first_zero(vs);
    }
    b
}
