// The walk over the parts of a shape, for any test of a part.
ghost use Rattle.std.specs.Prelude.{◌≡◌, ℕ, Bool, take, drop};
ghost use Rattle.answer.specs.All.{all_of};
ghost use Rattle.shape.specs.Outline.{Part, parts_of};
ghost use Rattle.shape.specs.Ready.{Cut};
ghost use Rattle.shape.specs.Parts.{Tests};

// Whether all parts pass a test, which may be asked of each part of the vertices: a part's vertices are the first of those left.
pub(crate) fn all_parts<F: Fn(&[u64], &[u64]) -> bool>(
    lens: &[u16],
    xs: &[u64],
    ys: &[u64],
    passes: F,
) -> bool
    requires cut { Cut lens.now xs.now ys.now }
    requires callable { (at n : ℕ) (x y : _) → x.now ≡ take n (drop at xs.now) → y.now ≡ take n (drop at ys.now) → F.pre passes x y }
    ensures { (test : Part → Bool) → Tests F.Fn passes test → result ≡ all_of test (parts_of lens.now xs.now ys.now) }
{
    let mut at: usize = 0;
    for n in lens {
        let end = at + *n as usize;
        if !passes(&xs[at..end], &ys[at..end]) {
            return false;
        }
        at = end;
    }
    true
}
