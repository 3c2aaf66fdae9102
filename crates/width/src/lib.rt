// The width of a column: the one of least size, found by trying each.
#![tactic(auto)]

ghost use Rattle.std.specs.Prelude.{◌≡◌, cond, ◌≤◌, length, leb};
ghost use Rattle.answer.specs.Limits.{vertex_limit};
ghost use Rattle.width.specs.Width.{zs_of, fulls, column_size, width_of};
ghost use Rattle.width.specs.Choice.{lesser_choice};
ghost use Rattle.entry.specs.Step.{marker};

// A width n, and S(n): the bits that the entries take at it.
#[derive(Clone, Copy)]
pub struct Choice {
    pub width: u64,
    pub size: u64,
}

// 0 for a step that is below the marker m, 1 for one that is stored in full.
fn full(z: u64, m: u64) -> u64
    ensures { result ≡ cond (leb m z) 1 0 }
{
    if z < m { 0 } else { 1 }
}

// How many steps are stored in full where m is the marker.
fn full_steps(vs: &[u64], n: u64, m: u64) -> u64
    requires { (m ≡ marker n) × (length vs.now ≤ vertex_limit) }
    ensures { result ≡ fulls n (zs_of 64 vs.now) }
{
    if vs.len() == 0 {
        return 0;
    }
    let mut count: u64 = 0;
    let mut a = vs[0];
    for v in &vs[1..] {
        count += full(entry::zigzag(a, *v), m);
        a = *v;
    }
    count
}

// S(n) of a column.
fn size_at(vs: &[u64], n: u64) -> u64
    requires { (n ≤ 64) × (length vs.now ≤ vertex_limit) }
    ensures { result ≡ column_size 64 (zs_of 64 vs.now) n }
{
    let k = vs.len();
    if k == 0 {
        return 0;
    }
    n * ((k - 1) as u64) + 64 * full_steps(vs, n, entry::marker(n))
}

// The choice c, or width n of this size if that is less.
fn lesser(c: Choice, n: u64, size: u64) -> Choice
    ensures { result ≡ lesser_choice c n size }
{
    if size < c.size {
        Choice { width: n, size }
    } else {
        c
    }
}

// The width of least size, the smallest on a tie.
pub fn choose(vs: &[u64]) -> Choice
    requires { length vs.now ≤ vertex_limit }
    ensures { (result.width ≡ width_of 64 vs.now) × (result.size ≡ column_size 64 (zs_of 64 vs.now) result.width) }
{
    let mut best = Choice {
        width: 0,
        size: size_at(vs, 0),
    };
    for n in 1..=64 {
        best = lesser(best, n, size_at(vs, n));
    }
    best
}
