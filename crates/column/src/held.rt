// How far a column that is refused could be read, which its refusal tells. Only a refusal looks, by single entries: the walks that read carry no index
// for it.
ghost use Rattle.std.specs.Prelude.{◌≡◌, ◌≤◌, ◌<◌, length, get_or};
ghost use Rattle.answer.specs.Limits.{vertex_limit};
ghost use Rattle.answer.specs.Outcome.{refused};
ghost use Rattle.column.specs.Column.{whole};
ghost use Rattle.column.specs.Read.{end_of, held_of, decode_of};

use answer::Refusal;
use answer::table::BITS;

// How many of n values of width w the bytes hold in full, up to the first that lacks bits.
fn held(s: &[u8], n: usize, w: u64) -> usize
    requires { (w ≡ get_or s.now 0 0) × (w ≤ 64) × (0 < n) × (n ≤ vertex_limit) × (length s.now ≤ 65536) }
    ensures { (result ≡ held_of 64 s.now n) × (result ≤ n) }
{
    let room = 8 * s.len();
    if room < 72 {
        return 0;
    }
    let m = entry::marker(w);
    let mut at: usize = 72;
    for i in 1..n {
        let next = entry::entry_at(s, at, w, m, 0).next;
        if room < next {
            return i;
        }
        at = next;
    }
    n
}

// The refusal of bytes that are not as many as the entries of n values take: too few, or too many.
pub(crate) fn misfit(s: &[u8], n: usize, w: u64, took: usize) -> Refusal
    requires w_value { (w ≡ get_or s.now 0 0) × (w ≤ 64) × (0 < n) × (n ≤ vertex_limit) }
    requires s_nonzero { (0 < length s.now) × (took ≡ whole (end_of 64 s.now n)) × (took ≤ 65536) × ((took ≡ length s.now) → ⊥) }
    ensures { decode_of 64 s.now n ≡ refused result }
{
    if took < s.len() {
        return Refusal::at_value(BITS, n);
    }
    Refusal::at_value(BITS, held(s, n, w))
}
