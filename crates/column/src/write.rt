// Writing a column: the bytes of least size, or the refusal. Size and bytes are two functions, since a page must know both columns' sizes
// before it touches its buffer.
ghost use Rattle.std.specs.Prelude.{◌≡◌, ◌+◌, ◌*◌, ◌≤◌, ◌<◌, length, get_or, drop};
ghost use Rattle.answer.specs.Limits.{vertex_limit};
ghost use Rattle.answer.specs.Outcome.{Fills};
ghost use Rattle.entry.specs.Step.{marker};
ghost use Rattle.entry.specs.Fields.{bits, put_fields};
ghost use Rattle.entry.specs.Entry.{entries};
ghost use Rattle.width.specs.Width.{width_of};
ghost use Rattle.column.specs.Column.{encode_at, encode};
ghost use Rattle.column.specs.Write.{write_of};

use crate::refused;
use answer::Refusal;
use answer::limits::MOST_VERTICES;

// The width that a column takes, and its size in bytes.
#[derive(Clone, Copy)]
pub struct Fitted {
    pub width: u64,
    pub bytes: usize,
}

// The width and the size of the column of vs.
pub fn fit(vs: &[u64]) -> Fitted
    requires { length vs.now ≤ vertex_limit }
    ensures { (result.width ≡ width_of 64 vs.now) × (result.bytes ≡ length (encode 64 vs.now)) }
{
    let c = width::choose(vs);
    if vs.len() == 0 {
        return Fitted {
            width: c.width,
            bytes: 0,
        };
    }
    Fitted {
        width: c.width,
        bytes: ((c.size + 79) / 8) as usize,
    }
}

// Puts the entries of all values after the first, from place 72 on, and gives the place after them; m is the marker of width n.
fn put_entries(part: &mut [u8], vs: &[u64], n: u64, m: u64) -> usize
    requires n_bound { (n ≤ 64) × (m ≡ marker n) × (0 < length vs.now) × (length vs.now ≤ vertex_limit) }
    requires vs_bound { 72 + bits (entries 64 n (get_or vs.now 0 0) (drop 1 vs.now)) ≤ 8 * length part.old }
    ensures entries { part.new ≡ put_fields part.old 72 (entries 64 n (get_or vs.now 0 0) (drop 1 vs.now)) }
    ensures place { result ≡ 72 + bits (entries 64 n (get_or vs.now 0 0) (drop 1 vs.now)) }
{
    let mut at: usize = 72;
    let mut a = vs[0];
    for v in &vs[1..] {
        at = entry::put_entry(part, at, n, m, a, *v);
        a = *v;
    }
    at
}

// Puts the column of vs at width n into a part of exactly its size.
pub fn put(part: &mut [u8], vs: &[u64], n: u64)
    requires { (n ≤ 64) × (length vs.now ≤ vertex_limit) × (length part.old ≡ length (encode_at 64 n vs.now)) }
    ensures { part.new ≡ encode_at 64 n vs.now }
{
    let count = vs.len();
    if count == 0 {
        return;
    }
    le::bits::put_field(part, 0, 8, n);
    le::bits::put_field(part, 8, 64, vs[0]);
    let end = put_entries(part, vs, n, entry::marker(n));
    le::bits::put_field(part, end, ((8 - end % 8) % 8) as u64, 0);
}

// The column of vs, of least size, at the start of out.
pub fn write(vs: &[u64], out: &mut [u8]) -> Result<usize, Refusal>
    ensures { Fills (write_of 64 vs.now (length out.old)) out.old result out.new }
{
    if MOST_VERTICES < vs.len() {
        return refused(answer::table::MANY);
    }
    let f = fit(vs);
    let size = f.bytes;
    if out.len() < size {
        return refused(answer::table::ROOM);
    }
    put(&mut out[..size], vs, f.width);
    Ok(size)
}
