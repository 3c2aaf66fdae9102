// Reading a column: N values of its bytes, or the refusal.
ghost use Rattle.std.specs.Prelude.{◌≡◌, [], ◌∷◌, ◌++◌, ◌≤◌, ◌<◌, length, take, drop, get_or};
ghost use Rattle.answer.specs.Limits.{vertex_limit};
ghost use Rattle.answer.specs.Outcome.{Fills};
ghost use Rattle.le.specs.Number.{number, field};
ghost use Rattle.column.specs.Read.{said_by, end_of, decode_of, read_of, Decodes};

use crate::held::misfit;
use crate::walk::fill;
use crate::{refused, refused_at};
use answer::Refusal;
use answer::limits::MOST_VERTICES;
use entry::Given;

// The n values of a column into a scratch of the caller's own, in one walk. A refusal by 9 or 10 too leaves there what the entries said.
pub fn decode(s: &[u8], n: usize, out: &mut [u64]) -> Result<usize, Refusal>
    requires { (n ≤ vertex_limit) × (n ≤ length out.old) }
    ensures { Decodes 64 s.now n out.old result out.new }
{
    let len = s.len();
    if n == 0 {
        if len == 0 {
            return Ok(0);
        }
        return refused(answer::table::BITS);
    }
    if len == 0 {
        return refused(answer::table::BITS);
    }
    let w = le::number::wide(s[0]);
    if 64 < w {
        return refused(answer::table::WIDTH);
    }
    let e = fill(s, n, w, out);
    let took = (e + 7) / 8;
    if took != len {
        return Err(misfit(s, n, w, took));
    }
    if le::bits::window_in_last_byte(s, e) != 0 {
        return refused_at(answer::table::FILL, n);
    }
    Ok(n)
}

// The first n of src into the start of dst.
fn copy(src: &[u64], n: usize, dst: &mut [u64])
    requires { (n ≤ length src.now) × (n ≤ length dst.old) }
    ensures { dst.new ≡ take n src.now ++ drop n dst.old }
{
    le::run::copy_to_start(&src[..n], dst);
}

// Decodes through a scratch, so that a refusal leaves out as it was.
fn through(s: &[u8], n: usize, scratch: &mut [u64], out: &mut [u64]) -> Result<usize, Refusal>
    requires { (n ≤ vertex_limit) × (n ≤ length scratch.old) × (n ≤ length out.old) }
    ensures { Fills (decode_of 64 s.now n) out.old result out.new }
{
    // no `?`: the answer would go through memory piece by piece, and reading a few values took up to four times as long
    match decode(s, n, scratch) {
        Ok(k) => {
            copy(scratch, n, out);
            Ok(k)
        }
        Err(w) => Err(w),
    }
}

// Where the entries of one or two values end, and the second value; a is the first.
fn second(s: &[u8], n: usize, w: u64, a: u64) -> Given
    requires { (w ≡ get_or s.now 0 0) × (w ≤ 64) × (a ≡ field (number s.now) 8 64) × (0 < n) × (n ≤ 2) }
    ensures { (result.next ≡ end_of 64 s.now n) × (said_by 64 s.now n ≡ take n (a ∷ result.value ∷ [])) × (result.next ≤ 200) }
{
    if n == 1 {
        return Given { value: a, next: 72 };
    }
    entry::entry_at(s, 72, w, entry::marker(w), a)
}

// Reads one or two values with no scratch: all is known of them before the room is touched.
fn read_pair(s: &[u8], n: usize, out: &mut [u64]) -> Result<usize, Refusal>
    requires { (0 < n) × (n ≤ 2) × (n ≤ length out.old) }
    ensures { Fills (decode_of 64 s.now n) out.old result out.new }
{
    let len = s.len();
    if len == 0 {
        return refused(answer::table::BITS);
    }
    let w = le::number::wide(s[0]);
    if 64 < w {
        return refused(answer::table::WIDTH);
    }
    let a = le::bits::window(s, 8);
    let e = second(s, n, w, a);
    let end = e.next;
    let took = (end + 7) / 8;
    if took != len {
        return Err(misfit(s, n, w, took));
    }
    if le::bits::window_in_last_byte(s, end) != 0 {
        return refused_at(answer::table::FILL, n);
    }
    out[0] = a;
    if n == 1 {
        return Ok(1);
    }
    out[1] = e.value;
    Ok(2)
}

// Decodes through a scratch of M values, no more than there can be.
fn through_sized<const M: usize>(s: &[u8], n: usize, out: &mut [u64]) -> Result<usize, Refusal>
    requires { (n ≤ M) × (M ≤ vertex_limit) × (n ≤ length out.old) }
    ensures { Fills (decode_of 64 s.now n) out.old result out.new }
{
    let mut own = [0u64; M];
    through(s, n, &mut own, out)
}

// Reads through a scratch that is as long as it need be, or through none: clearing 16 KiB for 200 values would cost more than reading them.
fn through_own(s: &[u8], n: usize, out: &mut [u64]) -> Result<usize, Refusal>
    requires { (n ≤ vertex_limit) × (n ≤ length out.old) }
    ensures { Fills (decode_of 64 s.now n) out.old result out.new }
{
    if n == 0 {
        return through_sized::<32>(s, n, out);
    }
    if n <= 2 {
        return read_pair(s, n, out);
    }
    if n <= 32 {
        return through_sized::<32>(s, n, out);
    }
    if n <= 128 {
        return through_sized::<128>(s, n, out);
    }
    if n <= 512 {
        return through_sized::<512>(s, n, out);
    }
    through_sized::<MOST_VERTICES>(s, n, out)
}

// The n values of a column into the start of out.
pub fn read(s: &[u8], n: usize, out: &mut [u64]) -> Result<usize, Refusal>
    ensures { Fills (read_of 64 s.now n (length out.old)) out.old result out.new }
{
    if MOST_VERTICES < n {
        return refused(answer::table::MANY);
    }
    if out.len() < n {
        return refused(answer::table::ROOM);
    }
    through_own(s, n, out)
}
