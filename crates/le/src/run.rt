// Runs of numbers: read, put and copied, one after the other.
ghost use Rattle.std.specs.Prelude.{ℕ, ◌++◌, ◌≡◌, ◌+◌, ◌*◌, ◌≤◌, length, drop, map};
ghost use Rattle.std.proofs.lemmas.List.Edits.{sets};
ghost use Rattle.le.specs.Number.{bytes_of, numbers_at, run_of};

use crate::number::{put_u16, put_u32, u16_at};

// Fills d with numbers of two bytes each, from place at on.
pub fn read_u16s(s: &[u8], at: usize, d: &mut [u16])
    requires { at + 2 * length d.old ≤ length s.now }
    ensures { d.new ≡ numbers_at 2 (length d.old) s.now at }
{
    for i in 0..d.len() {
        d[i] = u16_at(s, at + 2 * i) as u16;
    }
}

// A number that is put as its bytes, the lowest first.
pub trait Put: Copy {
    // How many bytes it takes.
    const BYTES: usize;

    ghost BYTES: { ℕ };

    // The number that it is.
    ghost number: { Self → ℕ };

    // Puts its bytes from place at on; the rest stays.
    fn put(self, d: &mut [u8], at: usize)
        requires { at + BYTES ≤ length d.old }
        ensures { d.new ≡ sets d.old at (bytes_of BYTES (number self)) };
}

impl Put for u16 {
    const BYTES: usize = 2;

    ghost BYTES = { 2 };

    ghost number = { λ x. x };

    fn put(self, d: &mut [u8], at: usize) {
        put_u16(d, at, u64::from(self));
    }
}

impl Put for u32 {
    const BYTES: usize = 4;

    ghost BYTES = { 4 };

    ghost number = { λ x. x };

    fn put(self, d: &mut [u8], at: usize) {
        put_u32(d, at, u64::from(self));
    }
}

// Puts the numbers xs from place at on; the rest stays.
pub fn put_run<T: Put>(d: &mut [u8], at: usize, xs: &[T])
    requires { at + T.BYTES * length xs.now ≤ length d.old }
    ensures { d.new ≡ sets d.old at (run_of T.BYTES (map T.number xs.now)) }
{
    for (i, x) in xs.iter().enumerate() {
        x.put(d, at + T::BYTES * i);
    }
}

// Puts the bytes xs from place at on; the rest stays.
pub fn put_bytes(d: &mut [u8], at: usize, xs: &[u8])
    requires { at + length xs.now ≤ length d.old }
    ensures { d.new ≡ sets d.old at xs.now }
{
    // no `copy_from_slice`: it would have the archive for C ask for `memmove`
    for (i, x) in xs.iter().enumerate() {
        d[at + i] = *x;
    }
}

// Copies a list to the start of a room; the rest stays.
pub fn copy_to_start<T: Copy>(src: &[T], dst: &mut [T])
    requires { length src.now ≤ length dst.old }
    ensures { dst.new ≡ src.now ++ drop (length src.now) dst.old }
{
    dst[..src.len()].copy_from_slice(src);
}
