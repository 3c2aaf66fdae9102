// One entry of a column: the step from one value to the next, or the value in full.
#![tactic(auto)]

ghost use Rattle.std.specs.Prelude.{◌≡◌, ◌+◌, ◌*◌, ◌/◌, ◌%◌, ◌^◌, ◌<◌, ◌≤◌, length};
ghost use Rattle.le.specs.Number.{number};
ghost use Rattle.entry.specs.Step.{z_of, unzigzag, marker};
ghost use Rattle.entry.specs.Fields.{bits, put_fields};
ghost use Rattle.entry.specs.Entry.{entry_of, size_at, value_at};

// The marker of width n, 2^n - 1: 0 at width 0, where a shift by 64 would not do.
pub fn marker(n: u64) -> u64
    requires { n ≤ 64 }
    ensures { result ≡ marker n }
{
    if n == 0 {
        return 0;
    }
    u64::MAX >> (64 - n)
}

// The zigzag of the step from a to v, the difference of the two patterns wrapped at 64 bits.
pub fn zigzag(a: u64, v: u64) -> u64
    ensures { result ≡ z_of 64 a v }
{
    let d = std::num::wrapping_sub_u64(v, a);
    if d < 0x8000_0000_0000_0000 {
        d * 2
    } else {
        (u64::MAX - d) * 2 + 1
    }
}

// The wrapped step of a zigzag.
fn unzigzag(z: u64) -> u64
    ensures { result ≡ unzigzag 64 z }
{
    if z % 2 == 0 { z / 2 } else { u64::MAX - z / 2 }
}

// The value that a step says after the value a; z is its zigzag.
pub fn stepped(a: u64, z: u64) -> u64
    ensures { result ≡ (a + unzigzag 64 z) % 2 ^ 64 }
{
    std::num::wrapping_add_u64(a, unzigzag(z))
}

// What an entry gives: its value, and the place after it.
#[derive(Clone, Copy)]
pub struct Given {
    pub value: u64,
    pub next: usize,
}

// The entry at a place, after the value a; m is the marker of width n. Past the end of s bits are 0.
pub fn entry_at(s: &[u8], at: usize, n: u64, m: u64, a: u64) -> Given
    requires { (n ≤ 64) × (m ≡ marker n) × (at + size_at 64 (number s.now) n at < 2 ^ 64) }
    ensures { (result.value ≡ value_at 64 (number s.now) n at a) × (result.next ≡ at + size_at 64 (number s.now) n at) }
{
    let e = le::bits::field(s, at, n);
    let p = at + (n as usize);
    if e < m {
        Given {
            value: stepped(a, e),
            next: p,
        }
    } else {
        Given {
            value: le::bits::window(s, p),
            next: p + 64,
        }
    }
}

// The same without a test for the end, where 17 bytes stand from the entry's first one on: an entry reaches no further.
// It stands beside the one above and shares no body with it: the full value is read only where it is stored, so a shared body would take that read as a
// closure, which is no plainer.
pub fn entry_inside(s: &[u8], at: usize, n: u64, m: u64, a: u64) -> Given
    requires { (n ≤ 64) × (m ≡ marker n) × (at < 2 ^ 62) × (at / 8 + 17 ≤ length s.now) }
    ensures { (result.value ≡ value_at 64 (number s.now) n at a) × (result.next ≡ at + size_at 64 (number s.now) n at) }
{
    let e = le::bits::field_within(s, at, n, m);
    let p = at + (n as usize);
    if e < m {
        Given {
            value: stepped(a, e),
            next: p,
        }
    } else {
        Given {
            value: le::bits::window_within(s, p),
            next: p + 64,
        }
    }
}

// Writes the entry of v after a at a place, and gives the place after it; m is the marker of width n.
pub fn put_entry(s: &mut [u8], at: usize, n: u64, m: u64, a: u64, v: u64) -> usize
    requires { (n ≤ 64) × (m ≡ marker n) × (at + bits (entry_of 64 n a v) ≤ 8 * length s.old) × (at < 2 ^ 62) }
    ensures { (s.new ≡ put_fields s.old at (entry_of 64 n a v)) × (result ≡ at + bits (entry_of 64 n a v)) }
{
    let z = zigzag(a, v);
    let p = at + (n as usize);
    if z < m {
        le::bits::put_field(s, at, n, z);
        p
    } else {
        le::bits::put_field(s, at, n, m);
        le::bits::put_field(s, p, 64, v);
        p + 64
    }
}
