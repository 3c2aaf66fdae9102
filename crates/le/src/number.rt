// Numbers of a few bytes, read and written anywhere in a slice. All numbers are little-endian: the first byte is the lowest.
ghost use Rattle.std.specs.Prelude.{◌≡◌, ◌+◌, ◌*◌, ◌%◌, ◌^◌, ◌≤◌, ◌<◌, length};
ghost use Rattle.std.proofs.lemmas.List.Edits.{sets};
ghost use Rattle.le.specs.Number.{number_at, bytes_of};

// A byte as a wider number.
pub fn wide(x: u8) -> u64
    ensures { result ≡ x }
{
    x as u64
}

// The lowest byte.
pub fn low(x: u64) -> u8
    ensures { result ≡ x % 256 }
{
    (x % 256) as u8
}

// Two bytes as a number, the first lowest.
fn two(b0: u8, b1: u8) -> usize
    ensures { result ≡ b1 * 2 ^ 8 + b0 }
{
    (b1 as usize) * 0x100 + (b0 as usize)
}

// The number of the two bytes from place at on.
pub fn u16_at(s: &[u8], at: usize) -> usize
    requires { at + 2 ≤ length s.now }
    ensures { (result ≡ number_at 2 s.now at) × (result < 65536) }
{
    two(s[at], s[at + 1])
}

// The number of the four bytes from place at on: two and two, the lower first.
pub fn u32_at(s: &[u8], at: usize) -> usize
    requires { at + 4 ≤ length s.now }
    ensures { (result ≡ number_at 4 s.now at) × (result < 4294967296) }
{
    u16_at(s, at) + u16_at(s, at + 2) * 0x1_0000
}

// The number of the eight bytes from place at on: four and four, the lower first, which the compiler makes one load on each machine. (With the higher
// first it makes eight on Arm.)
pub fn u64_at(s: &[u8], at: usize) -> u64
    requires { at + 8 ≤ length s.now }
    ensures { result ≡ number_at 8 s.now at }
{
    (u32_at(s, at) as u64) + (u32_at(s, at + 4) as u64) * 0x1_0000_0000
}

// Puts the two low bytes of x from place at on; the rest stays.
pub fn put_u16(d: &mut [u8], at: usize, x: u64)
    requires { at + 2 ≤ length d.old }
    ensures { d.new ≡ sets d.old at (bytes_of 2 x) }
{
    d[at] = low(x);
    d[at + 1] = low(x >> 8);
}

// Puts the four low bytes of x from place at on; the rest stays.
pub fn put_u32(d: &mut [u8], at: usize, x: u64)
    requires { at + 4 ≤ length d.old }
    ensures { d.new ≡ sets d.old at (bytes_of 4 x) }
{
    put_u16(d, at, x);
    put_u16(d, at + 2, x >> 16);
}

// Puts the eight bytes of x from place at on; the rest stays.
pub fn put_u64(d: &mut [u8], at: usize, x: u64)
    requires { at + 8 ≤ length d.old }
    ensures { d.new ≡ sets d.old at (bytes_of 8 x) }
{
    put_u32(d, at, x);
    put_u32(d, at + 4, x >> 32);
}
