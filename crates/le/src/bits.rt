// Bit fields of a slice, read and written word by word. Bit k of the slice is bit k mod 8 of byte k / 8, lowest first, so the slice is one
// number; past its end bits read as 0.
ghost use Rattle.std.specs.Prelude.{◌≡◌, ℕ, ◌+◌, ◌-◌, ◌*◌, ◌/◌, ◌%◌, ◌^◌, ◌≤◌, ◌<◌, length};
ghost use Rattle.std.proofs.lemmas.List.Edits.{sets};
ghost use Rattle.le.specs.Number.{number, bytes_of, field};
ghost use Rattle.le.specs.Put.{put_field};

use crate::number::{low, put_u64, u64_at, wide};

// The w low bits of x.
fn mask(x: u64, w: u64) -> u64
    requires { w ≤ 64 }
    ensures { result ≡ x % 2 ^ w }
{
    if w == 0 {
        return 0;
    }
    let k = 64 - w;
    (x << k) >> k
}

// The bits from byte i on, where fewer than 8 bytes are left of 8 or more: what is left of the last word.
fn last(s: &[u8], i: usize) -> u64
    requires { (8 ≤ length s.now) × (i < length s.now) × (length s.now < i + 8) }
    ensures { result ≡ number s.now / 2 ^ (8 * i) % 2 ^ 64 }
{
    let from = s.len() - 8;
    let k = ((i - from) * 8) as u64;
    u64_at(s, from) >> k
}

// The bits from byte i on, where fewer than 8 bytes are left.
fn tail(s: &[u8], i: usize) -> u64
    requires { length s.now < i + 8 }
    ensures { result ≡ number s.now / 2 ^ (8 * i) % 2 ^ 64 }
{
    let n = s.len();
    if n <= i {
        return 0;
    }
    if 8 <= n {
        return last(s, i);
    }
    let mut acc: u64 = 0;
    for e in (i..n).rev() {
        acc = acc * 256 + wide(s[e]);
    }
    acc
}

// The 64 bits from byte i on; past the end they are 0.
fn load(s: &[u8], i: usize) -> u64
    requires { i < 2 ^ 62 }
    ensures { result ≡ number s.now / 2 ^ (8 * i) % 2 ^ 64 }
{
    if i + 8 <= s.len() {
        u64_at(s, i)
    } else {
        tail(s, i)
    }
}

// The byte at i, 0 past the end.
fn byte(s: &[u8], i: usize) -> u64
    ensures { result ≡ number s.now / 2 ^ (8 * i) % 2 ^ 8 }
{
    if i < s.len() { wide(s[i]) } else { 0 }
}

// The 64 bits from bit place at on; past the end they are 0.
pub fn window(s: &[u8], at: usize) -> u64
    ensures { result ≡ field (number s.now) at 64 }
{
    let i = at / 8;
    let k = (at % 8) as u64;
    let lo = load(s, i);
    if k == 0 {
        return lo;
    }
    let hi = byte(s, i + 8);
    (hi << (64 - k)) | (lo >> k)
}

// The bits from bit place at on, where the place lies in the last byte or right behind it: what the window gives there, from that byte alone.
pub fn window_in_last_byte(s: &[u8], at: usize) -> u64
    requires { (0 < length s.now) × ((at + 7) / 8 ≡ length s.now) }
    ensures { result ≡ field (number s.now) at 64 }
{
    let i = s.len() - 1;
    wide(s[i]) >> ((at - 8 * i) as u64)
}

// The field of w bits at bit place at; past the end its bits are 0. Up to 56 bits lie in the eight bytes that begin at its first byte.
pub fn field(s: &[u8], at: usize, w: u64) -> u64
    requires { w ≤ 64 }
    ensures { result ≡ field (number s.now) at w }
{
    if w <= 56 {
        let k = (at % 8) as u64;
        return mask(load(s, at / 8) >> k, w);
    }
    mask(window(s, at), w)
}

// The window where its nine bytes are there.
pub fn window_within(s: &[u8], at: usize) -> u64
    requires { at / 8 + 9 ≤ length s.now }
    ensures { result ≡ field (number s.now) at 64 }
{
    let i = at / 8;
    let k = (at % 8) as u64;
    let hi = wide(s[i + 8]) * 2;
    (hi << (63 - k)) | (u64_at(s, i) >> k)
}

// The field where its nine bytes are there; m is w ones.
pub fn field_within(s: &[u8], at: usize, w: u64, m: u64) -> u64
    requires { (w ≤ 64) × (m ≡ 2 ^ w - 1) × (at / 8 + 9 ≤ length s.now) }
    ensures { result ≡ field (number s.now) at w }
{
    if w <= 56 {
        let k = (at % 8) as u64;
        return (u64_at(s, at / 8) >> k) & m;
    }
    window_within(s, at) & m
}

// The field at a place in the last eight bytes, by the mask of its width. Past the end its bits are 0.
pub fn field_in_last_eight(s: &[u8], at: usize, m: u64) -> u64
    requires { (8 ≤ length s.now) × (8 * (length s.now - 8) ≤ at) × (at < 8 * length s.now) }
    ensures { (w : ℕ) → m ≡ 2 ^ w - 1 → result ≡ field (number s.now) at w }
{
    let from = s.len() - 8;
    (u64_at(s, from) >> ((at - 8 * from) as u64)) & m
}

// Puts the bytes of x from i to the end, of which there are at most eight.
fn store_tail(s: &mut [u8], i: usize, x: u64)
    requires { (i ≤ length s.old) × (length s.old ≤ i + 8) }
    ensures { s.new ≡ sets s.old i (bytes_of 8 x) }
{
    let mut y = x;
    for b in s[i..].iter_mut() {
        *b = low(y);
        y = y >> 8;
    }
}

// What is left of v above 64 - k bits, k below 8.
fn top(v: u64, k: u64) -> u8
    requires { k < 8 }
    ensures { result ≡ v / 2 ^ (64 - k) }
{
    if k == 0 {
        return 0;
    }
    low(v >> (64 - k))
}

// Puts v in the w bits from place at on; the bits above them, to the end of the ninth byte from the place's own, become zero.
pub fn put_field(s: &mut [u8], at: usize, w: u64, v: u64)
    requires { (w ≤ 64) × (v < 2 ^ w) × (at + w ≤ 8 * length s.old) }
    ensures { s.new ≡ put_field s.old at v }
{
    let i = at / 8;
    let k = (at % 8) as u64;
    let keep = mask(byte(s, i), k);
    let lo = (v << k) | keep;
    if i + 9 <= s.len() {
        put_u64(s, i, lo);
        s[i + 8] = top(v, k);
    } else {
        store_tail(s, i, lo);
    }
}
