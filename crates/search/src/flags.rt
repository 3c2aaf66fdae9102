// A bit for each place: bit k mod 8 of byte k / 8 is that of place k, so that the flags are one number.
ghost use Rattle.std.specs.Prelude.{◌≡◌, ◌+◌, ◌^◌, ◌≤◌, ◌<◌, eqb, length};
ghost use Rattle.std.proofs.lemmas.List.Edits.{sets};
ghost use Rattle.answer.specs.Limits.{most_shapes};
ghost use Rattle.le.specs.Number.{number};
ghost use Rattle.search.specs.Flags.{places_in, only_if, only_place, Adds};

use le::bits::window;
use le::number::{low, wide};

// Sets the bit of a place, if the flags reach that far.
fn mark(flags: &mut [u8], place: usize)
    ensures { Adds flags.old flags.new place (place + 1) (2 ^ place) }
{
    let i = place / 8;
    let k = (place % 8) as u64;
    if i < flags.len() {
        let one: u64 = 1;
        let held = wide(flags[i]);
        flags[i] = low((one << k) | held);
    }
}

// Notes a hit at a place, or none: how many that is.
pub fn note(hit: bool, place: usize, flags: &mut [u8]) -> usize
    ensures { (result ≤ 1) × (result ≡ only_if hit 1) × Adds flags.old flags.new place (place + 1) (only_if hit (2 ^ place)) }
{
    if hit {
        mark(flags, place);
        return 1;
    }
    0
}

// Lists a place, if its bit is set: where the next one goes.
fn list_bit(bit: u64, place: usize, out: &mut [u32], at: usize) -> usize
    requires { (place < 2 ^ 32) × (at + length (only_place (eqb bit 1) place) ≤ length out.old) }
    ensures { (result ≡ at + length (only_place (eqb bit 1) place)) × (out.new ≡ sets out.old at (only_place (eqb bit 1) place)) }
{
    if bit == 1 {
        out[at] = place as u32;
        return at + 1;
    }
    at
}

// Lists the places of a word's bits, the lowest of which is that of place n: where the next one goes.
fn list_word(x: u64, n: usize, out: &mut [u32], at: usize) -> usize
    requires { (n + 64 ≤ most_shapes) × (at + length (places_in n 64 x) ≤ length out.old) }
    ensures { (result ≡ at + length (places_in n 64 x)) × (out.new ≡ sets out.old at (places_in n 64 x)) }
{
    // By places it would be `for place in n..n + 64` with a test that leaves it where no bit is left: a second way out, and no plainer.
    let mut y = x;
    let mut place = n;
    let mut k = at;
    while y != 0 {
        k = list_bit(y % 2, place, out, k);
        y = y / 2;
        place += 1;
    }
    k
}

// Lists the places of flags, of which there are n.
pub(crate) fn list_flags(flags: &[u8], n: usize, out: &mut [u32])
    requires { (n ≡ length (places_in 0 most_shapes (number flags.now))) × (n ≤ length out.old) }
    ensures { out.new ≡ sets out.old 0 (places_in 0 most_shapes (number flags.now)) }
{
    // It goes by what is left to list, and not by the words: a `for` over their places would want a test that leaves it, and be no plainer.
    let mut k: usize = 0;
    let mut place: usize = 0;
    while k < n {
        k = list_word(window(flags, place), place, out, k);
        place += 64;
    }
}
