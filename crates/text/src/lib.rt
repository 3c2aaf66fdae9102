// Text, put piece by piece into a room that the caller writes out: words and numbers at any place, and the programs' lines as chains of them.
#![tactic(auto)]

ghost use Rattle.std.specs.Prelude.{◌+◌, ◌≤◌, [], ◌∷◌, length};
ghost use Rattle.text.specs.Pieces.{Puts, words, number};

use le::run::put_bytes;

pub mod lines;

// Puts words: where the next thing goes.
pub fn put_words(out: &mut [u8], at: usize, letters: &[u8]) -> usize
    requires { at + length letters.now ≤ length out.old }
    ensures puts { Puts out.old at (words letters.now ∷ []) result out.new }
    ensures upper_bound { result ≤ at + length letters.now }
{
    put_bytes(out, at, letters);
    at + letters.len()
}

// Puts a number in decimal, which takes at most 20 bytes: where the next thing goes.
pub fn put_number(out: &mut [u8], at: usize, n: u64) -> usize
    requires { at + 20 ≤ length out.old }
    ensures puts { Puts out.old at (number n ∷ []) result out.new }
    ensures upper_bound { result ≤ at + 20 }
{
    let mut digits = [0u8; 20];
    let k = io::decimal(n, &mut digits);
    put_bytes(out, at, &digits[..k]);
    at + k
}
