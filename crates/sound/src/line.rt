// The line for the bytes of a file: the size is judged first (3), then the full check.
ghost use Rattle.std.specs.Prelude.{◌≡◌};
ghost use Rattle.io.specs.Counts.{IsPrefixLen};
ghost use Rattle.text.specs.Pieces.{Puts};
ghost use Rattle.sound.specs.Sound.{judged_of, sound_of};

use answer::Refusal;
use answer::limits::MOST_INPUT;
use answer::table::MANY;
use file::check::check;
use frame::walk::Totals;
use text::lines::{put_refused, put_sound};

// 3 for over 40,960 bytes, else the full check.
fn judged(input: &[u8]) -> Result<Totals, Refusal>
    ensures { result ≡ judged_of input.now }
{
    if MOST_INPUT < input.len() {
        return Err(Refusal::because(MANY));
    }
    check(input)
}

// Puts the line for an input: where the next thing goes.
pub fn put_line(input: &[u8], out: &mut [u8; 96]) -> usize
    ensures puts { Puts out.old 0 (sound_of input.now) result out.new }
    ensures prefix_len { IsPrefixLen result out.new }
{
    match judged(input) {
        Ok(t) => put_sound(out, 0, t.pages, t.shapes),
        Err(w) => put_refused(out, 0, w),
    }
}
