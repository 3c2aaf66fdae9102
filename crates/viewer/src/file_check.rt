// The full check, as one word.
ghost use Rattle.std.specs.Prelude.{◌≡◌};
ghost use Rattle.answer.specs.Outcome.{ok, on};
ghost use Rattle.file.specs.Check.{check_of};
ghost use Rattle.viewer.specs.Word.{word_of};

use crate::word::refusal_word;
use file::check::check;

// The number of shapes of a sound file; or the refusal: its page in bits 0 to 31, its number in bits 32 to 39.
pub fn boundary_check(file: &[u8]) -> u64
    ensures { result ≡ word_of (on (check_of file.now) (λ t. ok t.shapes)) }
{
    match check(file) {
        Ok(t) => t.shapes as u64,
        Err(w) => refusal_word(w),
    }
}
