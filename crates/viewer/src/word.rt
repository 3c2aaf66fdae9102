// An answer as a word.
ghost use Rattle.std.specs.Prelude.{◌≡◌};
ghost use Rattle.answer.specs.Refusal.{because};
ghost use Rattle.answer.specs.Outcome.{refused};
ghost use Rattle.viewer.specs.Word.{word_of};

use answer::Refusal;

// Bits 0 to 31 the page, bits 32 to 39 the number, bits 40 and 41 the column, bits 42 to 53 the index.
pub fn refusal_word(w: Refusal) -> u64
    ensures { result ≡ word_of (refused w) }
{
    (w.index as u64) * 4398046511104
        + (w.column as u64) * 1099511627776
        + (w.number as u64) * 4294967296
        + (w.page as u64)
}

// A refusal that concerns no page, no column and no value.
pub fn number_word(number: u8) -> u64
    ensures { result ≡ word_of (refused (because number)) }
{
    refusal_word(Refusal::because(number))
}

// How many elements were put in a room, or the refusal.
pub fn filled_word(f: Result<usize, Refusal>) -> u64
    ensures { result ≡ word_of f }
{
    match f {
        Ok(n) => n as u64,
        Err(w) => refusal_word(w),
    }
}
