// A writer's state, as four words.
ghost use Rattle.std.specs.Prelude.{◌≡◌, ◌++◌, ◌≤◌, length, drop};
ghost use Rattle.viewer.specs.Word.{Told};
ghost use Rattle.viewer.specs.Four.{capped_count, state_of, flag_of, state_words};

use crate::four::put_four;
use crate::word::refusal_word;
use writer::{Stepped, Writer};

// A count of 32 bits; a word above is the greatest.
fn count_of(word: u64) -> u32
    ensures { result ≡ capped_count word }
{
    if 4294967295 < word {
        return 4294967295;
    }
    word as u32
}

// 1 for closed, 0 for open.
fn flag_of(closed: bool) -> u64
    ensures { result ≡ flag_of closed }
{
    if closed {
        return 1;
    }
    0
}

// Any four words are a state.
pub(crate) fn state_of(words: &[u64]) -> Writer
    requires { 4 ≤ length words.now }
    ensures { result ≡ state_of words.now }
{
    Writer {
        position: words[0] as usize,
        pages: count_of(words[1]),
        shapes: count_of(words[2]),
        closed: words[3] != 0,
    }
}

// The words of a state.
fn put_state(words: &mut [u64], st: Writer)
    requires { 4 ≤ length words.old }
    ensures { words.new ≡ state_words st ++ drop 4 words.old }
{
    put_four(
        words,
        st.position as u64,
        st.pages as u64,
        st.shapes as u64,
        flag_of(st.closed),
    );
}

// A step's answer as a word. Where the step was taken, its state goes in the words.
pub(crate) fn hand_back(words: &mut [u64], r: Stepped) -> u64
    requires { 4 ≤ length words.old }
    ensures { Told r.verdict (λ _. 0) (λ _. state_words r.writer) words.old result words.new }
{
    let v = r.verdict;
    match v {
        Err(w) => refusal_word(w),
        Ok(()) => {
            put_state(words, r.writer);
            0
        }
    }
}
