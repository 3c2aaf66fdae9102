// A position in a column, as four words.
ghost use Rattle.std.specs.Prelude.{◌≡◌, ◌++◌, ◌≤◌, length, drop};
ghost use Rattle.viewer.specs.Four.{position_of, position_words};

use crate::four::put_four;
use column::Position;

// Any four words are a position.
pub(crate) fn position_of(words: &[u64]) -> Position
    requires { 4 ≤ length words.now }
    ensures { result ≡ position_of words.now }
{
    Position {
        at: words[0] as usize,
        given: words[1] as usize,
        width: words[2],
        last: words[3],
    }
}

// The words of a position.
pub(crate) fn put_position(words: &mut [u64], p: Position)
    requires { 4 ≤ length words.old }
    ensures { words.new ≡ position_words p ++ drop 4 words.old }
{
    put_four(words, p.at as u64, p.given as u64, p.width, p.last);
}
