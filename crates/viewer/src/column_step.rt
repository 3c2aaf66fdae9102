// One value of a column, as one word.
ghost use Rattle.viewer.specs.Word.{ToldIn};
ghost use Rattle.viewer.specs.Calls.{step_call, gives, moves};

use crate::position::{position_of, put_position};
use crate::word::{number_word, refusal_word};
use answer::table::ROOM;
use reader::answer_at;
use step::Answer;

// 1 with a value: the words are then the next position, whose last value it is. 0 at the end, or the refusal; the words are then as they came.
pub fn boundary_column_step(column: &[u8], n: usize, position: &mut [u64]) -> u64
    ensures { ToldIn (step_call column.now n position.old) gives moves position result }
{
    if position.len() < 4 {
        return number_word(ROOM);
    }
    let p = position_of(position);
    match answer_at(column, n, p) {
        Answer::Refused(w, _) => refusal_word(w),
        Answer::End(_) => 0,
        Answer::Value(_, q) => {
            put_position(position, q);
            1
        }
    }
}
