// A file closed, as one word.
ghost use Rattle.std.specs.Prelude.{length};
ghost use Rattle.viewer.specs.Calls.{close_call, KeptIn};

use crate::state::{hand_back, state_of};
use crate::word::number_word;
use answer::table::ROOM;

// 0, with the end block at the state's position and a closed state in the words; or the refusal, which leaves both.
pub fn boundary_close(writer: &mut [u64], buffer: &mut [u8]) -> u64
    ensures { KeptIn (close_call writer.old (length buffer.old)) writer buffer result }
{
    if writer.len() < 4 {
        return number_word(ROOM);
    }
    let st = state_of(writer);
    hand_back(writer, st.close(buffer))
}
