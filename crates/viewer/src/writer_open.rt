// The file writer opened, as one word. It and `boundary_close` differ in the step alone; C knows each by its name.
ghost use Rattle.std.specs.Prelude.{length};
ghost use Rattle.viewer.specs.Calls.{open_call, KeptIn};

use crate::state::{hand_back, state_of};
use crate::word::number_word;
use answer::table::ROOM;

// 0, with the first block in the buffer and a state of no pages in the words; or the refusal, which leaves both. Of the state that comes in nothing
// is used.
pub fn boundary_open(writer: &mut [u64], buffer: &mut [u8]) -> u64
    ensures { KeptIn (open_call writer.old (length buffer.old)) writer buffer result }
{
    if writer.len() < 4 {
        return number_word(ROOM);
    }
    let st = state_of(writer);
    hand_back(writer, st.open(buffer))
}
