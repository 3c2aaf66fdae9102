// A page added to a file, as one word.
ghost use Rattle.std.specs.Prelude.{length};
ghost use Rattle.pageblock.specs.Body.{handed_with};
ghost use Rattle.viewer.specs.Calls.{page_call, KeptIn};

use crate::state::{hand_back, state_of};
use crate::word::number_word;
use answer::table::ROOM;
use pageblock::lists::PageLists;

// 0, with the page's block at the state's position and the next state in the words; or the refusal, which leaves both.
pub fn boundary_page(
    writer: &mut [u64],
    buffer: &mut [u8],
    registers: &[u32],
    types: &[u8],
    counts: &[u16],
    lens: &[u16],
    xs: &[u64],
    ys: &[u64],
) -> u64
    ensures { KeptIn (page_call writer.old (length buffer.old) (handed_with registers.now types.now counts.now lens.now xs.now ys.now)) writer buffer result }
{
    if writer.len() < 4 {
        return number_word(ROOM);
    }
    let st = state_of(writer);
    let lists = PageLists {
        registers,
        types,
        counts,
        lens,
        xs,
        ys,
    };
    hand_back(writer, st.page(buffer, lists))
}
