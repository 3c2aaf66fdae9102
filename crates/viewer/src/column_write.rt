// The column written, as one word.
ghost use Rattle.std.specs.Prelude.{length};
ghost use Rattle.column.specs.Write.{write_of};
ghost use Rattle.viewer.specs.Word.{ToldIn};

use crate::word::filled_word;
use column::write::write;

// The column of the values at the start of a room, and its number of bytes; or the refusal, which leaves the room.
pub fn boundary_column_write(values: &[u64], room: &mut [u8]) -> u64
    ensures { ToldIn (write_of 64 values.now (length room.old)) length (λ l. l) room result }
{
    filled_word(write(values, room))
}
