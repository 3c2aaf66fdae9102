// The column read, as one word.
ghost use Rattle.std.specs.Prelude.{length};
ghost use Rattle.column.specs.Read.{read_of};
ghost use Rattle.viewer.specs.Word.{ToldIn};

use crate::word::filled_word;
use column::read::read;

// The n values of a column at the start of a room, and n; or the refusal, which leaves the room.
pub fn boundary_column_read(column: &[u8], n: usize, room: &mut [u64]) -> u64
    ensures { ToldIn (read_of 64 column.now n (length room.old)) length (λ l. l) room result }
{
    filled_word(read(column, n, room))
}
