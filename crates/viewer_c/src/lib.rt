// The C face as C sees it: the exports of `viewer`'s calls, under the names of include/boundary.h. Each calls the library's own and promises the same.
#![tactic(auto)]

ghost use Rattle.std.specs.Prelude.{◌≡◌, length};
ghost use Rattle.answer.specs.Outcome.{ok, on};
ghost use Rattle.column.specs.Read.{read_of};
ghost use Rattle.column.specs.Write.{write_of};
ghost use Rattle.query.specs.Block.{ask_of};
ghost use Rattle.file.specs.Check.{check_of};
ghost use Rattle.search.specs.Search.{count_of};
ghost use Rattle.fetch.specs.Fetch.{rooms_of};
ghost use Rattle.pageblock.specs.Body.{handed_with};
ghost use Rattle.viewer.specs.Word.{word_of, ToldIn};
ghost use Rattle.viewer.specs.Fetch.{fetch_call, ShownIn};
ghost use Rattle.viewer.specs.Calls.{search_call, step_call, gives, moves, open_call, page_call, close_call, KeptIn};

// The number of shapes of a sound file; or the refusal: its page in bits 0 to 31, its number in bits 32 to 39.
#[unsafe(no_mangle)]
pub extern "C" fn boundary_check(file: &[u8]) -> u64
    ensures { result ≡ word_of (on (check_of file.now) (λ t. ok t.shapes)) }
{
    viewer::file_check::boundary_check(file)
}

// The number of hits of a query, which is exactly its block; or the refusal, as for the check.
#[unsafe(no_mangle)]
pub extern "C" fn boundary_count(query: &[u8], file: &[u8]) -> u64
    ensures { result ≡ word_of (on (ask_of query.now) (λ a. count_of a file.now)) }
{
    viewer::file_count::boundary_count(query, file)
}

// The places of the hits at the start of a room, ascending, and their number; or the refusal, which leaves the room. The query is exactly its block.
#[unsafe(no_mangle)]
pub extern "C" fn boundary_search(query: &[u8], file: &[u8], places: &mut [u32]) -> u64
    ensures { ToldIn (search_call query.now file.now (length places.old)) length (λ l. l) places result }
{
    viewer::file_search::boundary_search(query, file, places)
}

// The number of vertices of the shape at a place, with the words about it, its part lengths and its patterns at the start of the four rooms; or the
// refusal, which leaves them.
#[unsafe(no_mangle)]
pub extern "C" fn boundary_fetch(
    file: &[u8],
    place: u64,
    about: &mut [u64],
    lens: &mut [u16],
    xs: &mut [u64],
    ys: &mut [u64],
) -> u64
    ensures { ShownIn (fetch_call file.now place (length about.old) (rooms_of lens.old xs.old ys.old)) about lens xs ys result }
{
    viewer::file_fetch::boundary_fetch(file, place, about, lens, xs, ys)
}

// The n values of a column at the start of a room, and n; or the refusal, which leaves the room.
#[unsafe(no_mangle)]
pub extern "C" fn boundary_column_read(column: &[u8], n: usize, room: &mut [u64]) -> u64
    ensures { ToldIn (read_of 64 column.now n (length room.old)) length (λ l. l) room result }
{
    viewer::column_read::boundary_column_read(column, n, room)
}

// 1 with a value: the words are then the next position, whose last value it is. 0 at the end, or the refusal; the words are then as they came.
#[unsafe(no_mangle)]
pub extern "C" fn boundary_column_step(column: &[u8], n: usize, position: &mut [u64]) -> u64
    ensures { ToldIn (step_call column.now n position.old) gives moves position result }
{
    viewer::column_step::boundary_column_step(column, n, position)
}

// The column of the values at the start of a room, and its number of bytes; or the refusal, which leaves the room.
#[unsafe(no_mangle)]
pub extern "C" fn boundary_column_write(values: &[u64], room: &mut [u8]) -> u64
    ensures { ToldIn (write_of 64 values.now (length room.old)) length (λ l. l) room result }
{
    viewer::column_write::boundary_column_write(values, room)
}

// 0, with the first block in the buffer and a state of no pages in the words; or the refusal, which leaves both. Of the state that comes in nothing
// is used.
#[unsafe(no_mangle)]
pub extern "C" fn boundary_open(writer: &mut [u64], buffer: &mut [u8]) -> u64
    ensures { KeptIn (open_call writer.old (length buffer.old)) writer buffer result }
{
    viewer::writer_open::boundary_open(writer, buffer)
}

// 0, with the page's block at the state's position and the next state in the words; or the refusal, which leaves both.
#[unsafe(no_mangle)]
pub extern "C" fn boundary_page(
    writer: &mut [u64],
    buffer: &mut [u8],
    registers: &[u32],
    types: &[u8],
    counts: &[u16],
    lens: &[u16],
    xs: &[u64],
    ys: &[u64],
) -> u64
    ensures { KeptIn (page_call writer.old (length buffer.old) (handed_with registers.now types.now counts.now lens.now xs.now ys.now)) writer buffer result }
{
    viewer::writer_page::boundary_page(writer, buffer, registers, types, counts, lens, xs, ys)
}

// 0, with the end block at the state's position and a closed state in the words; or the refusal, which leaves both.
#[unsafe(no_mangle)]
pub extern "C" fn boundary_close(writer: &mut [u64], buffer: &mut [u8]) -> u64
    ensures { KeptIn (close_call writer.old (length buffer.old)) writer buffer result }
{
    viewer::writer_close::boundary_close(writer, buffer)
}
