// The search, as one word.
ghost use Rattle.std.specs.Prelude.{length};
ghost use Rattle.viewer.specs.Word.{ToldIn};
ghost use Rattle.viewer.specs.Calls.{search_call};

use crate::word::{filled_word, refusal_word};
use query::query_block::ask_of;
use search::search::search_good;

// The places of the hits at the start of a room, ascending, and their number; or the refusal, which leaves the room. The query is exactly its block.
pub fn boundary_search(query: &[u8], file: &[u8], places: &mut [u32]) -> u64
    ensures { ToldIn (search_call query.now file.now (length places.old)) length (λ l. l) places result }
{
    match ask_of(query) {
        Err(w) => refusal_word(w),
        Ok(a) => filled_word(search_good(a, file, places)),
    }
}
