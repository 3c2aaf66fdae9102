// The count-only search, as one word.
ghost use Rattle.std.specs.Prelude.{◌≡◌};
ghost use Rattle.answer.specs.Outcome.{on};
ghost use Rattle.query.specs.Block.{ask_of};
ghost use Rattle.search.specs.Search.{count_of};
ghost use Rattle.viewer.specs.Word.{word_of};

use crate::word::refusal_word;
use query::query_block::ask_of;
use search::count::count_good;

// The number of hits of a query, which is exactly its block; or the refusal, as for the check.
pub fn boundary_count(query: &[u8], file: &[u8]) -> u64
    ensures { result ≡ word_of (on (ask_of query.now) (λ a. count_of a file.now)) }
{
    match ask_of(query) {
        Err(w) => refusal_word(w),
        Ok(a) => match count_good(a, file) {
            Ok(n) => n as u64,
            Err(w) => refusal_word(w),
        },
    }
}
