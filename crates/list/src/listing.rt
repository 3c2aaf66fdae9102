// What an input lists: its query block's form (1) is judged first, then the file's size (3), then the order is that of the search.
ghost use Rattle.std.specs.Prelude.{◌≡◌, true, ◌≤◌, length, take};
ghost use Rattle.answer.specs.Lent.{came, left};
ghost use Rattle.answer.specs.Outcome.{ok};
ghost use Rattle.query.specs.Ask.{good_query};
ghost use Rattle.query.specs.Block.{block_len};
ghost use Rattle.list.specs.Listing.{listing_at, listing_for, listing_behind, listing_of, Rooms, Lists};

use answer::Refusal;
use answer::limits::MOST_INPUT;
use answer::table::MANY;
use frame::walk::frame;
use place::rows::rows;
use query::ask::Ask;
use query::query_block::{ask_of, block_len};
use search::search::search_good;

// How many hits, whose places, registers and types stand at the start of the three rooms, and how many shapes the file has in all.
#[derive(Clone, Copy)]
pub struct Rows {
    pub hits: usize,
    pub shapes: usize,
}

// Lists the first n places of a room, which are hits of a file: the registers and types there, and how many shapes the file has in all.
fn list_places(
    file: &[u8],
    n: usize,
    places: &[u32],
    registers: &mut [u32],
    types: &mut [u8],
) -> Result<Rows, Refusal>
    requires n_in_bounds { n ≤ length places.now }
    requires n_in_bounds_2 { n ≤ length registers.old }
    requires n_in_bounds_3 { n ≤ length types.old }
    ensures { Lists (listing_at (came file) (take n (came places))) result (came places) (left registers) (left types) }
{
    rows(file, &places[..n], registers, types)?;
    let totals = frame(file)?;
    Ok(Rows {
        hits: n,
        shapes: totals.shapes,
    })
}

// Lists what a good query hits in a file.
fn list_hits(
    a: Ask,
    file: &[u8],
    places: &mut [u32],
    registers: &mut [u32],
    types: &mut [u8],
) -> Result<Rows, Refusal>
    requires query_value { good_query a.query ≡ true }
    requires rooms { Rooms places.old registers.old types.old }
    ensures { Lists (listing_for a (came file)) result (left places) (left registers) (left types) }
{
    let n = search_good(a, file, places)?;
    list_places(file, n, places, registers, types)
}

// Lists what an input asks, whose query block takes so many bytes.
fn list_behind(
    input: &[u8],
    len: usize,
    places: &mut [u32],
    registers: &mut [u32],
    types: &mut [u8],
) -> Result<Rows, Refusal>
    requires input_value { block_len input.now ≡ ok len }
    requires rooms { Rooms places.old registers.old types.old }
    ensures { Lists (listing_behind (came input) len) result (left places) (left registers) (left types) }
{
    if MOST_INPUT < input.len() - len {
        return Err(Refusal::because(MANY));
    }
    let a = ask_of(&input[..len])?;
    list_hits(a, &input[len..], places, registers, types)
}

// Lists what an input asks, any bytes.
pub fn list_input(
    input: &[u8],
    places: &mut [u32],
    registers: &mut [u32],
    types: &mut [u8],
) -> Result<Rows, Refusal>
    requires { Rooms places.old registers.old types.old }
    ensures { Lists (listing_of (came input)) result (left places) (left registers) (left types) }
{
    let len = block_len(input)?;
    list_behind(input, len, places, registers, types)
}
