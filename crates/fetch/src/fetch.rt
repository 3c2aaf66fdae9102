// The fetching of one shape: frame, 17, contents of its page, 2.
ghost use Rattle.place.specs.Onward.{Seeks};
ghost use Rattle.fetch.specs.Fetch.{fetch_of, FetchesIn};

use crate::opened::opened;
use answer::Refusal;
use frame::walk::frame;
use place::seek::{SeatAt, seek};

// A shape that was fetched: its register and type, and how many part lengths and vertices stand at the start of the rooms. The type is the byte of the file, as
// `fetch` promises and the C face hands it on.
#[derive(Clone, Copy)]
pub struct Found {
    pub register: u32,
    pub kind: u8,
    pub parts: usize,
    pub vertices: usize,
}

// The seat of a place of a file, any bytes.
fn seat(s: &[u8], place: usize) -> Result<SeatAt, Refusal>
    ensures { Seeks s.now place result }
{
    let totals = frame(s)?;
    seek(s, totals.first, place)
}

// Fetches the shape at a place of a file, any bytes: its part lengths and the patterns of its vertices at the start of the lent rooms.
pub fn fetch(
    s: &[u8],
    place: usize,
    lens: &mut [u16],
    xs: &mut [u64],
    ys: &mut [u64],
) -> Result<Found, Refusal>
    ensures { FetchesIn (fetch_of s.now place) lens xs ys result }
{
    let t = seat(s, place)?;
    opened(s, t, lens, xs, ys)
}
