// Where the shape at a place sits.
ghost use Rattle.std.specs.Prelude.{◌≤◌};
ghost use Rattle.place.specs.Onward.{Onward, Seeks};

use answer::Refusal;
use answer::table::PLACE;
use frame::cursor::{Cursor, PageAt};
use frame::read::{at_end, glance, page_at};

// A seat: the page of a shape, the cursor at which that page stands, and the shape's index in it.
#[derive(Clone, Copy)]
pub struct SeatAt {
    pub at: Cursor,
    pub page: PageAt,
    pub index: usize,
}

// The seat of a place, sought from a cursor that the place does not lie before. The frame has passed.
pub fn seek(s: &[u8], from: Cursor, place: usize) -> Result<SeatAt, Refusal>
    requires { Onward s.now from × (from.shapes ≤ place) }
    ensures { Seeks s.now place result }
{
    let mut c = from;
    while !at_end(s, c) {
        let l = glance(s, c);
        if place < l.next.shapes {
            return Ok(SeatAt {
                at: c,
                page: page_at(s, c),
                index: place - c.shapes,
            });
        }
        c = l.next;
    }
    Err(Refusal::because(PLACE))
}
