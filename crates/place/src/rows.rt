// The rows for a list of places: frame, 17, 2.
ghost use Rattle.std.specs.Prelude.{◌≡◌, List, ℕ, ◌≤◌, ltb, length};
ghost use Rattle.answer.specs.Outcome.{ok};
ghost use Rattle.answer.specs.All.{all_of};
ghost use Rattle.place.specs.declared.row.Row.{Row};
ghost use Rattle.answer.specs.Lent.{FillsIn};
ghost use Rattle.place.specs.Onward.{Onward};
ghost use Rattle.place.specs.Rows.{rows_in, rows_within, registers_from, types_from};

use crate::row::row_at;
use crate::seek::seek;
use answer::Refusal;
use answer::table::{PLACE, ROOM};
use frame::cursor::Cursor;
use frame::walk::frame;

// Whether each place has a shape, in a file of so many.
fn all_there(places: &[u32], shapes: usize) -> bool
    ensures { result ≡ all_of (λ (n : ℕ). ltb n shapes) places.now }
{
    places.iter().all(|place| (*place as usize) < shapes)
}

// Where to seek a place: on from the page that the walk is at, or from the first page where the place lies before that one.
fn start(s: &[u8], first: Cursor, c: Cursor, place: usize) -> Cursor
    requires { Onward s.now first × (first.shapes ≡ 0) × Onward s.now c }
    ensures { Onward s.now result × (result.shapes ≤ place) }
{
    if place < c.shapes { first } else { c }
}

// Puts the rows of places that all have a shape. For places in ascending order this is one walk over the file.
fn put_rows(
    s: &[u8],
    from: Cursor,
    places: &[u32],
    registers: &mut [u32],
    types: &mut [u8],
) -> Result<usize, Refusal>
    requires onward { Onward s.now from × (from.shapes ≡ 0) }
    requires places_value { (rs : List Row) × (rows_in s.now places.now ≡ ok rs) }
    requires places_in_bounds { (length places.now ≤ length registers.old) × (length places.now ≤ length types.old) }
    ensures registers { FillsIn (registers_from (rows_in s.now places.now)) registers result }
    ensures types { FillsIn (types_from (rows_in s.now places.now)) types result }
{
    let n = places.len();
    let mut c = from;
    for (i, place) in places.iter().enumerate() {
        let place = *place as usize;
        let t = seek(s, start(s, from, c, place), place)?;
        let r = row_at(s, t.page, t.index);
        registers[i] = r.register;
        types[i] = r.kind;
        c = t.at;
    }
    Ok(n)
}

// Puts the rows for places of a file, any bytes and any places: their registers at the start of one lent room, their types at the start of the other.
pub fn rows(
    s: &[u8],
    places: &[u32],
    registers: &mut [u32],
    types: &mut [u8],
) -> Result<usize, Refusal>
    ensures registers { FillsIn (registers_from (rows_within s.entry places.entry registers.entry types.entry)) registers result }
    ensures types { FillsIn (types_from (rows_within s.entry places.entry registers.entry types.entry)) types result }
{
    let totals = frame(s)?;
    if !all_there(places, totals.shapes) {
        return Err(Refusal::because(PLACE));
    }
    if registers.len() < places.len() {
        return Err(Refusal::because(ROOM));
    }
    if types.len() < places.len() {
        return Err(Refusal::because(ROOM));
    }
    put_rows(s, totals.first, places, registers, types)
}
