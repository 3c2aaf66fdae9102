// The rows of a listing, put into a buffer so many at a time.
ghost use Rattle.std.specs.Prelude.{◌≡◌, ◌*◌, ◌≤◌, length};
ghost use Rattle.io.specs.Counts.{IsPrefixLen};
ghost use Rattle.text.specs.Pieces.{Puts};
ghost use Rattle.list.specs.Printed.{row_lines};

use text::lines::put_row;

// Puts a row for each place, register and type: where the next thing goes.
pub fn put_rows(out: &mut [u8], places: &[u32], registers: &[u32], types: &[u8]) -> usize
    requires registers_len { length registers.now ≡ length places.now }
    requires types_len { length types.now ≡ length places.now }
    requires places_in_bounds { 63 * length places.now ≤ length out.old }
    ensures puts { Puts out.old 0 (row_lines places.now registers.now types.now) result out.new }
    ensures prefix_len { IsPrefixLen result out.new }
{
    let mut at: usize = 0;
    for (i, place) in places.iter().enumerate() {
        at = put_row(out, at, *place, registers[i], types[i]);
    }
    at
}
