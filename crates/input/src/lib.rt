// Standard input, read whole into a lent room: how many bytes it has, or that a read failed. Bytes that came before a read failed are no input: a file on a
// stick that breaks is not a file that was cut short.
#![tactic(auto)]

ghost use Rattle.input.specs.Within.{Within, Came};

use std::io::{Read, Result};

// Reads until the room is full, the input ends or a read fails.
pub fn read_input<R: Read>(source: &mut R, room: &mut [u8]) -> Result<usize>
    ensures within { Within result room.new }
    ensures came { Came (R.remaining source.old) (R.remaining source.new) result room.new }
{
    // The library's reads to an end want a heap (`read_to_end`), or say nothing of what came where the input ends early (`read_exact`).
    let mut done: usize = 0;
    while done < room.len() {
        let more = source.read(&mut room[done..])?;
        if more == 0 {
            return Ok(done);
        }
        done += more;
    }
    Ok(done)
}
