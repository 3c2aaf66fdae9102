// Printing, and how much is printed: a count that no other module can make. One function of this program writes to standard output. It is
// lent the count and handed a stretch, which must be what comes next, and moves the count on: so what is handed on, one stretch behind the
// other, is the output up to the count.
ghost use Rattle.std.specs.Prelude.{◌≡◌, false, ◌+◌, ◌≤◌, ◌<◌, length};
ghost use Rattle.answer.specs.Outcome.{refused, ok};
ghost use Rattle.text.specs.Stretch.{Stretch};
ghost use Rattle.list.specs.Listing.{listing, listing_of};
ghost use Rattle.list.specs.Printed.{printed_of};

use crate::listing::list_input;
use crate::rows::put_rows;
use answer::Refusal;
use std::io::{Eprint, Print};
use text::lines::{put_hits, put_refused};
use told::fail;

// How many bytes of what is printed of an input have been handed on.
#[derive(Clone, Copy)]
pub struct Printed {
    k: usize,
}

// Rows of one stretch: so many take at most 32,256 bytes.
const STRETCH: usize = 512;

// Writes a stretch, or says on standard error why it could not. The answer is whether all bytes so far were taken: once some were not,
// nothing more is written, so that no row is missing before the last line.
fn write(
    rt: &(impl Print + Eprint),
    input: &[u8],
    stretch: &[u8],
    taken: bool,
    k: &mut usize,
) -> bool
    requires { Stretch (printed_of input.now) k.old stretch.now }
    ensures moved { k.new ≡ k.old + length stretch.now }
    ensures stays { taken ≡ false → result ≡ false }
{
    *k += stretch.len();
    if !taken {
        return false;
    }
    match rt.write_all(stretch) {
        Ok(()) => true,
        Err(why) => {
            fail(rt, "list: standard output", why);
            false
        }
    }
}

// The refused line.
fn say_refused(rt: &(impl Print + Eprint), input: &[u8], w: Refusal, k: &mut usize)
    requires k_value { k.old ≡ 0 }
    requires input_value { listing_of input.now ≡ refused w }
    ensures { k.new ≡ length (printed_of input.now) }
{
    let mut out = [0u8; 96];
    let n = put_refused(&mut out, 0, w);
    write(rt, input, &out[..n], true, k);
}

// The rows, stretch by stretch, and the last line.
fn say_rows(
    rt: &(impl Print + Eprint),
    input: &[u8],
    places: &[u32],
    registers: &[u32],
    types: &[u8],
    shapes: usize,
    k: &mut usize,
)
    requires k_value { k.old ≡ 0 }
    requires input_value { listing_of input.now ≡ ok (listing places.now registers.now types.now shapes) }
    requires registers_len { length registers.now ≡ length places.now }
    requires types_len { length types.now ≡ length places.now }
    ensures { k.new ≡ length (printed_of input.now) }
{
    let hits = places.len();
    let mut out = [0u8; 32256];
    let mut taken = true;
    for stretch in 0..hits.div_ceil(STRETCH) {
        let i = stretch * STRETCH;
        let e = (i + STRETCH).min(hits);
        let n = put_rows(&mut out, &places[i..e], &registers[i..e], &types[i..e]);
        taken = write(rt, input, &out[..n], taken, k);
    }
    let n = put_hits(&mut out, 0, hits, shapes);
    write(rt, input, &out[..n], taken, k);
}

// Prints what an input lists, any bytes: all of it.
pub fn print(rt: &(impl Print + Eprint), input: &[u8]) -> Printed
    ensures { result.k ≡ length (printed_of input.now) }
{
    let mut p = Printed { k: 0 };
    let mut places = [0u32; 4096];
    let mut registers = [0u32; 4096];
    let mut types = [0u8; 4096];
    match list_input(input, &mut places, &mut registers, &mut types) {
        Ok(r) => {
            say_rows(
                rt,
                input,
                &places[..r.hits],
                &registers[..r.hits],
                &types[..r.hits],
                r.shapes,
                &mut p.k,
            );
        }
        Err(w) => {
            say_refused(rt, input, w, &mut p.k);
        }
    }
    p
}
