// Printing, and how much is printed: a count that no other module can make. One function of this program writes to standard output. It is
// lent the count and handed a stretch, which must be what comes next, and moves the count on: so what is handed on, one stretch behind the
// other, is the output up to the count.
ghost use Rattle.std.specs.Prelude.{◌≡◌, ◌+◌, length};
ghost use Rattle.text.specs.Stretch.{Stretch};
ghost use Rattle.sound.specs.Sound.{printed_of};

use crate::line::put_line;
use std::io::{Eprint, Print};
use told::fail;

// How many bytes of what is printed of an input have been handed on.
#[derive(Clone, Copy)]
pub struct Printed {
    k: usize,
}

// Writes a stretch, or says on standard error why it could not.
fn write(rt: &(impl Print + Eprint), input: &[u8], stretch: &[u8], k: &mut usize)
    requires { Stretch (printed_of input.now) k.old stretch.now }
    ensures { k.new ≡ k.old + length stretch.now }
{
    *k += stretch.len();
    if let Err(why) = rt.write_all(stretch) {
        fail(rt, "sound: standard output", why);
    }
}

// Prints the line for an input, any bytes: all of it.
pub fn print(rt: &(impl Print + Eprint), input: &[u8]) -> Printed
    ensures { result.k ≡ length (printed_of input.now) }
{
    let mut p = Printed { k: 0 };
    let mut out = [0u8; 96];
    let n = put_line(input, &mut out);
    write(rt, input, &out[..n], &mut p.k);
    p
}
