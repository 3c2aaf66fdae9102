// The full check as a program: a file on standard input, and one line that says how many pages and shapes it has, or why it is refused. A
// read that fails is told on standard error, and nothing is printed.
#![tactic(auto)]

mod line;
mod print;

use input::read_input;
use print::print;
use told::fail;

// Reads one byte more than the largest file that it takes, to see whether there is more.
fn main(rt: HostRuntime) {
    let mut bytes = [0u8; 40961];
    match read_input(&mut rt.stdin(), &mut bytes) {
        Ok(n) => {
            print(&rt, &bytes[..n]);
        }
        Err(why) => {
            fail(&rt, "sound: standard input", why);
        }
    }
}
