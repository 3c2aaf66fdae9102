// The listing program: a query block and then a file on standard input; a line "place register type" for each hit and then "hits H of M", or one line
// that says why it is refused. A read that fails is told on standard error, and nothing is printed.
#![tactic(auto)]

mod listing;
mod print;
mod rows;

use input::read_input;
use print::print;
use told::fail;

// Reads one byte more than the longest query block and the largest file, to see whether there is more.
fn main(rt: HostRuntime) {
    let mut bytes = [0u8; 40999];
    match read_input(&mut rt.stdin(), &mut bytes) {
        Ok(n) => {
            print(&rt, &bytes[..n]);
        }
        Err(why) => {
            fail(&rt, "list: standard input", why);
        }
    }
}
