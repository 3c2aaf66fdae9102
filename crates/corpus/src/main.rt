// The C face over a file of cases: reads each case from standard input, makes its call, and prints what the call answered and what it left in the
// rooms that were lent to it, a line for each. What it prints is held to the file `stdout`, which a second program of another make wrote.
//
// A case is a record: the length of the rest (u32), the number of a service (u8), and the call's arguments in the order of include/boundary.h. All
// numbers are little-endian. A slice is the number of its elements (u32) and then the elements, a room that the call writes to among them, with what
// it holds before the call; a plain number is a u64. A line is the service, the refusal's number, the low 32 bits of the answer, the column and the
// index, in decimal, and then each room after the call, in hexadecimal, or `-` where it has no element. A record that is not just so, or over a limit,
// ends the run with the line `malformed`. The limits, in elements: a position, a writer's state or about 8; registers, types, counts or places 300;
// lens, xs, ys, values or a room for values 2,100; the bytes of a column or a buffer 20,000; a record 65,000.
#![tactic(auto)]

mod columns;
mod copies;
mod element;
mod fetched;
mod files;
mod line;
mod record;
mod service;
mod writing;

use le::number::u32_at;
use record::part;
use service::served;

// Standard input and output, by their numbers.
const STDIN_FILENO: i32 = 0;

const STDOUT_FILENO: i32 = 1;

// The last line of a run that ends early.
fn malformed() -> bool {
    io::write_all(STDOUT_FILENO, b"malformed\n");
    false
}

// Reads one case and serves it. Whether another may follow: not at the end of the input, and not after a malformed record.
fn turn(input: &mut [u8]) -> bool {
    let mut head = [0u8; 4];
    let got = io::read_full(STDIN_FILENO, &mut head);
    if got == 0 {
        return false;
    }
    if got < 4 {
        return malformed();
    }
    let n = u32_at(&head, 0);
    if input.len() < n || io::read_full(STDIN_FILENO, &mut input[..n]) < n {
        return malformed();
    }
    served(part(input, 0, n))
}

// Case after case, each read over the one before; at most 16,777,216 of them, so that it ends whatever it reads.
fn every(input: &mut [u8]) {
    for _ in 0..16777216 {
        if !turn(input) {
            return;
        }
    }
}

fn main() {
    let mut input = [0u8; 65000];
    every(&mut input);
}
