// What a program says where it cannot read or print: a line on standard error.
#![tactic(auto)]

ghost use Rattle.std.specs.Prelude.{◌≤◌, length};

use std::io::{Eprint, Error, Write};

// Behind the system's words std puts this and the number that it has for them.
const NUMBER: &[u8] = b" (os error ";

// Where the system's words end in a text that holds them and then the number, or zeros.
fn words_end(text: &[u8]) -> usize
    ensures { result ≤ length text.now }
{
    for i in 0..text.len() {
        if text[i] == 0 || text[i..].starts_with(NUMBER) {
            return i;
        }
    }
    text.len()
}

// Writes a line to standard error: what failed, as the caller names it, a colon and why, in the system's words. Where that fails too, there is nobody to tell.
pub fn fail(told: &impl Eprint, what: &str, why: Error) {
    let mut text = [0u8; 256];
    let mut room: &mut [u8] = &mut text;
    let _ = write!(room, "{why}");
    let end = words_end(&text);
    let words = str::from_utf8(&text[..end]).unwrap_or("");
    let _ = eprintln!(told; "{what}: {words}");
}
