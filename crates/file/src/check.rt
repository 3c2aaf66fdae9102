// The full check of a file: frame, then each page's contents.
ghost use Rattle.std.specs.Prelude.{◌≡◌, List};
ghost use Rattle.answer.specs.Rule.{passed};
ghost use Rattle.frame.specs.Frame.{Page};
ghost use Rattle.frame.specs.Ahead.{Ahead, Begun};
ghost use Rattle.file.specs.File.{rest_of, shapes_in};
ghost use Rattle.file.specs.Check.{check_of};

use answer::Refusal;
use frame::cursor::Cursor;
use frame::read::at_end;
use frame::walk::{Totals, frame};
use page::open::open_in;
use page::scratch::Scratch;

// The contents of each page from a cursor to the end. The frame has passed.
fn pages_hold(s: &[u8], from: Cursor, scratch: &mut Scratch) -> Result<(), Refusal>
    requires { (ps : List Page) × Ahead s.now from ps }
    ensures { result ≡ passed (rest_of s.now from) }
{
    let mut c = from;
    while !at_end(s, c) {
        let p = open_in(s, c, scratch)?;
        c = p.next;
    }
    Ok(())
}

// The contents of each page of a file, from the cursor after its first block. The scratch is cleared once, and serves every page.
fn contents_hold(s: &[u8], from: Cursor) -> Result<(), Refusal>
    requires { Begun s.now from }
    ensures { result ≡ passed (shapes_in s.now) }
{
    let mut scratch = Scratch::new();
    pages_hold(s, from, &mut scratch)
}

// The full check of any bytes: how many pages and shapes a sound file has, or the refusal.
pub fn check(s: &[u8]) -> Result<Totals, Refusal>
    ensures { result ≡ check_of s.now }
{
    let totals = frame(s)?;
    contents_hold(s, totals.first)?;
    Ok(totals)
}
