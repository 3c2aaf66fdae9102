// The lines that the programs print, each a chain of words and numbers. A line asks of the room, from its place on, the most
// bytes that its pieces can take; where the next thing goes lies in the room.
ghost use Rattle.std.specs.Prelude.{◌+◌, ◌≤◌, length, [], ◌∷◌};
ghost use Rattle.io.specs.Counts.{IsPrefixLen};
ghost use Rattle.text.specs.Pieces.{Puts, words};
ghost use Rattle.text.specs.Lines.{row, hits_line, column_words, where_words, refused_line, sound_line};

use crate::{put_number, put_words};
use answer::{Refusal, axis};

// Puts a row, "place register type": where the next thing goes.
pub fn put_row(out: &mut [u8], at: usize, place: u32, register: u32, kind: u8) -> usize
    requires { at + 63 ≤ length out.old }
    ensures puts { Puts out.old at (row place register kind) result out.new }
    ensures upper_bound { result ≤ at + 63 }
    ensures prefix_len { IsPrefixLen result out.new }
{
    let a = put_number(out, at, place as u64);
    let b = put_words(out, a, b" ");
    let c = put_number(out, b, register as u64);
    let d = put_words(out, c, b" ");
    let e = put_number(out, d, kind as u64);
    put_words(out, e, b"\n")
}

// Puts "hits H of M": where the next thing goes.
pub fn put_hits(out: &mut [u8], at: usize, hits: usize, shapes: usize) -> usize
    requires { at + 50 ≤ length out.old }
    ensures puts { Puts out.old at (hits_line hits shapes) result out.new }
    ensures upper_bound { result ≤ at + 50 }
    ensures prefix_len { IsPrefixLen result out.new }
{
    let a = put_words(out, at, b"hits ");
    let b = put_number(out, a, hits as u64);
    let c = put_words(out, b, b" of ");
    let d = put_number(out, c, shapes as u64);
    put_words(out, d, b"\n")
}

// Puts the words for a column of a page: where the next thing goes.
fn put_column(out: &mut [u8], at: usize, column: u8) -> usize
    requires { at + 16 ≤ length out.old }
    ensures puts { Puts out.old at (words (column_words column) ∷ []) result out.new }
    ensures upper_bound { result ≤ at + 16 }
{
    if column == axis::X {
        return put_words(out, at, b" column x value ");
    }
    put_words(out, at, b" column y value ")
}

// Puts " column x value I" (or y), or nothing where no column is named: where the next thing goes.
fn put_where(out: &mut [u8], at: usize, column: u8, index: u16) -> usize
    requires { at + 36 ≤ length out.old }
    ensures puts { Puts out.old at (where_words column index) result out.new }
    ensures upper_bound { result ≤ at + 36 }
{
    if column == axis::NONE {
        return at;
    }
    let a = put_column(out, at, column);
    put_number(out, a, index as u64)
}

// Puts "refused R page P", and behind it where in the page: where the next thing goes.
pub fn put_refused(out: &mut [u8], at: usize, w: Refusal) -> usize
    requires { at + 91 ≤ length out.old }
    ensures puts { Puts out.old at (refused_line w) result out.new }
    ensures upper_bound { result ≤ at + 91 }
    ensures prefix_len { IsPrefixLen result out.new }
{
    let a = put_words(out, at, b"refused ");
    let b = put_number(out, a, w.number as u64);
    let c = put_words(out, b, b" page ");
    let d = put_number(out, c, w.page as u64);
    let end = put_where(out, d, w.column, w.index);
    put_words(out, end, b"\n")
}

// Puts "sound P pages M shapes": where the next thing goes.
pub fn put_sound(out: &mut [u8], at: usize, pages: usize, shapes: usize) -> usize
    requires { at + 61 ≤ length out.old }
    ensures puts { Puts out.old at (sound_line pages shapes) result out.new }
    ensures upper_bound { result ≤ at + 61 }
    ensures prefix_len { IsPrefixLen result out.new }
{
    let a = put_words(out, at, b"sound ");
    let b = put_number(out, a, pages as u64);
    let c = put_words(out, b, b" pages ");
    let d = put_number(out, c, shapes as u64);
    put_words(out, d, b" shapes\n")
}
