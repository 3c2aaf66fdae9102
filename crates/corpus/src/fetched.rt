// The fetch.
use crate::copies::copied;
use crate::line::Line;
use crate::malformed;
use crate::record::{part, plain_at, span_at};
use viewer::file_fetch::boundary_fetch;

// 3: file, place, about, lens, xs, ys.
pub(crate) fn fetched(input: &[u8]) -> bool {
    let mut about = [0u64; 8];
    let mut lens = [0u16; 2100];
    let f = span_at(input, 1, 1, 65000);
    let p = plain_at(input, f.next);
    let a = copied(input, p.next, &mut about);
    let l = copied(input, a.next, &mut lens);
    let file = part(input, f.from, f.count);
    let n = a.count;
    let m = l.count;
    from_xs(
        input,
        l.next,
        file,
        p.value,
        &mut about[..n],
        &mut lens[..m],
    )
}

// The same, from the xs on.
fn from_xs(
    input: &[u8],
    at: usize,
    file: &[u8],
    place: u64,
    about: &mut [u64],
    lens: &mut [u16],
) -> bool {
    let mut xs = [0u64; 2100];
    let mut ys = [0u64; 2100];
    let x = copied(input, at, &mut xs);
    let y = copied(input, x.next, &mut ys);
    let n = x.count;
    let m = y.count;
    fetch(
        input,
        y.next,
        file,
        place,
        about,
        lens,
        &mut xs[..n],
        &mut ys[..m],
    )
}

// The fetch, and its line, where the record ends at that place.
fn fetch(
    input: &[u8],
    at: usize,
    file: &[u8],
    place: u64,
    about: &mut [u64],
    lens: &mut [u16],
    xs: &mut [u64],
    ys: &mut [u64],
) -> bool {
    if at != input.len() {
        return malformed();
    }
    let word = boundary_fetch(file, place, about, lens, xs, ys);
    showed(word, about, lens, xs, ys)
}

// The line of a fetch: the answer, and the four rooms.
fn showed(word: u64, about: &[u64], lens: &[u16], xs: &[u64], ys: &[u64]) -> bool {
    let mut line = Line::new(3, word);
    line.room(about);
    line.room(lens);
    line.room(xs);
    line.room(ys);
    line.end()
}
