// The calls on files that list nothing of a shape: the full check, the count and the search. Files and queries are read where they stand in the record.
use crate::copies::copied;
use crate::line::Line;
use crate::malformed;
use crate::record::{part, span_at};
use viewer::file_check::boundary_check;
use viewer::file_count::boundary_count;
use viewer::file_search::boundary_search;

// The most bytes of a query, and of a file.
const QUERY: usize = 65000;

const FILE: usize = 65000;

// 0: file.
pub(crate) fn checked(input: &[u8]) -> bool {
    let f = span_at(input, 1, 1, FILE);
    if f.next != input.len() {
        return malformed();
    }
    let file = part(input, f.from, f.count);
    Line::new(0, boundary_check(file)).end()
}

// 1: query, file.
pub(crate) fn counted(input: &[u8]) -> bool {
    let q = span_at(input, 1, 1, QUERY);
    let f = span_at(input, q.next, 1, FILE);
    if f.next != input.len() {
        return malformed();
    }
    let query = part(input, q.from, q.count);
    let file = part(input, f.from, f.count);
    Line::new(1, boundary_count(query, file)).end()
}

// 2: query, file, places.
pub(crate) fn searched(input: &[u8]) -> bool {
    let mut places = [0u32; 300];
    let q = span_at(input, 1, 1, QUERY);
    let f = span_at(input, q.next, 1, FILE);
    let p = copied(input, f.next, &mut places);
    if p.next != input.len() {
        return malformed();
    }
    let query = part(input, q.from, q.count);
    let file = part(input, f.from, f.count);
    let n = p.count;
    search(query, file, &mut places[..n])
}

// The search, and its line.
fn search(query: &[u8], file: &[u8], places: &mut [u32]) -> bool {
    let word = boundary_search(query, file, places);
    let mut line = Line::new(2, word);
    line.room(places);
    line.end()
}
