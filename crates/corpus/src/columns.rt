// The calls on columns.
use crate::copies::copied;
use crate::line::Line;
use crate::malformed;
use crate::record::{part, plain_at, span_at};
use viewer::column_read::boundary_column_read;
use viewer::column_step::boundary_column_step;
use viewer::column_write::boundary_column_write;

// The most bytes of a column.
const COLUMN: usize = 20000;

// 4: values, room.
pub(crate) fn written(input: &[u8]) -> bool {
    let mut values = [0u64; 2100];
    let mut room = [0u8; 20000];
    let v = copied(input, 1, &mut values);
    let r = copied(input, v.next, &mut room);
    if r.next != input.len() {
        return malformed();
    }
    let n = v.count;
    let m = r.count;
    write(&values[..n], &mut room[..m])
}

// The column write, and its line.
fn write(values: &[u64], room: &mut [u8]) -> bool {
    let word = boundary_column_write(values, room);
    let mut line = Line::new(4, word);
    line.room(room);
    line.end()
}

// 5: column, n, room.
pub(crate) fn values(input: &[u8]) -> bool {
    let mut room = [0u64; 2100];
    let s = span_at(input, 1, 1, COLUMN);
    let n = plain_at(input, s.next);
    let r = copied(input, n.next, &mut room);
    if r.next != input.len() {
        return malformed();
    }
    let column = part(input, s.from, s.count);
    let m = r.count;
    read(column, n.value as usize, &mut room[..m])
}

// The column read, and its line.
fn read(column: &[u8], n: usize, room: &mut [u64]) -> bool {
    let word = boundary_column_read(column, n, room);
    let mut line = Line::new(5, word);
    line.room(room);
    line.end()
}

// 6: column, n, position.
pub(crate) fn stepped(input: &[u8]) -> bool {
    let mut position = [0u64; 8];
    let s = span_at(input, 1, 1, COLUMN);
    let n = plain_at(input, s.next);
    let p = copied(input, n.next, &mut position);
    if p.next != input.len() {
        return malformed();
    }
    let column = part(input, s.from, s.count);
    let m = p.count;
    step(column, n.value as usize, &mut position[..m])
}

// The column step, and its line.
fn step(column: &[u8], n: usize, position: &mut [u64]) -> bool {
    let word = boundary_column_step(column, n, position);
    let mut line = Line::new(6, word);
    line.room(position);
    line.end()
}
