// The calls of the writer.
use crate::copies::copied;
use crate::line::Line;
use crate::malformed;
use crate::record::{part, span_at};
use viewer::writer_close::boundary_close;
use viewer::writer_open::boundary_open;
use viewer::writer_page::boundary_page;

// The line of a call: the answer, the writer's state and the buffer.
fn showed(service: u8, word: u64, writer: &[u64], buffer: &[u8]) -> bool {
    let mut line = Line::new(service, word);
    line.room(writer);
    line.room(buffer);
    line.end()
}

// 7, open, and 9, close: writer, buffer. 8, page: writer, buffer, registers, types, counts, lens, xs, ys.
pub(crate) fn stepped(input: &[u8], service: u8) -> bool {
    let mut writer = [0u64; 8];
    let mut buffer = [0u8; 20000];
    let w = copied(input, 1, &mut writer);
    let b = copied(input, w.next, &mut buffer);
    let n = w.count;
    let m = b.count;
    from_there(input, b.next, service, &mut writer[..n], &mut buffer[..m])
}

// The same, from what follows the buffer on.
fn from_there(input: &[u8], at: usize, service: u8, writer: &mut [u64], buffer: &mut [u8]) -> bool {
    if service == 8 {
        return from_registers(input, at, writer, buffer);
    }
    if at != input.len() {
        return malformed();
    }
    if service == 7 {
        return open(writer, buffer);
    }
    close(writer, buffer)
}

// The open call, and its line.
fn open(writer: &mut [u64], buffer: &mut [u8]) -> bool {
    let word = boundary_open(writer, buffer);
    showed(7, word, writer, buffer)
}

// The close call, and its line.
fn close(writer: &mut [u64], buffer: &mut [u8]) -> bool {
    let word = boundary_close(writer, buffer);
    showed(9, word, writer, buffer)
}

// A page, from the registers on.
fn from_registers(input: &[u8], at: usize, writer: &mut [u64], buffer: &mut [u8]) -> bool {
    let mut registers = [0u32; 300];
    let mut counts = [0u16; 300];
    let r = copied(input, at, &mut registers);
    let t = span_at(input, r.next, 1, 300);
    let c = copied(input, t.next, &mut counts);
    let types = part(input, t.from, t.count);
    let n = r.count;
    let m = c.count;
    from_lens(
        input,
        c.next,
        writer,
        buffer,
        &registers[..n],
        types,
        &counts[..m],
    )
}

// The same, from the lens on.
fn from_lens(
    input: &[u8],
    at: usize,
    writer: &mut [u64],
    buffer: &mut [u8],
    registers: &[u32],
    types: &[u8],
    counts: &[u16],
) -> bool {
    let mut lens = [0u16; 2100];
    let l = copied(input, at, &mut lens);
    let n = l.count;
    from_xs(
        input,
        l.next,
        writer,
        buffer,
        registers,
        types,
        counts,
        &lens[..n],
    )
}

// The same, from the xs on.
fn from_xs(
    input: &[u8],
    at: usize,
    writer: &mut [u64],
    buffer: &mut [u8],
    registers: &[u32],
    types: &[u8],
    counts: &[u16],
    lens: &[u16],
) -> bool {
    let mut xs = [0u64; 2100];
    let mut ys = [0u64; 2100];
    let x = copied(input, at, &mut xs);
    let y = copied(input, x.next, &mut ys);
    let n = x.count;
    let m = y.count;
    page(
        input,
        y.next,
        writer,
        buffer,
        registers,
        types,
        counts,
        lens,
        &xs[..n],
        &ys[..m],
    )
}

// The page call, and its line, where the record ends at that place.
fn page(
    input: &[u8],
    at: usize,
    writer: &mut [u64],
    buffer: &mut [u8],
    registers: &[u32],
    types: &[u8],
    counts: &[u16],
    lens: &[u16],
    xs: &[u64],
    ys: &[u64],
) -> bool {
    if at != input.len() {
        return malformed();
    }
    let word = boundary_page(writer, buffer, registers, types, counts, lens, xs, ys);
    showed(8, word, writer, buffer)
}
