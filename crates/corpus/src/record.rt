// A record and the arguments in it. Each argument is found from the place where it starts, and says where the next one starts. Where one is not whole or
// over its limit, the next place lies past every record, so that what follows is found to be wrong too and only the last place has to be looked at.
ghost use Rattle.std.specs.Prelude.{◌+◌, ◌*◌, ◌≤◌, length, ◌≡◌};

use le::number::{u32_at, u64_at};

// Past every record.
const NOWHERE: usize = 18446744073709551615;

// A slice in a record: the place of its first element, how many elements it has, and the place of the next argument.
#[derive(Clone, Copy)]
pub struct Span {
    pub from: usize,
    pub count: usize,
    pub next: usize,
}

// A plain number, and the place of the next argument.
#[derive(Clone, Copy)]
pub struct Plain {
    pub value: u64,
    pub next: usize,
}

// No elements, and nothing right behind it.
fn nothing() -> Span
    ensures { (result.from ≡ 0) × (result.count ≡ 0) }
{
    Span {
        from: 0,
        count: 0,
        next: NOWHERE,
    }
}

// The slice whose number of elements stands at a place: elements of so many bytes, at most 8, and no more of them than `most`.
pub(crate) fn span_at(input: &[u8], at: usize, size: usize, most: usize) -> Span
    requires { size ≤ 8 }
    ensures { (result.from + size * result.count ≤ length input.now) × (result.count ≤ most) }
{
    let len = input.len();
    if len < 4 || len - 4 < at {
        return nothing();
    }
    let count = u32_at(input, at);
    if most < count {
        return nothing();
    }
    let from = at + 4;
    let bytes = size * count;
    if len - from < bytes {
        return nothing();
    }
    Span {
        from,
        count,
        next: from + bytes,
    }
}

// The plain number at a place.
pub(crate) fn plain_at(input: &[u8], at: usize) -> Plain {
    let len = input.len();
    if len < 8 || len - 8 < at {
        return Plain {
            value: 0,
            next: NOWHERE,
        };
    }
    Plain {
        value: u64_at(input, at),
        next: at + 8,
    }
}

// So many bytes of a record, as they stand there.
pub(crate) fn part(input: &[u8], from: usize, count: usize) -> &[u8]
    requires { from + count ≤ length input.now }
{
    let end = from + count;
    &input[from..end]
}
