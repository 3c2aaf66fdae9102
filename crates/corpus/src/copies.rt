// Slices of a record, copied to the start of a room: elements wider than a byte, and bytes that a call writes to. The room's length is the limit. What
// is said of the answer is what a caller needs who hands on so much of the room.
ghost use Rattle.std.specs.Prelude.{◌≡◌, ◌≤◌, ◌<◌, length, take};

use crate::element::Element;
use crate::record::{Span, part, span_at};

// The elements of the slice at a place, each of N bytes.
pub(crate) fn copied<T: Element<N>, const N: usize>(input: &[u8], at: usize, room: &mut [T]) -> Span
    requires { (0 < N) × (N ≤ 8) }
    ensures { (result.count ≤ length room.new) × (result.count ≡ length (take result.count room.new)) }
{
    let s = span_at(input, at, N, room.len());
    let (elements, _) = part(input, s.from, N * s.count).as_chunks::<N>();
    for (x, bytes) in room.iter_mut().zip(elements) {
        *x = T::of(*bytes);
    }
    s
}
