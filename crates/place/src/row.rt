// A shape's row in the tables of its page.
ghost use Rattle.std.specs.Prelude.{◌≡◌, ℕ, ◌+◌, ◌≤◌, ◌<◌, length};
ghost use Rattle.answer.specs.Outcome.{ok};
ghost use Rattle.frame.specs.Head.{head_of};
ghost use Rattle.frame.specs.Next.{part};
ghost use Rattle.place.specs.Row.{row_of};

use frame::cursor::PageAt;
use frame::head::Head;
use le::number::u32_at;

// A shape's register and type. The type is the byte of the file, any byte, as `row_at` promises: the page's contents are not judged.
#[derive(Clone, Copy)]
pub struct Row {
    pub register: u32,
    pub kind: u8,
}

// The row of the shape at index i of a page with a head that was read from its body.
fn row_in(b: &[u8], h: Head, i: usize) -> Row
    requires { ((e : ℕ) × (head_of e b.now ≡ ok h)) × (i < h.g) }
    ensures { result ≡ row_of h b.now i }
{
    let register = u32_at(b, h.layout.registers + h.layout.each * i) as u32;
    let at = h.layout.types + i;
    let kind = b[at];
    Row { register, kind }
}

// The row of the shape at index i of a page of a file.
pub fn row_at(s: &[u8], p: PageAt, i: usize) -> Row
    requires { (p.body + p.len ≤ length s.now) × ((e : ℕ) × (head_of e (part s.now p.body p.len) ≡ ok p.head)) × (i < p.head.g) }
    ensures { result ≡ row_of p.head (part s.now p.body p.len) i }
{
    let from = p.body;
    let to = from + p.len;
    row_in(&s[from..to], p.head, i)
}
