// A line of what is printed: the answer in decimal, and then the rooms in hexadecimal, a space before each and `-` where there is no element: two digits
// for each byte, the lowest byte of an element first. The digits are gathered in a text of 4,096 bytes and written from there, part by part. What could not
// be written of a line is passed over: its end says whether another case may follow.
ghost use Rattle.std.specs.Prelude.{◌≡◌, ◌≤◌};

use crate::STDOUT_FILENO;
use crate::element::Element;

// The digits.
const DIGITS: [u8; 16] = *b"0123456789abcdef";

// Words as they stand: whether all was written.
fn say(words: &[u8]) -> bool {
    io::write_all(STDOUT_FILENO, words)
}

// What of a line is not written yet, at the start of the text.
#[derive(Drop)]
pub(crate) struct Line {
    text: [u8; 4096],
    used: usize,
    ghost within: { used ≤ 4096 },
}

impl Line {
    // The start of the line: the service, and the answer taken apart, which is the refusal's number, then what the call says, or the page, then the column and
    // the index. The index is all that stands above the column, so that a bit which should not be there shows.
    pub(crate) fn new(service: u8, word: u64) -> Line {
        let refusal = word / 4294967296 % 256;
        let says = word % 4294967296;
        let column = word / 1099511627776 % 4;
        let index = word / 4398046511104;
        io::print_decimal(STDOUT_FILENO, u64::from(service));
        for n in [refusal, says, column, index] {
            say(b" ");
            io::print_decimal(STDOUT_FILENO, n);
        }
        Line {
            text: [0; 4096],
            used: 0,
        }
    }

    // A room.
    pub(crate) fn room<T: Element<N>, const N: usize>(&mut self, room: &[T])
        requires { N ≤ 8 }
    {
        if room.is_empty() {
            say(b" -");
        } else {
            say(b" ");
        }
        for x in room {
            self.digits(x.bytes());
        }
        self.flush();
    }

    // The digits of an element's bytes. The text is written first where it has no room for sixteen.
    fn digits<const N: usize>(&mut self, bytes: [u8; N])
        requires { N ≤ 8 }
    {
        if self.text.len() < self.used + 16 {
            self.flush();
        }
        let mut used = self.used;
        for b in bytes {
            self.text[used] = DIGITS[usize::from(b / 16)];
            self.text[used + 1] = DIGITS[usize::from(b % 16)];
            used += 2;
        }
        self.used = used;
    }

    // The end of the line: whether another case may follow, that the end was written.
    pub(crate) fn end(&self) -> bool {
        say(b"\n")
    }

    // Writes what is gathered.
    fn flush(&mut self)
        ensures { self.new.used ≡ 0 }
    {
        say(&self.text[..self.used]);
        self.used = 0;
    }
}
