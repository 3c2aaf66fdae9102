// The column reader as a thing that holds the column's bytes and gives one value a call. It only holds: each answer is that of the step on the
// bytes, `step::step`. The struct is Copy; the position is handed back with each answer, and `moved` takes a reader there.
#![tactic(auto)]

ghost use Rattle.std.specs.Prelude.{◌≡◌};
ghost use Rattle.step.specs.Step.{step_of, answer_with};
ghost use Rattle.reader.specs.Reader.{new_reader, moved_to, reader_answer};

use column::Position;
use step::Answer;

// The column's bytes, how many values they are to hold, and a position. The order is that of the step's parameters.
#[derive(Clone, Copy)]
pub struct Reader<'a> {
    pub src: &'a [u8],
    pub n: usize,
    pub pos: Position,
}

impl<'a> Reader<'a> {
    // A reader at a fresh position.
    pub fn new(src: &'a [u8], n: usize) -> Reader<'a>
        ensures { result ≡ new_reader src.entry n }
    {
        Reader {
            src,
            n,
            pos: Position {
                at: 0,
                given: 0,
                width: 0,
                last: 0,
            },
        }
    }

    // The position that a reader is at.
    pub fn position(self) -> Position
        ensures { result ≡ self.entry.pos }
    {
        self.pos
    }

    // The same reader at another position, as one that an answer handed back.
    pub fn moved(self, pos: Position) -> Reader<'a>
        ensures { result ≡ moved_to self.entry pos }
    {
        Reader {
            src: self.src,
            n: self.n,
            pos,
        }
    }

    // One value, or the end, or a refusal; with it the position to go on from.
    pub fn next(self) -> Answer
        ensures { result ≡ reader_answer self.entry }
    {
        step::step(self.src, self.n, self.pos)
    }
}

// What a reader of the column s of n values answers at a position: for callers that hold no reader.
pub fn answer_at(s: &[u8], n: usize, p: Position) -> Answer
    ensures { result ≡ answer_with p (step_of 64 s.now n p) }
{
    Reader::new(s, n).moved(p).next()
}
