// The file writer. Its state goes in by value and is handed back; a refused step hands it back as it came, and leaves the buffer as it was.
#![tactic(auto)]

ghost use Rattle.std.specs.Prelude.{◌≡◌, length};
ghost use Rattle.answer.specs.Refusal.{because};
ghost use Rattle.answer.specs.Outcome.{refused};
ghost use Rattle.pageblock.specs.Body.{handed_of};
ghost use Rattle.writer.specs.State.{open_of, page_step_of, close_of, StepsIn, start_of};

use crate::blocks::{END_BLOCK, FIRST_BLOCK, put_end, put_first};
use answer::Refusal;
use answer::limits::{MOST_PAGES, MOST_SHAPES};
use answer::table::{CLOSED, MANY, ROOM};
use frame::layout::EDITION;
use pageblock::lists::PageLists;
use pageblock::page_block::page_block;

mod blocks;

// The state: the place of the next block, how many pages and shapes stand before it, and whether the end block does. One type for open and closed:
// a step promises to refuse a closed one, and C hands in any.
#[derive(Clone, Copy)]
pub struct Writer {
    pub position: usize,
    pub pages: u32,
    pub shapes: u32,
    pub closed: bool,
}

// The answer of a step: the state handed back, and whether the step was taken or refused. The state goes in and is handed back by value, also where
// it is refused: a form that is laid down (docs/FORMS.md).
#[derive(Clone, Copy)]
pub struct Stepped {
    pub writer: Writer,
    pub verdict: Result<(), Refusal>,
}

// Refused by a number, with the state as it came.
fn refused(st: Writer, number: u8) -> Stepped
    ensures { result ≡ record { writer = st; verdict = refused (because number) } }
{
    Stepped {
        writer: st,
        verdict: Err(Refusal::because(number)),
    }
}

// Where the part of a buffer that a page may fill starts.
#[tactic(auto, unfolding(crate::specs::State::start_of))]
fn start_of(position: usize, room: usize) -> usize
    ensures { result ≡ start_of position room }
{
    position.min(room)
}

impl Writer {
    // The first block at the buffer's start, and a state with no pages. Of the state that comes in nothing is used; it is handed back where
    // the step is refused.
    pub fn open(self, d: &mut [u8]) -> Stepped
        ensures { StepsIn (open_of (length d.old)) self d result }
    {
        if d.len() < FIRST_BLOCK {
            return refused(self, ROOM);
        }
        put_first(d);
        Stepped {
            writer: Writer {
                position: FIRST_BLOCK,
                pages: 0,
                shapes: 0,
                closed: false,
            },
            verdict: Ok(()),
        }
    }

    // The block of a page at the position. Where that lies past the buffer, the page finds no room.
    pub fn page(self, d: &mut [u8], lists: PageLists) -> Stepped
        ensures { StepsIn (page_step_of self (length d.old) (handed_of lists.entry)) self d result }
    {
        let position = self.position;
        let pages = self.pages;
        let shapes = self.shapes;
        if self.closed {
            return refused(self, CLOSED);
        }
        if MOST_PAGES <= pages as usize {
            return refused(self, MANY);
        }
        if MOST_SHAPES < shapes as usize {
            return refused(self, MANY);
        }
        let from = start_of(position, d.len());
        match page_block(EDITION, &mut d[from..], lists) {
            Err(w) => Stepped {
                writer: self,
                verdict: Err(w),
            },
            Ok(n) => Stepped {
                writer: Writer {
                    position: position + n,
                    pages: pages + 1,
                    shapes: shapes + lists.registers.len() as u32,
                    closed: false,
                },
                verdict: Ok(()),
            },
        }
    }

    // The end block at the position.
    pub fn close(self, d: &mut [u8]) -> Stepped
        ensures { StepsIn (close_of self (length d.old)) self d result }
    {
        let position = self.position;
        let pages = self.pages;
        let shapes = self.shapes;
        if self.closed {
            return refused(self, CLOSED);
        }
        if MOST_PAGES < pages as usize {
            return refused(self, MANY);
        }
        if MOST_SHAPES < shapes as usize {
            return refused(self, MANY);
        }
        if d.len() < position {
            return refused(self, ROOM);
        }
        if d.len() - position < END_BLOCK {
            return refused(self, ROOM);
        }
        put_end(d, position, pages, shapes);
        Stepped {
            writer: Writer {
                position: position + END_BLOCK,
                pages,
                shapes,
                closed: true,
            },
            verdict: Ok(()),
        }
    }
}
