// A place in the walk over a file, by value, and what is read of a page there.
use crate::head::Head;
use extent::boxes::Box;

// Where the next block stands, with the file's edition and how many pages and shapes lie before it.
#[derive(Clone, Copy)]
pub struct Cursor {
    pub edition: usize,
    pub at: usize,
    pub pages: usize,
    pub shapes: usize,
}

// A page that was found: its head, its body's place and length, and the cursor after it.
#[derive(Clone, Copy)]
pub struct PageAt {
    pub head: Head,
    pub body: usize,
    pub len: usize,
    pub next: Cursor,
}

// What a walk has to know of a page that it may pass by: its vertices, its box, and the cursor after it.
#[derive(Clone, Copy)]
pub struct Glance {
    pub v: usize,
    pub stored: Box,
    pub next: Cursor,
}
