// The kinds of blocks. Numbers and no enum: a file may hold any kind, and `put_head` promises to put any.

// The first block of a file, which says its edition.
pub const FIRST: usize = 1;

// A page.
pub const PAGE: usize = 2;

// The end of a file.
pub const END: usize = 3;

// A query.
pub const QUERY: usize = 4;
