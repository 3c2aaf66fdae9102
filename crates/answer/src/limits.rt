// Document 01's limits.

// Values of a column, vertices of a page, and so its parts; vertices of a single shape from outside.
pub const MOST_VERTICES: usize = 2048;

// Shapes of a page.
pub const MOST_PAGE_SHAPES: usize = 256;

// Pages of a file.
pub const MOST_PAGES: usize = 1024;

// Shapes of a file: as many in each of as many pages.
pub const MOST_SHAPES: usize = 262144;

// Bytes of a file that a program takes.
pub const MOST_INPUT: usize = 40960;
