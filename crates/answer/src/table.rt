// Document 01's table of refusal numbers, in its words. Each is given exactly when the line over it holds.
// Numbers and no enum: `Refusal::at_value` promises to hold any number that it is handed, and the C face hands it on.

// Query not finite, reversed, or its block malformed.
pub const QUERY: u8 = 1;
// The lent room is smaller than the answer needs.
pub const ROOM: u8 = 2;
// A column call, or a single shape from outside, over 2,048 values; a 1,025th page; a writer's state with over 1,024 pages or
// 262,144 shapes; a program's file over 40,960 bytes.
pub const MANY: u8 = 3;
// A length in the file doesn't fit, or bytes follow the end.
pub const LENGTHS: u8 = 4;
// Wrong kind or edition.
pub const KIND: u8 = 5;
// g, v, p out of limits, slices of unequal length, or end counts wrong.
pub const COUNTS: u8 = 6;
// Page box not finite or reversed, or not all zero bytes where v = 0.
pub const BOX_FORM: u8 = 7;
// Width over 64.
pub const WIDTH: u8 = 8;
// Column has too few bits, or a whole byte too many.
pub const BITS: u8 = 9;
// Fill bits not zero.
pub const FILL: u8 = 10;
// Type over 6, or part counts and lengths against the table or sums.
pub const PARTS: u8 = 11;
// Coordinate not finite.
pub const FINITE: u8 = 12;
// Ring not closed.
pub const RING: u8 = 13;
// MultiPolygon off grid.
pub const GRID: u8 = 14;
// Turn zero, or first ring not clockwise.
pub const TURN: u8 = 15;
// Page box differs in value from its vertices' box.
pub const BOX: u8 = 16;
// No shape at that place.
pub const PLACE: u8 = 17;
// Writer already closed.
pub const CLOSED: u8 = 18;
