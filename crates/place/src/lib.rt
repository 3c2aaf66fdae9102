// Where a place lies in a file: its seat, its row in the tables of its page, and which parts and vertices are its own; and the rows for a list of places.
#![tactic(auto)]

pub mod row;
pub mod rows;
pub mod seek;
pub mod span;
