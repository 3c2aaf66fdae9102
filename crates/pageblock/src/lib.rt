// A page as a block of its own: the rules it must pass, its size, and its bytes, put straight into a lent room.
#![tactic(auto)]

mod body;
pub mod lists;
pub mod page_block;
mod plan;
mod rules;
