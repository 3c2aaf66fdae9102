// The frame of a file: its blocks in order, the rules of each, what is read of one that has passed, and the walk over them.
#![tactic(auto)]

pub mod cursor;
pub mod head;
pub mod layout;
pub mod read;
mod rules;
pub mod walk;
