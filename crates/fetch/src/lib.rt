// The shape at a place of a file.
#![tactic(auto)]

pub mod fetch;
mod opened;
