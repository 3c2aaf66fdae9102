// The types of shapes: the one small table that writer and checker share, and rule 11, which holds a page's parts against it.
#![tactic(auto)]

pub mod parts;
pub mod rows;
