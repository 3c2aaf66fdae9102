// Boxes of coordinates: the order of finite values, by rank, and the boxes that hold vertices.
#![tactic(auto)]

pub mod bounds;
pub mod boxes;
pub mod rank;
mod span;
mod value;
