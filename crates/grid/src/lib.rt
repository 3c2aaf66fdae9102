// Coordinates on grid, as whole numbers of decimetres, and the turn of a ring of them.
#![tactic(auto)]

pub mod turning;
pub mod whole;
