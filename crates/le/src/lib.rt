// Little-endian numbers and bit fields in bytes, read and written anywhere in a slice.
#![tactic(auto)]

pub mod bits;
pub mod number;
pub mod run;
