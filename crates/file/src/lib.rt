// A file: the full check.
#![tactic(auto)]

pub mod check;
