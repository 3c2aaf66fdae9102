// The search over a file: the places of what a query meets, or their number.
#![tactic(auto)]

pub mod count;
mod flags;
mod found;
mod hits;
mod pages;
pub mod search;
