// A page's contents: its tables, its two columns as parts of the body, and the rules over them, in order.
#![tactic(auto)]

mod columns;
mod contents;
pub mod open;
pub mod scratch;
