// Queries: what a searcher asks, and the block that it comes in.
#![tactic(auto)]

pub mod ask;
pub mod query_block;
