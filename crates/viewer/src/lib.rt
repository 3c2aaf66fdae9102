// The C face: calls on plain numbers and slices, for the reading-room viewer.
#![tactic(auto)]

pub mod column_read;
pub mod column_step;
pub mod column_write;
pub mod file_check;
pub mod file_count;
pub mod file_fetch;
pub mod file_search;
mod four;
mod position;
mod state;
mod word;
pub mod writer_close;
pub mod writer_open;
pub mod writer_page;
