// The shapes of a page: rules 12 to 16 of its contents, over the page's lists as they were read. Parts of them are lent on, and none is copied.
#![tactic(auto)]

pub mod lists;
mod ongrid;
pub mod ordered;
mod parts;
mod ring;
pub mod rules;
mod turned;
mod which;
