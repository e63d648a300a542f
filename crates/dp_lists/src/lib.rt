//! Lists that contracts see as lists, items that are numbered from 1, and lemmas on both.
#![tactic(auto)]

mod laws;
mod listed;

pub use laws::items_are_numbered;
pub use listed::{Listed, prefix_of, rest_of};
