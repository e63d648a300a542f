//! Lists of what several lists may have in common.
#![tactic(auto)]

mod shared;

pub use shared::{Shareable, own, repeated};
