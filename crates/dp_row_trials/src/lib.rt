//! Trials of a row of `dp_rows`: its links with each damage of the first one in turn, and what a
//! client or a server over them is to give. It is worked out from the row's table, not from a run.
#![tactic(auto)]

mod damage;
mod joined;
mod served;
mod trials;

pub use trials::{Trial, trials_of};
