//! The tests of halls: seats that act, look and wait on threads of their own.
#![tactic(auto)]

#[cfg(test)]
mod halls;
#[cfg(test)]
mod pair;
pub mod tally;
#[cfg(test)]
mod work;
