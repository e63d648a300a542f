//! A run over the lines of a source: each line is done by a machine of lines, one after the other.
#![tactic(auto)]

mod held;
mod rest;
mod run;

pub use run::Script;
