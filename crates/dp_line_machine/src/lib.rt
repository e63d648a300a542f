//! What does the lines of a source, one at a time, with an output and counters that it is handed.
#![tactic(auto)]

mod machine;

pub use machine::{LineMachine, LineRunner, ScriptEnd, Undone};
