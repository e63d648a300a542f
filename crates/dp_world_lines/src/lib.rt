//! The lines of a schedule, done one at a time in its world.
//!
//! The rule: docs/protocol.md, "The world".
#![tactic(auto)]

mod line_run;

pub use line_run::WorldRun;
