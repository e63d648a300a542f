//! The report of a schedule: its lines on the input, what each prints on the output.
//!
//! The rule: docs/protocol.md, "The world".
#![tactic(auto)]

mod laws;
mod run;

pub use laws::{every_schedule, lines_say_no_control, one_schedule, reports_are_due};
pub use run::run_world;
