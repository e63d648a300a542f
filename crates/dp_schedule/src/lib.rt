//! The lines of a schedule: what each asks for, and what the report says of it. And the lines of a
//! script of `join`.
//!
//! The rule: docs/protocol.md, "The world" and "Joining".
#![tactic(auto)]

mod action;
mod join_action;
mod join_parser;
mod laws;
mod parser;
mod report_line;

pub use action::{Action, CanvasKind, Instruction};
pub use join_action::JoinAction;
pub use join_parser::read_join_action;
pub use laws::{one_action, one_join_action};
pub use parser::read_action;
pub use report_line::ReportLine;
