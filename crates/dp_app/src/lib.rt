//! The program's top call: its words, its status, what it reads and what it writes.
#![tactic(auto)]

mod program;
mod running;

pub use dp_endings::status_of;
pub use dp_lines::RunEnd;
pub use dp_local::local_commands_are_runs;
pub use program::{Outcome, drawpile};
