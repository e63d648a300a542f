//! The commands that work on the input and the output alone: what they are due, what they leave,
//! and running them. The world of a schedule and the session of a drill are parameters.
#![tactic(auto)]

mod host;
mod laws;
mod local;

pub use host::Host;
pub use laws::local_commands_are_runs;
pub use local::run_local;
