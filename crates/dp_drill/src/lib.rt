//! A large session that is made from a number, and its summary.
//!
//! The session and what its clients send are run. Their canvases aren't: a law says that what they
//! take leaves the session as it is. The history is drawn once. The rule: docs/protocol.md,
//! "Drills".
#![tactic(auto)]

mod flow;
mod laws;
mod numbers;
mod painting;
mod rounds;
mod run;
mod summary;

pub use laws::drills_need_no_clients;
pub use run::{Drill, run_drill};
