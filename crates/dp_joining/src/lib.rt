//! A run over a link: a client greets the server, does the lines of a script, and leaves.
//!
//! The rule: docs/protocol.md, "Joining".
#![tactic(auto)]

mod acting;
mod laws;
mod link;
mod machine;
mod run;

pub use laws::{begun_is_due, each_outcome, one_outcome};
pub use link::{Joined, join_link};
pub use run::run_join;
