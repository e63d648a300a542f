//! The commands that need wires: what they leave, and running them. The board that a client draws
//! on is a parameter.
#![tactic(auto)]

mod joining;
mod ran;
mod server;

pub use joining::run_link;
pub use ran::{Ran, Resources, let_go};
pub use server::run_server;
