//! The server of a session: workers that serve the links of their wires at the same time, each on a
//! seat of one hall.
//!
//! The rules: docs/protocol.md, "The server" and "Links of the server".
#![tactic(auto)]

mod closings;
mod jobs;
mod report;
mod server;
mod told;
mod worker;

pub use jobs::Reports;
pub use report::LinkReport;
pub use server::{Served, serve};
