//! Workers that serve the links of wires at the same time, each on a seat of one hall: whatever the
//! machine of the hall is, and whatever a link is told by.
#![tactic(auto)]

mod crew;
mod flags;
mod gather;
mod jobs;
mod laws;
mod reports;
mod service;
mod worked;
mod worker;

pub use crew::{Crew, Ran, run_crew};
pub use flags::Flags;
pub use gather::gather_jobs;
pub use jobs::{Job, make_jobs};
pub use laws::crews_add_up;
pub use reports::Reports;
pub use service::{Reporting, Served, Service};
pub use worked::Worked;
pub use worker::run_links;
