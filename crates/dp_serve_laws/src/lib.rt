//! Laws of serving a session, each the contract of a function that does nothing. No two reports
//! name one connection. What is acted and kept of a connection is what its link acted, and the
//! store holds the rows of what is kept.
//!
//! The rule: docs/protocol.md, "The server".
#![tactic(auto)]

mod laws;

pub use laws::{
    acts_of_connections, closings_go_on, reports_name_distinct_connections, rows_are_kept,
    store_faults_are_counted,
};
