//! Laws of the logs of a session, each the contract of a function that does nothing.
//!
//! The rule: docs/protocol.md, "The session".
#![tactic(auto)]

mod kept;
mod laws;

pub use kept::{
    epochs_are_served, logs_are_kept, one_resumption, steps_are_kept, stops_leave_journals,
};
pub use laws::{
    answers_are_logs, ended_has_cause, faults_are_counted, feeds_begin, feeds_end, feeds_go_on,
    gone_goes_on, journals_are_logs, one_connection_each, pulls_go_on, quiets_are_logs,
    sessions_go_on, shuts_are_logs,
};
