//! Who may do what in a session, and what of the rights is carried into the next epoch.
//!
//! The rule: docs/protocol.md, "Rights".
#![tactic(auto)]

mod carried;
mod id_set;
mod laws;
mod note;
mod permits;
mod rights;
mod rules;

pub use laws::{
    commands_change_no_right, forbidden_changes_no_right, kept_change_no_right, kept_go_on,
    openings_change_no_right, operators_stay, spelled_ids_are_in_order,
};
pub use rights::Rights;
