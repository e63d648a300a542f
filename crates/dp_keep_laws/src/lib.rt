//! Laws of what an epoch opens with: it shows the commands of its reset, and if the reset keeps
//! entries, what the history before showed.
//!
//! The rule: docs/protocol.md, "Resets".
#![tactic(auto)]

mod laws;

pub use laws::{
    histories_may_be_cut, keeping_shows_the_same, kept_entries_show_the_same, older_undos_count,
    openings_go_on, resets_show_their_commands, suffixes_stand_alone, worked_reset_keeps,
};
