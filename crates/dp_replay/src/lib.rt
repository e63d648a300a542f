//! What the entries of a history do to strokes, and what a history shows.
#![tactic(auto)]

mod replay;

pub use replay::{UNDO_DEPTH, act_of, act_of_entry, act_of_message, is_command, kind_of_entry};
