//! The laws of snapshots: a snapshot that is replayed gives its board.
#![tactic(auto)]

mod laws;

pub use laws::{replays_are_boards, replays_have_pixels, snapshots_are_spelled, snapshots_replay};
