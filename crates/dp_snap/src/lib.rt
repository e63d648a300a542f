//! The snapshot of a board: commands that draw it on the empty board.
//!
//! The rule: docs/protocol.md, "Snapshots".
#![tactic(auto)]

mod board;
mod commands;
mod resets;
mod rows;
mod tile;

pub use board::{Msgs, snapshot};
pub use resets::reset_begin;
