//! The replay of a history on a board: its commands but for the undone ones, drawn in order.
#![tactic(auto)]

mod replay;

pub use replay::{plain_replay, replay_on, show_on};
