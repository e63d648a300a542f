//! A board that trails its history.
//!
//! A `TrailingBoard` draws only what no later undo or redo comes before, and the rest once the
//! history ends. So each command is drawn once.
#![tactic(auto)]

mod trailing;

pub use trailing::{TrailingBoard, draw_kept};
