//! The board over contents of one kind.
//!
//! A `LayeredBoard` draws every command on contents of one kind. The boards over plain lists of
//! pixels (`PlainBoard`) are the slow ones with which others are compared.
#![tactic(auto)]

mod layered;
mod plain;
mod resize;
mod trees;

pub use layered::LayeredBoard;
pub use plain::{PlainBoard, PlainPixels};
