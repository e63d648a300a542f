//! The picture of a board, as one pixel and as the texts of Netpbm files.
//!
//! A tile of 64 by 64 pixels is composed at a time, with a buffer for each level of groups. What is
//! of one colour throughout a tile is blended once, and what is hidden is passed over. The tiles of
//! a row of tiles are kept as bytes, and then written row by row.
//!
//! The rule: docs/protocol.md, "The picture".
#![tactic(auto)]

mod band;
mod compose;
mod picture;
mod pixel;
mod text;
mod tone;
mod workers;

pub use picture::{write_p3, write_p6, write_p6_by};
pub use pixel::flatten;
