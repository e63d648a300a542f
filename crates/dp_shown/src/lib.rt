//! Boards on which clients draw, and of which pictures are written.
//!
//! The rule: docs/protocol.md, "The picture".
#![tactic(auto)]

mod end;
mod shown;

pub use end::PictureEnd;
pub use shown::ClientBoard;
