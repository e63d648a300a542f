//! The frames of entries, one after another, made once for all who get them. Segments that are full
//! are shared with the pages that are sent.
#![tactic(auto)]

mod log;
mod page;
mod segment;

pub use log::{FrameLog, Sealed};
pub use page::PageFrames;
pub use segment::Segment;
