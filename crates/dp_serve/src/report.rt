//! What is told of a link.

use dp_link::{DownEnd, UpEnd};

/// How a link of a worker's wire ended.
#[derive(Clone, Copy, PartialEq, Eq)]
pub struct LinkReport {
    /// The number of the worker.
    pub worker: u32,
    /// The number of the link among those of the wire, from 0.
    pub link: u32,
    /// The connection. There is none exactly if nobody was greeted.
    pub conn: Option<u32>,
    /// How the painter's messages ended, or why nobody was greeted.
    pub up_end: UpEnd,
    /// How the entries for the painter ended, or that nobody was greeted.
    pub down_end: DownEnd,
}
