//! What is ready to be kept of an event.

use dp_commit::Made;
use dp_keeper::Row;

/// An event that is ready to be kept, and its row.
#[derive(Drop)]
pub struct Ready {
    pub(crate) made: Made,
    /// The row that is to be put before the event is kept.
    pub row: Row,
}
