//! What a run gives.

use std::alloc::Global;

/// What a run gives: its status, its output, and what it said on diag. Then the text of what it
/// sent, in which each link has a line, and the text of what a server leaves.
#[derive(Drop)]
pub struct Answer {
    pub status: u8,
    pub output: Vec<u8>,
    pub said: Vec<u8>,
    pub sent: Vec<u8>,
    pub left: Vec<u8>,
}

impl Answer {
    /// An answer of status 0 and nothing else.
    pub fn new(alloc: Global) -> Answer {
        Answer {
            status: 0,
            output: Vec::new(alloc),
            said: Vec::new(alloc),
            sent: Vec::new(alloc),
            left: Vec::new(alloc),
        }
    }

    /// Whether two runs gave the same.
    pub fn same(&self, other: &Answer) -> bool {
        self.status == other.status
            && is_same(&self.output, &other.output)
            && is_same(&self.said, &other.said)
            && is_same(&self.sent, &other.sent)
            && is_same(&self.left, &other.left)
    }

    /// Whether the other wrote and sent what this one did first.
    pub fn is_cut_from(&self, other: &Answer) -> bool {
        is_prefix(&self.output, &other.output) && is_prefix(&self.sent, &other.sent)
    }
}

/// Whether two texts are the same.
fn is_same(text: &[u8], other: &[u8]) -> bool {
    text == other
}

/// Whether another text begins with this one.
fn is_prefix(text: &[u8], other: &[u8]) -> bool {
    other.starts_with(text)
}
