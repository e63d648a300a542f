//! Pages of a history.

/// Entries that were put as frames: a number of those of an epoch, from this place on.
#[derive(Clone, Copy)]
pub struct Page {
    pub epoch: u32,
    pub at: u32,
    pub count: usize,
}
