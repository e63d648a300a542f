//! What the program runs on.

use std::alloc::{AllocError, Global};

/// What the program runs on: threads, memory and a gate.
#[derive(Drop)]
pub struct Host<'a, R, G> {
    pub rt: &'a R,
    pub alloc: Global,
    pub gate: &'a G,
}

impl<'a, R, G> Copy for Host<'a, R, G> {}

impl<'a, R, G> Clone for Host<'a, R, G> {
    fn clone(&self) -> Result<Host<'a, R, G>, AllocError> {
        Ok(*self)
    }
}
