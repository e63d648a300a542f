//! What threads may hand to each other and share.

use crate::canvas::Canvas;
use crate::deferred::DeferredBoard;

/// What is moved to another thread.
fn crosses<T: Send>() {}

/// What threads share.
fn shares<T: Sync>() {}

/// A canvas may go to another thread, and threads may share canvases and boards for pictures.
pub fn canvases_cross_threads() {
    crosses::<Canvas>();
    shares::<Canvas>();
    crosses::<DeferredBoard>();
    shares::<DeferredBoard>();
}
