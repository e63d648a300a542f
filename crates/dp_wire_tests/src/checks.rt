//! What tests over tables say if they fail.

use std::process::Abort;

/// The test ends if this doesn't hold at a place of a table.
pub(crate) fn check(rt: &impl Abort, holds: bool, table: &str, place: usize) {
    assert!(rt; holds, "{table}: {place}");
}

/// Whether bytes are these.
pub(crate) fn are(bytes: &[u8], wanted: &[u8]) -> bool {
    bytes == wanted
}
