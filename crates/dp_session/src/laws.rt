//! A law of sessions, the contract of a function that does nothing.

use crate::session::Session;
use dp_keeper::Keeper;

/// What is moved to another thread.
fn crosses<T: Send>() {}

/// A session over a store that may cross threads may cross them.
pub fn sessions_cross_threads<K: Keeper + Send>() {
    crosses::<Session<K>>();
}
