//! What can be shown of a client.

/// What is shown of a client.
#[derive(Clone, Copy)]
pub enum Shown {
    /// The picture of its view.
    View,
    /// The picture of its confirmed canvas.
    Confirmed,
    /// The snapshot of its confirmed canvas.
    Snapshot,
    /// The recording of the entries that it has taken in its epoch.
    Recording,
}
