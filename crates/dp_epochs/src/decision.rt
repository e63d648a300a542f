//! What becomes of a message.

/// What becomes of a message that an open connection says.
#[derive(Clone, Copy)]
pub enum Decision {
    /// Nothing.
    Ignore,
    /// Its connection takes up the live epoch.
    Acknowledge,
    /// It is placed.
    Place,
    /// An entry is placed that says of what kind it was.
    Filter,
    /// A reset of its connection begins, in place of any other.
    BeginReset,
    /// Its command joins the reset that its connection sends.
    AddPart,
    /// It passes the limits of a reset: it is filtered, and the reset is dropped.
    DropReset,
    /// The reset that its connection sends ends, and the next epoch opens.
    OpenEpoch,
}
