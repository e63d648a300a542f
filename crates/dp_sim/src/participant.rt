//! How a client stands with its session.

/// Whether a client still sends.
#[derive(Clone, Copy, PartialEq, Eq)]
pub enum LinkState {
    /// It does.
    Connected,
    /// Its Disconnect is on the uplink.
    Leaving,
    /// Its connection is closed.
    Closed,
}
