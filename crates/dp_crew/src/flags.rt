//! What workers note beside their reports.

/// What workers note beside their reports.
#[derive(Clone, Copy)]
pub struct Flags {
    /// Whether memory ran out.
    pub memory: bool,
    /// Whether one of the acts is a fault.
    pub fault: bool,
    /// Whether a wire failed.
    pub wire: bool,
}
