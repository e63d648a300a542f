//! Places that threads pass.

/// What threads pass at chosen places. A test's gate may hold one thread until another has passed.
/// A gate has no effect on any value.
pub trait Gate: Sync {
    /// Passes the gate, as the worker or job of this number, for the n-th time.
    fn pass(&self, who: u32, n: u64);
}

/// A gate that holds nobody.
#[derive(Clone, Copy, Debug)]
pub struct OpenGate;

impl Gate for OpenGate {
    fn pass(&self, _who: u32, _n: u64) {}
}
