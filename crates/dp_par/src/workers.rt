//! How many threads may work at the same time.

/// How many threads may work at the same time, if 0 is 1. Then the gate that their jobs pass, each
/// by its place and 0.
#[derive(Drop)]
pub struct Workers<'a, G> {
    pub count: u32,
    pub gate: &'a G,
}
