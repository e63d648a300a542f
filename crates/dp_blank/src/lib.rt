//! Boards that can be had before anything was drawn on them.
#![tactic(auto)]

ghost use Rattle.std.specs.Prelude.{◌≡◌, IfOk};

use std::alloc::{AllocError, Global};

/// A board that can be had before anything was drawn on it.
pub trait BlankBoard: Sized {
    /// The board before anything was drawn on it.
    ghost blank: { Self };

    /// A board on which nothing was drawn.
    fn blank(alloc: Global) -> Result<Self, AllocError>
        ensures { IfOk result (λ board. board ≡ blank) };
}
