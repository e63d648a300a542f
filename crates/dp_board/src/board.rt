//! What a board is to those who draw on it.

ghost use Rattle.std.specs.Prelude.{◌≡◌, ℕ, ◌+◌, ◌≤◌, Bool, true, IfOk, OnOk, OnErr};

use dp_steps::Steps;
use std::alloc::{AllocError, Global};
use std::sync::ledger::Ledger;

/// A board, on which operations are drawn. What is said of one is said of its value, which a model
/// may give it. Counters see how many operations were drawn and how many tiles were made.
pub trait Board: Sized + Drop {
    /// What is drawn.
    type Op: Drop;

    /// Holds of each value of the type.
    ghost is_board: { Self → Type 0 };

    /// The board after an operation.
    ghost drawn: { Self → Self.Op → Self };

    /// The most tiles that a draw of the operation makes.
    ghost weight: { Self.Op → ℕ };

    /// The two operations touch nothing in common.
    ghost are_apart: { Self.Op → Self.Op → Bool };

    /// The value is a board.
    fn known(&self)
        ensures { is_board self.now };

    /// Draws the operation, and counts one draw.
    ///
    /// # Errors
    ///
    /// The board is as it was, and no draw is counted, but tiles that were made are.
    fn draw<D: Ledger, T: Ledger>(
        &mut self,
        op: &Self::Op,
        draws: &mut Steps<D>,
        tiles: &mut Steps<T>,
    ) -> Result<(), AllocError>
        ensures board { OnOk result (self.new ≡ drawn self.old op.now) }
        ensures one_draw { OnOk result (draws.new ≡ draws.old + 1) }
        ensures err_board { OnErr result (self.new ≡ self.old) }
        ensures err_draws { OnErr result (draws.new ≡ draws.old) }
        ensures tiles_rise { tiles.old ≤ tiles.new }
        ensures few_tiles { tiles.new ≤ tiles.old + weight op.now };

    /// A second board of the same value. It draws nothing and makes no tile.
    fn share<D: Ledger, T: Ledger>(
        &self,
        draws: &mut Steps<D>,
        tiles: &mut Steps<T>,
    ) -> Result<Self, AllocError>
        ensures same { IfOk result (λ other. other ≡ self.now) }
        ensures no_draw { draws.new ≡ draws.old }
        ensures no_tile { tiles.new ≡ tiles.old };

    /// An equal operation.
    fn copy_op(alloc: Global, op: &Self::Op) -> Result<Self::Op, AllocError>
        ensures { IfOk result (λ copy. copy ≡ op.now) };

    /// Whether the two operations touch nothing in common.
    fn apart(a: &Self::Op, b: &Self::Op) -> bool
        ensures { result ≡ are_apart a.now b.now };

    /// Laws, which hold of every value and operation: what is drawn on a board leaves a board, and
    /// operations that are apart may be drawn in either order.
    fn laws()
        ensures keeps { (board : Self) (op : Self.Op) → is_board board → is_board (drawn board op) }
        ensures commutes { (board : Self) (a b : Self.Op) → is_board board → are_apart a b ≡ true
            → drawn (drawn board a) b ≡ drawn (drawn board b) a };
}
