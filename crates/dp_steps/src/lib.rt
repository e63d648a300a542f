//! A counter of steps that takes no bytes at run time: contracts see how many were taken.
#![tactic(auto)]

ghost use Rattle.std.specs.Prelude.{◌≡◌, ◌+◌, ◌<◌};

use std::marker::Model;
use std::sync::ledger::{Blank, Book, Ledger, Share};

/// A step that was counted. It takes no bytes, and comes from `tick` alone: what is built with one
/// was counted.
#[derive(Drop)]
pub struct Counted(());

/// How many steps were taken, over a ledger that no one else has. Nothing but `tick` changes it. It
/// is seen as that number.
#[derive(Drop)]
pub struct Steps<L: Ledger> {
    book: Book<L>,
    share: Share<L>,
}

impl<L: Ledger> Model for Steps<L> {
    ghost use Rattle.std.specs.Prelude.{ℕ, ◌<◌};

    ghost Value = { ℕ };

    ghost view = { λ s. s.book.total };

    ghost invariant = { λ s. 0 < s.share.parts };
}

impl<L: Ledger> Steps<L> {
    /// A counter at 0, over the ledger of the blank.
    pub fn new(blank: Blank) -> Self
        requires name { blank.name ≡ L.name }
        requires parts { blank.parts ≡ L.parts }
        requires some { 0 < blank.parts }
        ensures { result ≡ 0 }
    {
        let (book, share) = blank.open::<L>();
        Steps { book, share }
    }

    /// Counts one step.
    pub fn tick(&mut self) -> Counted
        ensures { self.new ≡ self.old + 1 }
    {
        self.book.add(&mut self.share, 1);
        Counted(())
    }
}
