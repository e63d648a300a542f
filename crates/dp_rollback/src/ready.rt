//! What an act makes of a rollback.

ghost use Rattle.std.specs.Prelude.{◌≡◌};
ghost use Rattle.dp_rollback.specs.Rollback.{change_in};

use dp_board::{Board, Change, NextStrokes};
use dp_savepoints::{KeptAct, Mark, Save};
use std::marker::Model;

/// What an act makes of a rollback, with all the memory that it takes.
#[derive(Drop)]
pub struct Ready<B: Board> {
    pub(crate) act: KeptAct<B::Op>,
    pub(crate) mark: Option<Mark>,
    pub(crate) strokes: NextStrokes,
    pub(crate) depth: usize,
    pub(crate) board: B,
    pub(crate) saves: Vec<Save<B>>,
}

impl<B: Board> Model for Ready<B> {
    ghost use Rattle.std.specs.Prelude.{◌≡◌};
    ghost use Rattle.dp_rollback.specs.Rollback.{Next};

    ghost Value = { Next B B.Op };

    ghost view = { λ r. record {
      act = r.act;
      mark = r.mark;
      strokes = r.strokes;
      board = r.board;
      saves = r.saves.items;
    } };

    ghost invariant = { λ r. r.depth ≡ r.strokes.window.depth };
}

impl<B: Board> Ready<B> {
    /// The board after the act.
    pub fn board(&self) -> &B
        ensures { result.now ≡ self.now.board }
    {
        &self.board
    }

    /// What the act did to the board.
    pub fn change(&self) -> Change
        ensures { result ≡ change_in self.now }
    {
        if self.act.drawn {
            Change::Drew
        } else if self.mark.is_some() {
            Change::Rebuilt
        } else {
            Change::Nothing
        }
    }
}
