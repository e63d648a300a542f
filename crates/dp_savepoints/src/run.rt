//! A board that is drawn anew, from a savepoint on.

ghost use Rattle.std.specs.Prelude.{◌≡◌, ℕ, ◌+◌, ◌-◌, ◌<◌, ◌≤◌, length, drop, map, max, nat_lt};
ghost use Rattle.std.specs.Prelude.{if◌then◌else◌, IfOk, OnOk};
ghost use Rattle.std.specs.List.{All};
ghost use Rattle.std.specs.List.Sorted.{IsNonDecreasing};
ghost use Rattle.dp_board.specs.Counts.{CountsFew};
ghost use Rattle.dp_savepoints.specs.Kept.{marked, commands_among};
ghost use Rattle.dp_savepoints.specs.Saves.{points_of};
ghost use Rattle.dp_savepoints.specs.Runs.{IsRunning, IsDrawnAnew, LeavesFew, save_anew};

use crate::kept::{KeptAct, Mark};
use crate::redraw::redraw;
use crate::saves::Save;
use dp_board::Board;
use dp_steps::Steps;
use std::alloc::{AllocError, Global};
use std::marker::Model;
use std::sync::Arc;
use std::sync::ledger::Ledger;

/// A board that is drawn anew: where it began, and where it is.
#[derive(Drop)]
pub struct Run<B> {
    pub start: usize,
    pub at: usize,
    pub board: B,
}

impl<B> Model for Run<B> {
    ghost use Rattle.dp_savepoints.specs.Runs.{Running};

    ghost Value = { Running B };

    ghost view = { λ r. record {
      start = r.start;
      at = r.at;
      board = r.board;
    } };
}

impl<B: Board> Run<B> {
    /// Draws on to a position, if that comes later.
    ///
    /// # Errors
    ///
    /// Some of the commands were drawn.
    fn go_to<D: Ledger, T: Ledger>(
        &mut self,
        kept: &[KeptAct<B::Op>],
        mark: Mark,
        position: usize,
        draws: &mut Steps<D>,
        tiles: &mut Steps<T>,
    ) -> Result<(), AllocError>
        requires begun { self.old.start ≤ self.old.at }
        requires inside { self.old.at - self.old.start ≤ length kept.now }
        requires within { position - self.old.start ≤ length kept.now }
        ensures start { self.new.start ≡ self.old.start }
        ensures at { OnOk result (self.new.at ≡ max self.old.at position) }
        ensures run { OnOk result ((from : B)
            → IsRunning B.drawn (map (marked mark) kept.now) from self.old
            → IsRunning B.drawn (map (marked mark) kept.now) from self.new) }
        ensures counts { CountsFew B.weight
            (commands_among (drop (self.old.at - self.old.start) kept.now)) draws.old draws.new
            tiles.old tiles.new }
        ensures left { OnOk result (LeavesFew B.weight kept.now (self.old.at - self.old.start)
            (self.new.at - self.new.start) draws.old draws.new tiles.old tiles.new) }
    {
        if position <= self.at {
            return Ok(());
        }
        let more = &kept[self.at - self.start..position - self.start];
        redraw(&mut self.board, more, mark, draws, tiles)?;
        self.at = position;
        Ok(())
    }

    /// The savepoint of a point, if it has come to that: `old`, if the point comes no later
    /// than the start.
    fn saved<D: Ledger, T: Ledger>(
        &self,
        alloc: Global,
        point: usize,
        old: &Arc<B>,
        draws: &mut Steps<D>,
        tiles: &mut Steps<T>,
    ) -> Result<Arc<B>, AllocError>
        ensures saved { IfOk result (λ save. save.value
            ≡ (if nat_lt self.now.start point then self.now.board else old.now.value)) }
        ensures no_draw { draws.new ≡ draws.old }
        ensures no_tile { tiles.new ≡ tiles.old }
    {
        if self.start < point {
            Ok(Arc::new(alloc, self.board.share(draws, tiles)?)?)
        } else {
            old.clone()
        }
    }

    /// The savepoints of points in order: as they were, or drawn anew if they come later than
    /// the start.
    ///
    /// # Errors
    ///
    /// Some of the commands were drawn.
    fn saves<D: Ledger, T: Ledger>(
        &mut self,
        alloc: Global,
        kept: &[KeptAct<B::Op>],
        mark: Mark,
        old: &[Save<B>],
        draws: &mut Steps<D>,
        tiles: &mut Steps<T>,
    ) -> Result<Vec<Save<B>>, AllocError>
        requires begun { self.old.at ≡ self.old.start }
        requires rising { IsNonDecreasing (points_of old.now) }
        requires within { All (λ point. point - self.old.start ≤ length kept.now)
            (points_of old.now) }
        ensures start { self.new.start ≡ self.old.start }
        ensures begun { OnOk result (self.new.start ≤ self.new.at) }
        ensures inside { OnOk result (self.new.at - self.new.start ≤ length kept.now) }
        ensures run { OnOk result ((from : B)
            → IsRunning B.drawn (map (marked mark) kept.now) from self.old
            → IsRunning B.drawn (map (marked mark) kept.now) from self.new) }
        ensures saves { IfOk result (λ saves. (from : B)
            → IsRunning B.drawn (map (marked mark) kept.now) from self.old → saves.items
            ≡ map (save_anew B.drawn (map (marked mark) kept.now) self.old.start from) old.now) }
        ensures counts { CountsFew B.weight (commands_among kept.now) draws.old draws.new
            tiles.old tiles.new }
        ensures left { OnOk result (LeavesFew B.weight kept.now 0
            (self.new.at - self.new.start) draws.old draws.new tiles.old tiles.new) }
    {
        let mut saves = Vec::with_capacity(alloc, old.len())?;
        for save in old {
            self.go_to(kept, mark, save.point, draws, tiles)?;
            let board = self.saved(alloc, save.point, &save.board, draws, tiles)?;
            saves.push(Save {
                point: save.point,
                board,
            })?;
        }
        Ok(saves)
    }

    /// The board with all acts, and the savepoints of points in order: as they were, or drawn anew
    /// if they come later than the start.
    ///
    /// # Errors
    ///
    /// Some of the commands were drawn.
    pub fn finish<D: Ledger, T: Ledger>(
        mut self,
        alloc: Global,
        kept: &[KeptAct<B::Op>],
        mark: Mark,
        saves: &[Save<B>],
        draws: &mut Steps<D>,
        tiles: &mut Steps<T>,
    ) -> Result<(B, Vec<Save<B>>), AllocError>
        requires begun { self.at ≡ self.start }
        requires rising { IsNonDecreasing (points_of saves.now) }
        requires within { All (λ point. point - self.start ≤ length kept.now)
            (points_of saves.now) }
        ensures redrawn { IfOk result (λ made. (from : B)
            → IsRunning B.drawn (map (marked mark) kept.now) from self
            → IsDrawnAnew B.drawn (map (marked mark) kept.now) from self.start saves.now made.0
            made.1.items) }
        ensures counts { CountsFew B.weight (commands_among kept.now) draws.old draws.new
            tiles.old tiles.new }
    {
        let saves = self.saves(alloc, kept, mark, saves, draws, tiles)?;
        let more = &kept[self.at - self.start..];
        redraw(&mut self.board, more, mark, draws, tiles)?;
        Ok((self.board, saves))
    }
}
