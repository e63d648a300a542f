//! A confirmed board, and the fork on it.

ghost use Rattle.std.specs.Prelude.{◌≡◌, ℕ, ◌∷◌, ◌++◌, [], true, length, List, IfOk, OnOk, OnErr};
ghost use Rattle.std.specs.List.{fold};
ghost use Rattle.dp_board.specs.declared.act.Act.TheVariants.{Other};
ghost use Rattle.dp_board.specs.declared.act.Change.{Change as Changed};
ghost use Rattle.dp_board.specs.declared.act.UserAct.{UserAct as UserActOf};
ghost use Rattle.dp_board.specs.Commands.{command_of};
ghost use Rattle.dp_board.specs.Counts.{CountsFew};
ghost use Rattle.dp_board.specs.Replay.{replay};
ghost use Rattle.dp_fork.specs.Fork.{MovesBy, commands_in, is_settled, left_by};
ghost use Rattle.dp_screen.specs.Due.{CountsOnBoth};
ghost use Rattle.dp_screen.specs.Screen.{ScreenGoesOn, IsScreenOf};

use dp_board::{Act, Board};
use dp_fork::{Fork, Own};
use dp_rollback::{Rollback, replay_goes_on};
use dp_steps::Steps;
use std::alloc::{AllocError, Global};
use std::marker::Model;
use std::sync::ledger::Ledger;

/// What a painter sees: a board that goes on by the acts that are taken, and the fork of those that
/// are said and not answered. Both are kept drawn.
#[derive(Drop)]
pub struct Screen<B: Board> {
    confirmed: Rollback<B>,
    fork: Fork<B>,
}

impl<B: Board> Model for Screen<B> {
    ghost use Rattle.dp_screen.specs.Screen.{Screened, but_for_room};

    ghost Value = { Screened B B.Op };

    ghost view = { λ s. record { confirmed = but_for_room s.confirmed; fork = s.fork } };
}

impl<B: Board> Screen<B> {
    /// A screen before the first act, if undo and redo reach the last `depth` points.
    pub fn new(alloc: Global, blank: B, depth: u32) -> Result<Self, AllocError>
        ensures screen { IfOk result (IsScreenOf B.is_board B.drawn blank depth []) }
        ensures pending { IfOk result (λ screen. screen.fork.acts ≡ []) }
    {
        let confirmed = Rollback::new(alloc, blank, depth)?;
        confirmed.board().known();
        Ok(Screen {
            confirmed,
            fork: Fork::new(alloc),
        })
    }

    /// The confirmed board: the acts taken, replayed. It takes no memory and draws nothing.
    pub fn confirmed(&self) -> &B
        ensures { (blank : B) (depth : ℕ) (acts : List (UserActOf B.Op))
            → IsScreenOf B.is_board B.drawn blank depth acts self.now
            → result.now ≡ replay B.drawn blank depth acts }
    {
        self.confirmed.board()
    }

    /// The view: the confirmed board with the commands that aren't answered drawn on it, in order.
    /// It takes no memory and draws nothing.
    pub fn view(&self) -> &B
        ensures { (blank : B) (depth : ℕ) (acts : List (UserActOf B.Op))
            → IsScreenOf B.is_board B.drawn blank depth acts self.now
            → result.now
            ≡ fold B.drawn (replay B.drawn blank depth acts) (commands_in self.now.fork.acts) }
    {
        self.fork.view(self.confirmed.board())
    }

    /// How many acts aren't answered. It takes no memory.
    pub fn pending_len(&self) -> usize
        ensures { result ≡ length self.now.fork.acts }
    {
        self.fork.pending_len()
    }

    /// Says an act.
    ///
    /// # Errors
    ///
    /// The screen is as it was.
    pub fn say<D: Ledger, T: Ledger>(
        &mut self,
        act: Act<B::Op>,
        draws: &mut Steps<D>,
        tiles: &mut Steps<T>,
    ) -> Result<(), AllocError>
        ensures screen { OnOk result ((blank : B) (depth : ℕ) (acts : List (UserActOf B.Op))
            → IsScreenOf B.is_board B.drawn blank depth acts self.old
            → IsScreenOf B.is_board B.drawn blank depth acts self.new) }
        ensures pending { OnOk result (self.new.fork.acts ≡ self.old.fork.acts ++ act ∷ []) }
        ensures err { OnErr result (self.new ≡ self.old) }
        ensures counts { CountsFew B.weight (command_of act true) draws.old draws.new tiles.old
            tiles.new }
    {
        self.fork.say(self.confirmed.board(), act, draws, tiles)
    }

    /// Takes the next act of the history, which is this to the fork.
    ///
    /// # Errors
    ///
    /// The screen is as it was. Some commands may have been drawn on a copy.
    pub fn take<D: Ledger, T: Ledger>(
        &mut self,
        user: u8,
        act: &Act<B::Op>,
        own: Own,
        draws: &mut Steps<D>,
        tiles: &mut Steps<T>,
    ) -> Result<(), AllocError>
        ensures screen { OnOk result (ScreenGoesOn B.is_board B.drawn
            (record { user = user; act = act.now }) own self.old self.new) }
        ensures pending { OnOk result (self.new.fork.acts ≡ left_by own self.old.fork.acts) }
        ensures err { OnErr result (self.new ≡ self.old) }
        ensures counts { CountsOnBoth B.is_board B.drawn B.weight B.are_apart
            (record { user = user; act = act.now }) own self.old draws.old draws.new tiles.old
            tiles.new }
    {
        if self.fork.is_quiet(act, own) {
            self.take_quietly(user, act, own, draws, tiles)
        } else {
            self.take_anew(user, act, own, draws, tiles)
        }
    }

    /// Takes an act for which the fork needs no drawing.
    fn take_quietly<D: Ledger, T: Ledger>(
        &mut self,
        user: u8,
        act: &Act<B::Op>,
        own: Own,
        draws: &mut Steps<D>,
        tiles: &mut Steps<T>,
    ) -> Result<(), AllocError>
        requires { (change : Changed) → MovesBy change act.now
            → is_settled act.now change own self.old.fork.acts ≡ true }
        ensures screen { OnOk result (ScreenGoesOn B.is_board B.drawn
            (record { user = user; act = act.now }) own self.old self.new) }
        ensures pending { OnOk result (self.new.fork.acts ≡ left_by own self.old.fork.acts) }
        ensures err { OnErr result (self.new ≡ self.old) }
        ensures counts { CountsOnBoth B.is_board B.drawn B.weight B.are_apart
            (record { user = user; act = act.now }) own self.old draws.old draws.new tiles.old
            tiles.new }
    {
        replay_goes_on::<B, B::Op>();
        let change = self.confirmed.take(user, act, draws, tiles)?;
        self.confirmed.board().known();
        self.fork.follow(act, change, own, draws, tiles);
        Ok(())
    }

    /// Takes an act for which the fork may have to be drawn. Both boards are made ready first.
    fn take_anew<D: Ledger, T: Ledger>(
        &mut self,
        user: u8,
        act: &Act<B::Op>,
        own: Own,
        draws: &mut Steps<D>,
        tiles: &mut Steps<T>,
    ) -> Result<(), AllocError>
        ensures screen { OnOk result (ScreenGoesOn B.is_board B.drawn
            (record { user = user; act = act.now }) own self.old self.new) }
        ensures pending { OnOk result (self.new.fork.acts ≡ left_by own self.old.fork.acts) }
        ensures err { OnErr result (self.new ≡ self.old) }
        ensures counts { CountsOnBoth B.is_board B.drawn B.weight B.are_apart
            (record { user = user; act = act.now }) own self.old draws.old draws.new tiles.old
            tiles.new }
    {
        replay_goes_on::<B, B::Op>();
        let ready = self.confirmed.ready(user, act, draws, tiles)?;
        let change = ready.change();
        self.fork
            .settle(ready.board(), act, change, own, draws, tiles)?;
        self.confirmed.put(ready);
        Ok(())
    }

    /// Begins anew at a mark, an act of this user that has no effect on strokes: what was taken and
    /// what was said are let go. It draws nothing.
    ///
    /// # Errors
    ///
    /// The screen is as it was.
    pub fn begin_anew<D: Ledger, T: Ledger>(
        &mut self,
        alloc: Global,
        blank: B,
        depth: u32,
        user: u8,
        draws: &mut Steps<D>,
        tiles: &mut Steps<T>,
    ) -> Result<(), AllocError>
        ensures screen { OnOk result (IsScreenOf B.is_board B.drawn blank depth
            ((record { user = user; act = Other }) ∷ []) self.new) }
        ensures pending { OnOk result (self.new.fork.acts ≡ []) }
        ensures err { OnErr result (self.new ≡ self.old) }
        ensures no_draw { draws.new ≡ draws.old }
        ensures no_tile { tiles.new ≡ tiles.old }
    {
        let mut fresh = Screen::new(alloc, blank, depth)?;
        fresh.take(user, &Act::Other, Own::Stranger, draws, tiles)?;
        *self = fresh;
        Ok(())
    }
}
