//! What is said and isn't answered.

ghost use Rattle.std.specs.Prelude.{◌≡◌, ◌≤◌, ◌∷◌, ◌++◌, [], true, false, not, ◌&&◌, ◌||◌};
ghost use Rattle.std.specs.Prelude.{length, drop, take};
ghost use Rattle.std.specs.Prelude.{None, OnOk, OnErr, List, option_map};
ghost use Rattle.std.specs.List.{fold, list_any};
ghost use Rattle.dp_board.specs.declared.act.Act.{Act as ActOf};
ghost use Rattle.dp_board.specs.declared.act.Change.{Change as Changed};
ghost use Rattle.dp_board.specs.Commands.{command_of};
ghost use Rattle.dp_board.specs.Moves.{is_draw};
ghost use Rattle.dp_board.specs.Counts.{CountsFew};
ghost use Rattle.dp_fork.specs.Fork.{Answers, Became, IsForkOf, MovesBy, Shows};
ghost use Rattle.dp_fork.specs.Fork.{board_stays, commands_in, due_on_fork, is_calm, is_quiet};
ghost use Rattle.dp_fork.specs.Fork.{is_apart, is_rebuilt, is_settled, is_stranger, left_by};
ghost use Rattle.dp_fork.specs.Fork.{seen_on};

use crate::own::Own;
use crate::pending::{draw_from, has_command, is_apart, is_draw, may_move};
use dp_board::{Act, Board, Change};
use dp_steps::Steps;
use std::alloc::{AllocError, Global};
use std::collections::VecDeque;
use std::marker::Model;
use std::sync::ledger::Ledger;

/// What an act that is said adds to the count of what was said lately, and what a stranger's
/// command takes off. Then the most that is counted.
const A_SAY: u32 = 3;

const A_STRANGER: u32 = 2;

const MOST_SAID: u32 = 512;

/// From what count on the board stays that shows no command of the fork, until it is down to 0.
const ENOUGH_SAID: u32 = 384;

/// Acts that are said and aren't answered, in order, and a board that shows their commands on a
/// confirmed one. It makes a board of its own when there is a command to show. If much was said
/// lately the board stays when that is answered, and follows the confirmed one. So the next command
/// is drawn on tiles that are the board's alone.
#[derive(Drop)]
pub struct Fork<B: Board> {
    board: Option<B>,
    acts: VecDeque<Act<B::Op>>,
    said_lately: u32,
    stays: bool,
}

impl<B: Board> Model for Fork<B> {
    ghost use Rattle.dp_fork.specs.Fork.{Forked};

    ghost Value = { Forked B B.Op };

    ghost view = { λ f. record { board = f.board; acts = f.acts.items } };
}

/// Draws the command of an act, if it is one: on the board, or if there is none on a share of
/// the confirmed one.
///
/// # Errors
///
/// The board is as it was.
fn show<B: Board, D: Ledger, T: Ledger>(
    board: &mut Option<B>,
    confirmed: &B,
    act: &Act<B::Op>,
    draws: &mut Steps<D>,
    tiles: &mut Steps<T>,
) -> Result<(), AllocError>
    ensures shows { OnOk result ((commands : List B.Op)
        → Shows B.drawn confirmed.now commands board.old
        → Shows B.drawn confirmed.now (commands ++ command_of act.now true) board.new) }
    ensures err { OnErr result (board.new ≡ board.old) }
    ensures counts { CountsFew B.weight (command_of act.now true) draws.old draws.new tiles.old
        tiles.new }
{
    let Act::Draw(op) = act else {
        return Ok(());
    };
    match board {
        Some(shown) => shown.draw(op, draws, tiles),
        None => {
            let mut shown = confirmed.share(draws, tiles)?;
            shown.draw(op, draws, tiles)?;
            *board = Some(shown);
            Ok(())
        }
    }
}

/// Draws the operation on the board, if there is one.
///
/// # Errors
///
/// The board is as it was.
fn draw_where<B: Board, D: Ledger, T: Ledger>(
    board: &mut Option<B>,
    op: &B::Op,
    draws: &mut Steps<D>,
    tiles: &mut Steps<T>,
) -> Result<(), AllocError>
    ensures drawn { OnOk result (board.new ≡ option_map (λ b. B.drawn b op.now) board.old) }
    ensures err { OnErr result (board.new ≡ board.old) }
    ensures counts { CountsFew B.weight (op.now ∷ []) draws.old draws.new tiles.old tiles.new }
{
    match board {
        Some(shown) => shown.draw(op, draws, tiles),
        None => Ok(()),
    }
}

impl<B: Board> Fork<B> {
    /// A fork without acts. It takes no memory.
    pub fn new(alloc: Global) -> Self
        ensures { result ≡ record { board = None; acts = [] } }
    {
        Fork {
            board: None,
            acts: VecDeque::new(alloc),
            said_lately: 0,
            stays: false,
        }
    }

    /// How many acts aren't answered. It takes no memory.
    pub fn pending_len(&self) -> usize
        ensures { result ≡ length self.now.acts }
    {
        self.acts.len()
    }

    /// What is seen on the confirmed board: the acts' commands are drawn on it. It takes no memory.
    pub fn view<'a>(&'a self, confirmed: &'a B) -> &'a B
        ensures value { result.now ≡ seen_on confirmed.now self.now }
        ensures drawn { IsForkOf B.is_board B.drawn confirmed.now self.now
            → result.now ≡ fold B.drawn confirmed.now (commands_in self.now.acts) }
    {
        match &self.board {
            Some(board) => board,
            None => confirmed,
        }
    }

    /// Adds an act that is said.
    ///
    /// # Errors
    ///
    /// The fork is as it was.
    pub fn say<D: Ledger, T: Ledger>(
        &mut self,
        confirmed: &B,
        act: Act<B::Op>,
        draws: &mut Steps<D>,
        tiles: &mut Steps<T>,
    ) -> Result<(), AllocError>
        ensures acts { OnOk result (self.new.acts ≡ self.old.acts ++ act ∷ []) }
        ensures fork { OnOk result (IsForkOf B.is_board B.drawn confirmed.now self.old
            → IsForkOf B.is_board B.drawn confirmed.now self.new) }
        ensures err { OnErr result (self.new ≡ self.old) }
        ensures counts { CountsFew B.weight (command_of act true) draws.old draws.new tiles.old
            tiles.new }
    {
        self.acts.reserve(1)?;
        show(&mut self.board, confirmed, &act, draws, tiles)?;
        match self.acts.push_back(act) {
            Ok(()) => {
                self.said_lately = self.said_lately.min(MOST_SAID - A_SAY) + A_SAY;
                self.stays = self.stays || self.said_lately >= ENOUGH_SAID;
                Ok(())
            }
            Err(_) => unreachable!(),
        }
    }

    /// From which place on acts are left after an answer.
    fn first_left(&self, own: Own) -> usize
        ensures within { result ≤ length self.now.acts }
        ensures left { drop result self.now.acts ≡ left_by own self.now.acts }
    {
        match own {
            Own::Stranger => 0,
            Own::Echo | Own::Dropped => self.acts.len().min(1),
            Own::Lost => self.acts.len(),
        }
    }

    /// Whether an act that moves no group draws nothing on the fork's board.
    fn is_calm(&self, act: &Act<B::Op>, own: Own) -> bool
        ensures { result ≡ is_calm act.now own self.now.acts }
    {
        match own {
            Own::Stranger => !is_draw(act),
            Own::Echo | Own::Lost => true,
            Own::Dropped => !is_draw(act) && !self.begins_with_command(),
        }
    }

    /// Whether the first act is a command.
    fn begins_with_command(&self) -> bool
        ensures { result ≡ list_any is_draw (take 1 self.now.acts) }
    {
        match self.acts.front() {
            Some(act) => is_draw(act),
            None => false,
        }
    }

    /// Whether the fork needs no drawing if such an act is taken, whatever it changes.
    pub fn is_quiet(&self, act: &Act<B::Op>, own: Own) -> bool
        ensures value { result ≡ is_quiet act.now own self.now.acts }
        ensures settled { result ≡ true → (change : Changed) → MovesBy change act.now
            → is_settled act.now change own self.now.acts ≡ true }
    {
        !has_command(&self.acts, self.first_left(own)) || (!may_move(act) && self.is_calm(act, own))
    }

    /// Whether it needs no drawing if the act has changed the confirmed board so.
    fn is_settled(&self, act: &Act<B::Op>, change: Change, own: Own) -> bool
        ensures { result ≡ is_settled act.now change own self.now.acts }
    {
        !has_command(&self.acts, self.first_left(own))
            || (change != Change::Rebuilt && self.is_calm(act, own))
    }

    /// Takes what is answered from the fork.
    fn forget(&mut self, own: Own)
        ensures { self.new ≡ record self.old { acts = left_by own self.old.acts } }
    {
        match own {
            Own::Stranger => {}
            Own::Echo | Own::Dropped => {
                let _answered = self.acts.pop_front();
            }
            Own::Lost => self.acts.clear(),
        }
    }

    /// Goes on to another confirmed board, if that needs no drawing. It takes no memory.
    pub fn answer(&mut self, own: Own)
        ensures acts { self.new.acts ≡ left_by own self.old.acts }
        ensures fork { (before now : B) (act : ActOf B.Op) (change : Changed)
            → IsForkOf B.is_board B.drawn before self.old → B.is_board now
            → Became B.drawn before now act change → Answers own act self.old.acts
            → is_settled act change own self.old.acts ≡ true
            → IsForkOf B.is_board B.drawn now self.new }
    {
        self.forget(own);
        if !has_command(&self.acts, 0) {
            self.clear_board();
        }
    }

    /// Goes on to the board that an act made of the confirmed one, if the fork needs no drawing for
    /// that. If much was said lately its board stays, and a stranger's command is drawn on it too.
    pub fn follow<D: Ledger, T: Ledger>(
        &mut self,
        act: &Act<B::Op>,
        change: Change,
        own: Own,
        draws: &mut Steps<D>,
        tiles: &mut Steps<T>,
    )
        ensures acts { self.new.acts ≡ left_by own self.old.acts }
        ensures fork { is_settled act.now change own self.old.acts ≡ true → (before now : B)
            → IsForkOf B.is_board B.drawn before self.old → B.is_board now
            → Became B.drawn before now act.now change → Answers own act.now self.old.acts
            → IsForkOf B.is_board B.drawn now self.new }
        ensures counts { CountsFew B.weight
            (due_on_fork B.are_apart act.now change own self.old.acts) draws.old draws.new
            tiles.old tiles.new }
    {
        match act {
            Act::Draw(op) if self.is_beside(op, change, own) => {
                self.follow_command(op, draws, tiles)
            }
            _ => self.keep(act, change, own),
        }
    }

    /// Goes on to the confirmed board with a stranger's command, if no command is left. The board
    /// has it drawn too, or is let go.
    fn follow_command<D: Ledger, T: Ledger>(
        &mut self,
        op: &B::Op,
        draws: &mut Steps<D>,
        tiles: &mut Steps<T>,
    )
        ensures acts { self.new.acts ≡ self.old.acts }
        ensures fork { list_any is_draw self.old.acts ≡ false → (before : B)
            → IsForkOf B.is_board B.drawn before self.old
            → IsForkOf B.is_board B.drawn (B.drawn before op.now) self.new }
        ensures counts { CountsFew B.weight (op.now ∷ []) draws.old draws.new tiles.old tiles.new }
    {
        B::laws();
        self.said_lately = self.said_lately.saturating_sub(A_STRANGER);
        self.stays = self.stays && self.said_lately > 0;
        if !self.stays {
            self.clear_board();
            return;
        }
        match draw_where(&mut self.board, op, draws, tiles) {
            Ok(()) => {}
            Err(_) => self.clear_board(),
        }
    }

    /// Goes on to another confirmed board, if that needs no drawing. The board stays if it shows
    /// what is left of the fork, and much was said lately. It takes no memory.
    fn keep(&mut self, act: &Act<B::Op>, change: Change, own: Own)
        ensures acts { self.new.acts ≡ left_by own self.old.acts }
        ensures fork { is_settled act.now change own self.old.acts ≡ true → (before now : B)
            → IsForkOf B.is_board B.drawn before self.old → B.is_board now
            → Became B.drawn before now act.now change → Answers own act.now self.old.acts
            → IsForkOf B.is_board B.drawn now self.new }
    {
        if self.stays && self.shows_rest(act, change, own) {
            self.forget(own);
        } else {
            self.answer(own);
        }
    }

    /// Whether the board shows what is left on the board that the act made of the confirmed one.
    fn shows_rest(&self, act: &Act<B::Op>, change: Change, own: Own) -> bool
        ensures { result ≡ board_stays act.now change own self.now.acts }
    {
        change != Change::Rebuilt && own != Own::Lost && self.is_calm(act, own)
    }

    /// Lets the board go.
    fn clear_board(&mut self)
        ensures { self.new ≡ record self.old { board = None } }
    {
        self.board = None;
    }

    /// Goes on to another confirmed board, which an act changed so.
    ///
    /// # Errors
    ///
    /// The fork is as it was. Some commands may have been drawn on a share of the confirmed board.
    pub fn settle<D: Ledger, T: Ledger>(
        &mut self,
        confirmed: &B,
        act: &Act<B::Op>,
        change: Change,
        own: Own,
        draws: &mut Steps<D>,
        tiles: &mut Steps<T>,
    ) -> Result<(), AllocError>
        ensures acts { OnOk result (self.new.acts ≡ left_by own self.old.acts) }
        ensures fork { OnOk result ((before : B)
            → IsForkOf B.is_board B.drawn before self.old
            → Became B.drawn before confirmed.now act.now change
            → Answers own act.now self.old.acts
            → IsForkOf B.is_board B.drawn confirmed.now self.new) }
        ensures err { OnErr result (self.new ≡ self.old) }
        ensures counts { CountsFew B.weight
            (due_on_fork B.are_apart act.now change own self.old.acts) draws.old draws.new
            tiles.old tiles.new }
    {
        confirmed.known();
        if self.is_settled(act, change, own) {
            self.answer(own);
            return Ok(());
        }
        match act {
            Act::Draw(op) if self.is_beside(op, change, own) => {
                self.draw_beside(op, draws, tiles)
            }
            _ => self.draw_anew(confirmed, own, draws, tiles),
        }
    }

    /// Whether a command is a stranger's and apart from each of the fork's.
    fn is_beside(&self, op: &B::Op, change: Change, own: Own) -> bool
        ensures { result ≡ (not (is_rebuilt change) && is_stranger own
            && is_apart B.are_apart op.now (commands_in self.now.acts)) }
    {
        change != Change::Rebuilt && own == Own::Stranger && is_apart::<B>(op, &self.acts)
    }

    /// Draws a command that is apart from each of the fork's on its board.
    fn draw_beside<D: Ledger, T: Ledger>(
        &mut self,
        op: &B::Op,
        draws: &mut Steps<D>,
        tiles: &mut Steps<T>,
    ) -> Result<(), AllocError>
        ensures acts { self.new.acts ≡ self.old.acts }
        ensures fork { OnOk result ((before : B)
            → IsForkOf B.is_board B.drawn before self.old
            → is_apart B.are_apart op.now (commands_in self.old.acts) ≡ true
            → IsForkOf B.is_board B.drawn (B.drawn before op.now) self.new) }
        ensures err { OnErr result (self.new ≡ self.old) }
        ensures counts { CountsFew B.weight (op.now ∷ []) draws.old draws.new tiles.old tiles.new }
    {
        B::laws();
        draw_where(&mut self.board, op, draws, tiles)
    }

    /// Draws the commands that are left after an answer on a share of the confirmed board.
    fn draw_anew<D: Ledger, T: Ledger>(
        &mut self,
        confirmed: &B,
        own: Own,
        draws: &mut Steps<D>,
        tiles: &mut Steps<T>,
    ) -> Result<(), AllocError>
        ensures acts { OnOk result (self.new.acts ≡ left_by own self.old.acts) }
        ensures fork { OnOk result (B.is_board confirmed.now
            → IsForkOf B.is_board B.drawn confirmed.now self.new) }
        ensures err { OnErr result (self.new ≡ self.old) }
        ensures counts { CountsFew B.weight (commands_in (left_by own self.old.acts)) draws.old
            draws.new tiles.old tiles.new }
    {
        let mut board = confirmed.share(draws, tiles)?;
        let first = self.first_left(own);
        draw_from(&mut board, &self.acts, first, draws, tiles)?;
        self.board = Some(board);
        self.forget(own);
        Ok(())
    }
}
