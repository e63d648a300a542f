//! How acts are drawn from a savepoint on.

ghost use Rattle.std.specs.Prelude.{◌≡◌, true, map, OnOk, OnErr};
ghost use Rattle.std.specs.List.{fold};
ghost use Rattle.std.specs.Option.{ForSome};
ghost use Rattle.dp_board.specs.Commands.{command_of};
ghost use Rattle.dp_board.specs.Counts.{CountsFew};
ghost use Rattle.dp_savepoints.specs.Kept.{marked, drawn_among, commands_among};

use crate::kept::{KeptAct, Mark};
use crate::saves::forget;
use dp_board::{Act, Board};
use dp_steps::Steps;
use std::alloc::AllocError;
use std::sync::Arc;
use std::sync::ledger::Ledger;

/// Draws the command of an act, if it is one and is to be drawn.
///
/// # Errors
///
/// The board is as it was.
pub fn draw_act<B: Board, D: Ledger, T: Ledger>(
    board: &mut B,
    act: &Act<B::Op>,
    drawn: bool,
    draws: &mut Steps<D>,
    tiles: &mut Steps<T>,
) -> Result<(), AllocError>
    ensures board { OnOk result (board.new ≡ fold B.drawn board.old (command_of act.now drawn)) }
    ensures err { OnErr result (board.new ≡ board.old) }
    ensures counts { CountsFew B.weight (command_of act.now true) draws.old draws.new tiles.old
        tiles.new }
{
    match act {
        Act::Draw(op) if drawn => board.draw(op, draws, tiles),
        _ => Ok(()),
    }
}

/// Draws the command of an act that comes next, if it is one. The board is then no more what it
/// was saved as last.
///
/// # Errors
///
/// The board is as it was.
pub fn draw_next<B: Board, D: Ledger, T: Ledger>(
    board: &mut B,
    last: &mut Option<Arc<B>>,
    act: &Act<B::Op>,
    draws: &mut Steps<D>,
    tiles: &mut Steps<T>,
) -> Result<(), AllocError>
    requires { ForSome last.old (λ save. save.value ≡ board.old) }
    ensures board { OnOk result (board.new ≡ fold B.drawn board.old (command_of act.now true)) }
    ensures last { ForSome last.new (λ save. save.value ≡ board.new) }
    ensures err { OnErr result (board.new ≡ board.old) }
    ensures counts { CountsFew B.weight (command_of act.now true) draws.old draws.new tiles.old
        tiles.new }
{
    match act {
        Act::Draw(op) => {
            board.draw(op, draws, tiles)?;
            forget(last);
            Ok(())
        }
        _ => Ok(()),
    }
}

/// Draws acts on the board, with the flags that a move gives them.
///
/// # Errors
///
/// Some of the commands were drawn.
pub fn redraw<B: Board, D: Ledger, T: Ledger>(
    board: &mut B,
    kept: &[KeptAct<B::Op>],
    mark: Mark,
    draws: &mut Steps<D>,
    tiles: &mut Steps<T>,
) -> Result<(), AllocError>
    ensures board { OnOk result
        (board.new ≡ fold B.drawn board.old (drawn_among (map (marked mark) kept.now))) }
    ensures counts { CountsFew B.weight (commands_among kept.now) draws.old draws.new tiles.old
        tiles.new }
{
    for next in kept {
        let drawn = mark.flag(next.join, next.drawn);
        draw_act(board, &next.act.act, drawn, draws, tiles)?;
    }
    Ok(())
}
