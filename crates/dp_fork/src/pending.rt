//! Acts that wait.

ghost use Rattle.std.specs.Prelude.{◌≡◌, ◌≤◌, true, false, length, drop, OnOk};
ghost use Rattle.std.specs.List.{fold, list_any};
ghost use Rattle.dp_board.specs.Commands.{command_of};
ghost use Rattle.dp_board.specs.Moves.{is_draw};
ghost use Rattle.dp_board.specs.Counts.{CountsFew};
ghost use Rattle.dp_fork.specs.Fork.{commands_in, is_apart, may_move};

use dp_board::{Act, Board};
use dp_steps::Steps;
use std::alloc::AllocError;
use std::collections::VecDeque;
use std::sync::ledger::Ledger;

/// Whether an act is a command.
pub(crate) fn is_draw<Op>(act: &Act<Op>) -> bool
    ensures { result ≡ is_draw act.now }
{
    matches!(act, Act::Draw(_))
}

/// Whether an act may move a group.
pub(crate) fn may_move<Op>(act: &Act<Op>) -> bool
    ensures { result ≡ may_move act.now }
{
    matches!(act, Act::Undo { .. } | Act::Redo { .. })
}

/// Whether one of the acts from a place on is a command.
pub(crate) fn has_command<Op>(acts: &VecDeque<Act<Op>>, from: usize) -> bool
    requires { from ≤ length acts.now.items }
    ensures { result ≡ list_any is_draw (drop from acts.now.items) }
{
    for k in from..acts.len() {
        if is_draw(&acts[k]) {
            return true;
        }
    }
    false
}

/// Whether the operation is apart from the act's command, if it is one.
fn is_apart_from<B: Board>(op: &B::Op, act: &Act<B::Op>) -> bool
    ensures { result ≡ is_apart B.are_apart op.now (command_of act.now true) }
{
    match act {
        Act::Draw(other) => B::apart(op, other),
        _ => true,
    }
}

/// Whether the operation is apart from each command of the acts.
pub(crate) fn is_apart<B: Board>(op: &B::Op, acts: &VecDeque<Act<B::Op>>) -> bool
    ensures { result ≡ is_apart B.are_apart op.now (commands_in acts.now.items) }
{
    for k in 0..acts.len() {
        if !is_apart_from::<B>(op, &acts[k]) {
            return false;
        }
    }
    true
}

/// Draws the command of an act, if it is one.
fn draw_act<B: Board, D: Ledger, T: Ledger>(
    board: &mut B,
    act: &Act<B::Op>,
    draws: &mut Steps<D>,
    tiles: &mut Steps<T>,
) -> Result<(), AllocError>
    ensures board { OnOk result (board.new ≡ fold B.drawn board.old (command_of act.now true)) }
    ensures counts { CountsFew B.weight (command_of act.now true) draws.old draws.new tiles.old
        tiles.new }
{
    match act {
        Act::Draw(op) => board.draw(op, draws, tiles),
        _ => Ok(()),
    }
}

/// Draws the commands of the acts from a place on.
///
/// # Errors
///
/// Some of the commands were drawn.
pub(crate) fn draw_from<B: Board, D: Ledger, T: Ledger>(
    board: &mut B,
    acts: &VecDeque<Act<B::Op>>,
    from: usize,
    draws: &mut Steps<D>,
    tiles: &mut Steps<T>,
) -> Result<(), AllocError>
    requires { from ≤ length acts.now.items }
    ensures board { OnOk result
        (board.new ≡ fold B.drawn board.old (commands_in (drop from acts.now.items))) }
    ensures counts { CountsFew B.weight (commands_in (drop from acts.now.items)) draws.old draws.new
        tiles.old tiles.new }
{
    for k in from..acts.len() {
        draw_act(board, &acts[k], draws, tiles)?;
    }
    Ok(())
}
