//! The history of a drill, drawn once.

ghost use Rattle.std.specs.Prelude.{◌≡◌, ◌∷◌, ◌++◌, [], length, map, IfOk, OnOk};
ghost use Rattle.dp_board.specs.Commands.{command_of, commands, drawn_commands};
ghost use Rattle.dp_board.specs.Counts.{CountsFew};
ghost use Rattle.dp_pixels.specs.Feet.{reach};
ghost use Rattle.dp_plain.specs.Board.{empty_board};
ghost use Rattle.dp_plain.specs.Commands.{draw_all};
ghost use Rattle.dp_replay.specs.Replay.{replay, undo_depth, user_act_of};

use dp_board::{Act, UserAct, drawn_flags, each_act_has_a_flag};
use dp_canvas::Canvas;
use dp_messages::Entry;
use dp_msg_draw::Draw;
use dp_par::Workers;
use dp_replay::{UNDO_DEPTH, act_of};
use dp_steps::Steps;
use dp_wire::Gate;
use std::alloc::{AllocError, Global};
use std::sync::ledger::Ledger;
use std::thread::Threads;

/// What the history shows. Each command that isn't undone is drawn once, by workers.
///
/// # Errors
///
/// Some of them were drawn, each once, and their tiles are counted.
pub(crate) fn paint_history<R: Threads + Sync, G: Gate, D: Ledger, T: Ledger>(
    rt: &R,
    alloc: Global,
    entries: &[Entry],
    workers: &Workers<'_, G>,
    draws: &mut Steps<D>,
    tiles: &mut Steps<T>,
) -> Result<Canvas, AllocError>
    ensures canvas { IfOk result (λ canvas. canvas ≡ replay entries.now) }
    ensures few { CountsFew reach (drawn_commands undo_depth (map user_act_of entries.now))
        draws.old draws.new tiles.old tiles.new }
{
    let commands = drawn_commands(alloc, entries)?;
    let canvas = paint(rt, alloc, &commands, workers, draws, tiles);
    drop(commands);
    canvas
}

/// A canvas on which these commands were drawn, by workers.
fn paint<R: Threads + Sync, G: Gate, D: Ledger, T: Ledger>(
    rt: &R,
    alloc: Global,
    commands: &[Draw],
    workers: &Workers<'_, G>,
    draws: &mut Steps<D>,
    tiles: &mut Steps<T>,
) -> Result<Canvas, AllocError>
    ensures canvas { IfOk result (λ canvas. canvas ≡ draw_all empty_board commands.now) }
    ensures few { CountsFew reach commands.now draws.old draws.new tiles.old tiles.new }
{
    let mut canvas = Canvas::new(alloc);
    match canvas.draw_batch(rt, commands, workers, draws, tiles) {
        Ok(()) => Ok(canvas),
        Err(error) => {
            drop(canvas);
            Err(error)
        }
    }
}

/// The commands of a history that aren't undone, in its order.
fn drawn_commands(alloc: Global, entries: &[Entry]) -> Result<Vec<Draw>, AllocError>
    ensures { IfOk result (λ drawn. drawn.items
        ≡ drawn_commands undo_depth (map user_act_of entries.now)) }
{
    let acts = acts_of(alloc, entries)?;
    let drawn = drawn_of(alloc, &acts);
    drop(acts);
    drawn
}

/// The commands of the acts that aren't undone, in their order.
fn drawn_of(alloc: Global, acts: &[UserAct<Draw>]) -> Result<Vec<Draw>, AllocError>
    ensures { IfOk result (λ drawn. drawn.items ≡ drawn_commands undo_depth acts.now) }
{
    each_act_has_a_flag::<Draw>();
    let flags = drawn_flags(alloc, UNDO_DEPTH, acts)?;
    flagged_commands(alloc, acts, &flags)
}

/// What each entry does to strokes.
fn acts_of(alloc: Global, entries: &[Entry]) -> Result<Vec<UserAct<Draw>>, AllocError>
    ensures { IfOk result (λ acts. acts.items ≡ map user_act_of entries.now) }
{
    let mut acts = Vec::with_capacity(alloc, entries.len())?;
    for entry in entries {
        push_act(&mut acts, entry)?;
    }
    Ok(acts)
}

/// Adds what an entry does to strokes.
fn push_act(acts: &mut Vec<UserAct<Draw>>, entry: &Entry) -> Result<(), AllocError>
    ensures { OnOk result (acts.new.items ≡ acts.old.items ++ user_act_of entry.now ∷ []) }
{
    acts.push(UserAct {
        user: entry.user,
        act: act_of(entry)?,
    })?;
    Ok(())
}

/// The commands of the acts whose flags are true.
fn flagged_commands(
    alloc: Global,
    acts: &[UserAct<Draw>],
    flags: &[bool],
) -> Result<Vec<Draw>, AllocError>
    requires { length flags.now ≡ length acts.now }
    ensures { IfOk result (λ drawn. drawn.items ≡ commands acts.now flags.now) }
{
    let mut drawn = Vec::new(alloc);
    for (k, act) in acts.iter().enumerate() {
        push_drawn(&mut drawn, &act.act, flags[k])?;
    }
    Ok(drawn)
}

/// Adds the command of an act, if it is one and its flag is true.
fn push_drawn(drawn: &mut Vec<Draw>, act: &Act<Draw>, is_drawn: bool) -> Result<(), AllocError>
    ensures { OnOk result (drawn.new.items ≡ drawn.old.items ++ command_of act.now is_drawn) }
{
    match act {
        Act::Draw(command) if is_drawn => drawn.push(command.copy()?)?,
        _ => {}
    }
    Ok(())
}
