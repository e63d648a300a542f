//! The replay of a history, on any board.
//!
//! The rule: docs/protocol.md, "Strokes, undo and redo".

ghost use Rattle.std.specs.Prelude.{◌≡◌, ◌+◌, ◌≤◌, length, drop, map, IfOk, OnOk};
ghost use Rattle.std.specs.List.{after_last, fold};
ghost use Rattle.dp_board.specs.Commands.{command_of, commands, drawn_commands};
ghost use Rattle.dp_board.specs.Counts.{CountsFew};
ghost use Rattle.dp_replay.specs.Kinds.{kind_of_entry};
ghost use Rattle.dp_replay.specs.Replay.{act_of, is_mark, user_act_of};
ghost use Rattle.dp_replay.specs.Replay.{undo_depth, shown, shown_on, replay_on};

use dp_board::{Board, UserAct, commands_do_not_count, drawn_flags, each_act_has_a_flag};
use dp_layered::PlainBoard;
use dp_messages::{Entry, Msg};
use dp_msg_draw::Draw;
use dp_replay::{UNDO_DEPTH, kind_of_entry};
use dp_steps::Steps;
use std::alloc::{AllocError, Global};
use std::sync::ledger::Ledger;

/// The board that the history shows: its commands after the last mark of a reset but for the undone
/// ones, drawn in its order on a plain board.
///
/// # Errors
///
/// Some of the commands were drawn, each once.
pub fn plain_replay<D: Ledger, T: Ledger>(
    alloc: Global,
    entries: &[Entry],
    draws: &mut Steps<D>,
    tiles: &mut Steps<T>,
) -> Result<PlainBoard, AllocError>
    ensures board { IfOk result (λ board. board ≡ shown entries.now) }
    ensures draws { OnOk result (draws.new ≡ draws.old
        + length (drawn_commands undo_depth (map user_act_of (after_last is_mark entries.now)))) }
    ensures draws_rise { draws.old ≤ draws.new }
    ensures few_draws { draws.new ≤ draws.old
        + length (drawn_commands undo_depth (map user_act_of (after_last is_mark entries.now))) }
    ensures no_tile { tiles.new ≡ tiles.old }
{
    show_on(alloc, PlainBoard::new(alloc), entries, draws, tiles)
}

/// Shows entries as `plain_replay` does on any board, from the board `blank`. Each of these
/// commands is drawn once.
///
/// # Errors
///
/// Some of the commands were drawn, each once, and their tiles are counted.
pub fn show_on<B: Board<Op = Draw>, D: Ledger, T: Ledger>(
    alloc: Global,
    blank: B,
    entries: &[Entry],
    draws: &mut Steps<D>,
    tiles: &mut Steps<T>,
) -> Result<B, AllocError>
    ensures board { IfOk result (λ board. board ≡ shown_on B.drawn blank entries.now) }
    ensures draws { OnOk result (draws.new ≡ draws.old
        + length (drawn_commands undo_depth (map user_act_of (after_last is_mark entries.now)))) }
    ensures counts { CountsFew B.weight
        (drawn_commands undo_depth (map user_act_of (after_last is_mark entries.now)))
        draws.old draws.new tiles.old tiles.new }
{
    replay_on(alloc, blank, &entries[epoch_start(entries)..], draws, tiles)
}

/// The place of the first entry after the last mark of a reset, 0 if there is none.
fn epoch_start(entries: &[Entry]) -> usize
    ensures within { result ≤ length entries.now }
    ensures after { drop result entries.now ≡ after_last is_mark entries.now }
{
    let mut start = entries.len();
    while start > 0 && !entries[start - 1].msg.is_reset_mark() {
        start -= 1;
    }
    start
}

/// The commands of the entries but for the undone ones, drawn in their order on the board, each
/// once.
///
/// # Errors
///
/// Some of the commands were drawn, each once, and their tiles are counted.
pub fn replay_on<B: Board<Op = Draw>, D: Ledger, T: Ledger>(
    alloc: Global,
    mut board: B,
    entries: &[Entry],
    draws: &mut Steps<D>,
    tiles: &mut Steps<T>,
) -> Result<B, AllocError>
    ensures board { IfOk result (λ drawn. drawn ≡ replay_on B.drawn board entries.now) }
    ensures draws { OnOk result (draws.new ≡ draws.old
        + length (drawn_commands undo_depth (map user_act_of entries.now))) }
    ensures counts { CountsFew B.weight (drawn_commands undo_depth (map user_act_of entries.now))
        draws.old draws.new tiles.old tiles.new }
{
    commands_do_not_count::<Draw, ()>();
    each_act_has_a_flag::<Draw>();
    let kinds = kinds_of(alloc, entries)?;
    let flags = drawn_flags(alloc, UNDO_DEPTH, &kinds)?;
    draw_flagged(&mut board, entries, &flags, draws, tiles)?;
    Ok(board)
}

/// What each entry does to strokes.
fn kinds_of(alloc: Global, entries: &[Entry]) -> Result<Vec<UserAct<()>>, AllocError>
    ensures { IfOk result (λ kinds. kinds.items ≡ map kind_of_entry entries.now) }
{
    let mut kinds = Vec::with_capacity(alloc, entries.len())?;
    for entry in entries {
        kinds.push(kind_of_entry(entry))?;
    }
    Ok(kinds)
}

/// Draws the commands of the entries whose flags are true.
fn draw_flagged<B: Board<Op = Draw>, D: Ledger, T: Ledger>(
    board: &mut B,
    entries: &[Entry],
    flags: &[bool],
    draws: &mut Steps<D>,
    tiles: &mut Steps<T>,
) -> Result<(), AllocError>
    requires { length flags.now ≡ length entries.now }
    ensures board { OnOk result (board.new
        ≡ fold B.drawn board.old (commands (map user_act_of entries.now) flags.now)) }
    ensures draws { OnOk result (draws.new
        ≡ draws.old + length (commands (map user_act_of entries.now) flags.now)) }
    ensures counts { CountsFew B.weight (commands (map user_act_of entries.now) flags.now)
        draws.old draws.new tiles.old tiles.new }
{
    for (k, entry) in entries.iter().enumerate() {
        draw_entry(board, entry, flags[k], draws, tiles)?;
    }
    Ok(())
}

/// Draws the command of an entry, if it has one and its flag is true.
#[tactic(auto, using(crate::proofs::Replays::command_of_meta))]
fn draw_entry<B: Board<Op = Draw>, D: Ledger, T: Ledger>(
    board: &mut B,
    entry: &Entry,
    is_drawn: bool,
    draws: &mut Steps<D>,
    tiles: &mut Steps<T>,
) -> Result<(), AllocError>
    ensures board { OnOk result
        (board.new ≡ fold B.drawn board.old (command_of (act_of entry.now) is_drawn)) }
    ensures draws { OnOk result
        (draws.new ≡ draws.old + length (command_of (act_of entry.now) is_drawn)) }
    ensures counts { CountsFew B.weight (command_of (act_of entry.now) is_drawn)
        draws.old draws.new tiles.old tiles.new }
{
    match &entry.msg {
        Msg::Draw(command) if is_drawn => board.draw(command, draws, tiles),
        _ => Ok(()),
    }
}
