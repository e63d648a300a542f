//! Running a drill.

ghost use Rattle.std.specs.Prelude.{◌≡◌, ◌≤◌, ℕ, IfOk, length, map};
ghost use Rattle.dp_board.specs.Commands.{drawn_commands};
ghost use Rattle.dp_board.specs.Counts.{CountsFew};
ghost use Rattle.dp_lines.specs.RunEnds.{FaultMatchesEnd};
ghost use Rattle.dp_pixels.specs.Feet.{reach};
ghost use Rattle.dp_plain.specs.Picture.{picture};
ghost use Rattle.dp_replay.specs.Replay.{replay, undo_depth, user_act_of};
ghost use Rattle.dp_drill.specs.Flow.{first_flow};
ghost use Rattle.dp_drill.specs.Leaves.{DrillLeaves};
ghost use Rattle.dp_drill.specs.Summary.{drill_due, drill_history, drill_text, summary, sums_of};

use crate::flow::Flow;
use crate::laws::drills_need_no_clients;
use crate::painting::paint_history;
use crate::rounds::{begin, play_rounds};
use crate::summary::{summary, sums_of};
use dp_epochs::Entries;
use dp_io::{Failed, Sink, put_all};
use dp_lines::RunEnd;
use dp_messages::Entry;
use dp_par::Workers;
use dp_steps::Steps;
use dp_sure_session::SureSession;
use dp_wire::Gate;
use std::alloc::{AllocError, Global};
use std::sync::ledger::Ledger;
use std::thread::Threads;

/// A drill: the number that it is made from, and how many rounds it has.
#[derive(Clone, Copy, Debug, PartialEq, Eq)]
pub struct Drill {
    pub seed: u64,
    pub rounds: u32,
}

/// Makes the session of a drill, and writes its summary. Of its history each command that isn't
/// undone is drawn once, by as many workers as asked for, if 0 is 1. What is written is the same
/// for each number of them.
///
/// # Errors
///
/// It ends with `WriteFault` if the output failed, after a prefix of the summary, and with
/// `Memory` if memory ran out: nothing was written.
///
/// The rule: docs/protocol.md, "Drills".
pub fn run_drill<S: SureSession, R: Threads + Sync, O: Sink, G: Gate, D: Ledger, T: Ledger>(
    rt: &R,
    alloc: Global,
    drill: Drill,
    workers: &Workers<'_, G>,
    output: &mut O,
    draws: &mut Steps<D>,
    tiles: &mut Steps<T>,
) -> RunEnd
    ensures leaves { DrillLeaves drill.seed drill.rounds (O.held output.old) (O.held output.new)
        draws.old draws.new tiles.old tiles.new result }
    ensures fault { (n : ℕ)
        → FaultMatchesEnd n n (O.faults output.old) (O.faults output.new) result }
    ensures output_later { O.faults output.old ≤ O.faults output.new }
{
    let Ok(text) = drill_text::<S, R, G, D, T>(rt, alloc, drill, workers, draws, tiles) else {
        return RunEnd::Memory;
    };
    match put_all(output, &text) {
        Ok(()) => RunEnd::Done,
        Err(Failed) => RunEnd::WriteFault,
    }
}

/// What a drill prints.
fn drill_text<S: SureSession, R: Threads + Sync, G: Gate, D: Ledger, T: Ledger>(
    rt: &R,
    alloc: Global,
    drill: Drill,
    workers: &Workers<'_, G>,
    draws: &mut Steps<D>,
    tiles: &mut Steps<T>,
) -> Result<Vec<u8>, AllocError>
    ensures text { IfOk result (λ text. text.items ≡ drill_text drill.seed drill.rounds) }
    ensures few { CountsFew reach (drill_due drill.seed drill.rounds)
        draws.old draws.new tiles.old tiles.new }
{
    let entries = drill_history::<S>(alloc, drill)?;
    let text = summary_of(rt, alloc, drill, entries.as_slice(), workers, draws, tiles);
    drop(entries);
    text
}

/// The summary of a drill with this history.
fn summary_of<R: Threads + Sync, G: Gate, D: Ledger, T: Ledger>(
    rt: &R,
    alloc: Global,
    drill: Drill,
    entries: &[Entry],
    workers: &Workers<'_, G>,
    draws: &mut Steps<D>,
    tiles: &mut Steps<T>,
) -> Result<Vec<u8>, AllocError>
    ensures text { IfOk result (λ text. text.items ≡ summary drill.seed drill.rounds
        (length entries.now) (sums_of (picture (replay entries.now)))) }
    ensures few { CountsFew reach (drawn_commands undo_depth (map user_act_of entries.now))
        draws.old draws.new tiles.old tiles.new }
{
    let canvas = paint_history(rt, alloc, entries, workers, draws, tiles)?;
    let sums = sums_of(&canvas);
    drop(canvas);
    summary(alloc, drill.seed, drill.rounds, entries.len(), sums)
}

/// The history that the session has after a drill.
fn drill_history<S: SureSession>(alloc: Global, drill: Drill) -> Result<Entries, AllocError>
    ensures { IfOk result (λ entries. entries ≡ drill_history drill.seed drill.rounds) }
{
    let mut flow = Flow::<S>::new(alloc)?;
    let entries = play_drill(alloc, &mut flow, drill);
    drop(flow);
    entries
}

/// The history after a drill. No `?` holds the session.
fn play_drill<S: SureSession>(
    alloc: Global,
    flow: &mut Flow<S>,
    drill: Drill,
) -> Result<Entries, AllocError>
    requires { flow.old ≡ first_flow }
    ensures { IfOk result (λ entries. entries ≡ drill_history drill.seed drill.rounds) }
{
    drills_need_no_clients();
    begin(alloc, flow)?;
    play_rounds(alloc, flow, drill.seed, drill.rounds)?;
    flow.send_all()?;
    flow.history()
}
