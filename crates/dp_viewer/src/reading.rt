//! The board of what an input shows.

ghost use Rattle.std.specs.Prelude.{◌≡◌, ℕ, ◌-◌, ◌≤◌, List, [], ◌∷◌, ◌++◌, Option, IfSome, IfOk};
ghost use Rattle.std.specs.Prelude.{OnOk, true};
ghost use Rattle.std.specs.Io.KnownBytes.{IsAtEnd};
ghost use Rattle.std.specs.Option.{option_map};
ghost use Rattle.dp_messages.specs.declared.message.Entry.{Entry as Item};
ghost use Rattle.dp_viewer.specs.Reading.{FaultMatchesWay, EndsReading, ReadsToEnd};
ghost use Rattle.dp_viewer.specs.Reading.{AreDue, TrailsShown, is_due};
ghost use Rattle.dp_viewer.specs.Ways.{first_of, play_way, replay_way};

use dp_entries::{Anywhere, EntryReader};
use dp_io::Source;
use dp_layered::LayeredBoard;
use dp_lines::RunEnd;
use dp_messages::Entry;
use dp_plain::LayerPixels;
use dp_recording::RecordingReader;
use dp_replay::{UNDO_DEPTH, act_of_entry};
use dp_steps::Steps;
use dp_trailing::TrailingBoard;
use std::alloc::{AllocError, Global};
use std::mem::replace;
use std::sync::ledger::Ledger;

/// How many bytes of the input of `replay` count: 1 GiB.
const INPUT_LIMIT: u64 = 1 << 30;

/// A board that trails what an input shows, whose layers hold pixels of one kind.
pub type ShownBoard<P> = TrailingBoard<LayeredBoard<P>>;

/// The board of what the input shows, and how reading it ended.
#[derive(Drop)]
pub(crate) struct Reading<P: LayerPixels> {
    pub board: ShownBoard<P>,
    pub end: RunEnd,
}

/// The board of no entries.
pub fn blank_board<P: LayerPixels>(alloc: Global) -> Result<ShownBoard<P>, AllocError>
    ensures { IfOk result (λ board. TrailsShown board []) }
{
    TrailingBoard::new(alloc, UNDO_DEPTH, LayeredBoard::new(alloc))
}

/// Reads frames to the input's end, to the first that carries nothing, or to the limit. What they
/// show is drawn on the board of no entries.
pub(crate) fn read_frames<P: LayerPixels, I: Source, D: Ledger, T: Ledger>(
    alloc: Global,
    input: &mut I,
    mut board: ShownBoard<P>,
    draws: &mut Steps<D>,
    tiles: &mut Steps<T>,
) -> Reading<P>
    requires { TrailsShown board [] }
    ensures told { IfSome (I.left input.old) (λ bytes.
        EndsReading replay_way bytes (I.left input.new) result.board result.end) }
    ensures fault { FaultMatchesWay replay_way (I.faults input.old) (I.faults input.new)
        result.end }
    ensures later { I.faults input.old ≤ I.faults input.new }
    ensures to_end { ReadsToEnd result.end → IsAtEnd (I.left input.new) }
{
    let mut reader = EntryReader::<Anywhere>::new(alloc, 0, INPUT_LIMIT);
    'entries: loop {
        match reader.fill(input) {
            Ok(true) => {}
            Ok(false) => {
                drop(reader);
                let end = RunEnd::Done;
                return Reading { board, end };
            }
            Err(end) => {
                drop(reader);
                let end = end.run_end();
                return Reading { board, end };
            }
        }
        let shown = match reader.take(alloc) {
            Ok(entry) => show(alloc, &mut board, entry, draws, tiles),
            Err(why) => {
                drop(reader);
                let end = why.run_end();
                return Reading { board, end };
            }
        };
        if shown.is_err() {
            drop(reader);
            let end = RunEnd::Memory;
            return Reading { board, end };
        }
    }
}

/// Begins anew: the board of no entries in the place of this one.
pub fn begin_anew<P: LayerPixels>(
    alloc: Global,
    board: &mut ShownBoard<P>,
) -> Result<(), AllocError>
    ensures { OnOk result (TrailsShown board.new []) }
{
    let blank = blank_board(alloc)?;
    drop(replace(board, blank));
    Ok(())
}

/// Shows the next entry. A mark of a reset begins anew: all before it shows nothing from there on.
#[inline(always)]
fn show<P: LayerPixels, D: Ledger, T: Ledger>(
    alloc: Global,
    board: &mut ShownBoard<P>,
    entry: Entry,
    draws: &mut Steps<D>,
    tiles: &mut Steps<T>,
) -> Result<(), AllocError>
    ensures { OnOk result ((all : List Item) → TrailsShown board.old all
        → TrailsShown board.new (all ++ entry ∷ [])) }
{
    if entry.msg.is_reset_mark() {
        drop(entry);
        begin_anew(alloc, board)
    } else {
        board.take(act_of_entry(entry), draws, tiles)
    }
}

/// Reads a recording in the same way. Of its entries the first are shown, as many as are due, or
/// all. Those after them are read all the same.
pub fn read_recording<P: LayerPixels, I: Source, D: Ledger, T: Ledger>(
    alloc: Global,
    input: &mut I,
    board: &mut ShownBoard<P>,
    due: &mut Option<u32>,
    draws: &mut Steps<D>,
    tiles: &mut Steps<T>,
) -> RunEnd
    requires { TrailsShown board.old [] }
    ensures told { IfSome (I.left input.old) (λ bytes.
        EndsReading (play_way due.old) bytes (I.left input.new) board.new result) }
    ensures fault { FaultMatchesWay (play_way due.old) (I.faults input.old)
        (I.faults input.new) result }
    ensures later { I.faults input.old ≤ I.faults input.new }
    ensures to_end { ReadsToEnd result → IsAtEnd (I.left input.new) }
{
    let mut reader = RecordingReader::new();
    'entries: loop {
        let entry = match reader.next(alloc, input) {
            Ok(Some(entry)) => entry,
            Ok(None) => {
                drop(reader);
                return RunEnd::Done;
            }
            Err(error) => {
                drop(reader);
                return error.run_end();
            }
        };
        if show_due(alloc, board, due, entry, draws, tiles).is_err() {
            drop(reader);
            return RunEnd::Memory;
        }
    }
}

/// Shows the next entry if it is one of the first, of which `due` are left to show, or of all.
#[inline(always)]
fn show_due<P: LayerPixels, D: Ledger, T: Ledger>(
    alloc: Global,
    board: &mut ShownBoard<P>,
    due: &mut Option<u32>,
    entry: Entry,
    draws: &mut Steps<D>,
    tiles: &mut Steps<T>,
) -> Result<(), AllocError>
    ensures shown { OnOk result ((at : Option ℕ) (all : List Item) → AreDue at all due.old
        → TrailsShown board.old (first_of at all)
        → TrailsShown board.new (first_of at (all ++ entry ∷ []))) }
    ensures left { (at : Option ℕ) (all : List Item) → AreDue at all due.old
        → AreDue at (all ++ entry ∷ []) due.new }
{
    if take_due(due) {
        show(alloc, board, entry, draws, tiles)
    } else {
        drop(entry);
        Ok(())
    }
}

/// Whether one more entry is shown if `due` are left to show, or all. It is one less then.
pub fn take_due(due: &mut Option<u32>) -> bool
    ensures value { result ≡ is_due due.old }
    ensures left { due.new ≡ option_map (λ n. n - 1) due.old }
{
    match due {
        Some(n) => {
            let is_due = *n > 0;
            *n = n.saturating_sub(1);
            is_due
        }
        None => true,
    }
}

/// Whether the input is read to its end if reading it ends with this.
pub fn reads_to_end(end: RunEnd) -> bool
    ensures yes { result ≡ true → ReadsToEnd end }
    ensures no { ReadsToEnd end → result ≡ true }
{
    matches!(end, RunEnd::Done | RunEnd::Truncated(_))
}
