//! A recording whose entries are read while those before them are drawn.

ghost use Rattle.std.specs.Prelude.{◌≡◌, ℕ, ◌≤◌, List, [], ◌∷◌, ◌++◌, Option, IfOk, IfSome, OnOk};
ghost use Rattle.std.specs.Prelude.{true};
ghost use Rattle.std.specs.List.{fold};
ghost use Rattle.std.specs.Io.KnownBytes.{IsAtEnd};
ghost use Rattle.dp_messages.specs.declared.message.Entry.{Entry as Item};
ghost use Rattle.dp_plain.specs.Board.{Board};
ghost use Rattle.dp_plain.specs.Commands.{draw};
ghost use Rattle.dp_savepoints.specs.Kept.{drawn_among};
ghost use Rattle.dp_player.specs.Ahead.{EndsAfter, EndsBatch, board_after, on_board};
ghost use Rattle.dp_viewer.specs.Reading.{AreDue, EndsReading, FaultMatchesWay, ReadsToEnd};
ghost use Rattle.dp_viewer.specs.Reading.{TrailsShown};
ghost use Rattle.dp_viewer.specs.Ways.{first_of, play_way};

use crate::workers::WorkersBoard;
use dp_canvas::{DeferredBoard, DeferredPixels, settle_half_full};
use dp_io::Source;
use dp_lines::RunEnd;
use dp_messages::Entry;
use dp_msg_draw::{Draw, TileContent};
use dp_par::Workers;
use dp_recording::RecordingReader;
use dp_replay::act_of_entry;
use dp_savepoints::KeptAct;
use dp_steps::Steps;
use dp_trailing::draw_kept;
use dp_viewer::{ShownBoard, begin_anew, reads_to_end, take_due};
use dp_wire::Gate;
use std::alloc::{AllocError, Global};
use std::mem::replace;
use std::sync::ledger::Ledger;
use std::thread::{Threads, join_mut};

/// How many entries the first batch has. There are fewer if some of them carry lists of pixels or
/// of dabs.
const FIRST: usize = 1024;

/// How many entries a batch has at most. Each one has twice as many as the one before, up to this.
const BATCH: usize = 16384;

/// How many items of a list weigh as much as an entry without one.
const ITEMS: usize = 16;

/// How many acts are drawn between two looks at what waits.
const LOOK: usize = 1024;

/// How reading a batch of entries ended.
#[derive(Drop)]
pub(crate) enum Batch {
    /// More entries may come.
    More {
        /// Whether the last one was a mark of a reset.
        marked: bool,
    },
    /// No entry comes any more, and reading ended so.
    Ended(RunEnd),
}

/// What is read: the entries of a recording, and the acts that are held of them. The board that
/// trails them is elsewhere.
#[derive(Drop)]
pub(crate) struct Ahead {
    pub reader: RecordingReader,
    pub board: ShownBoard<DeferredPixels>,
    pub due: Option<u32>,
}

/// What is drawn: acts, and the board that they are drawn on.
#[derive(Drop)]
pub(crate) struct Behind {
    pub board: DeferredBoard,
    pub ready: Vec<KeptAct<Draw>>,
    /// Whether the acts before these were drawn.
    pub drawn: bool,
}

/// What acts are drawn by: the handle of threads, the allocator, and the workers who paint.
#[derive(Drop)]
pub(crate) struct Crew<'a, R, G> {
    pub rt: &'a R,
    pub alloc: Global,
    pub workers: Workers<'a, G>,
}

/// A board of which a recording was read, and how reading it ended.
#[derive(Drop)]
pub(crate) struct Played<'a, R, G> {
    pub shown: WorkersBoard<'a, R, G>,
    pub end: RunEnd,
}

/// Holds the act of the next entry. Whether the entry is a mark of a reset: the board begins anew
/// then.
#[inline(always)]
fn hold(
    alloc: Global,
    board: &mut ShownBoard<DeferredPixels>,
    entry: Entry,
) -> Result<bool, AllocError>
    ensures { IfOk result (λ marked. (all : List Item) (on : Board)
        → TrailsShown (on_board on board.old) all
        → TrailsShown (on_board (board_after marked on board.new) board.new)
        (all ++ entry ∷ [])) }
{
    if entry.msg.is_reset_mark() {
        drop(entry);
        begin_anew(alloc, board)?;
        Ok(true)
    } else {
        let act = act_of_entry(entry);
        board.hold(act)?;
        Ok(false)
    }
}

/// The same for the next entry, if it is one of those that are left to show, or of all.
#[inline(always)]
fn hold_due(
    alloc: Global,
    board: &mut ShownBoard<DeferredPixels>,
    due: &mut Option<u32>,
    entry: Entry,
) -> Result<bool, AllocError>
    ensures shown { IfOk result (λ marked. (at : Option ℕ) (all : List Item) (on : Board)
        → AreDue at all due.old → TrailsShown (on_board on board.old) (first_of at all)
        → TrailsShown (on_board (board_after marked on board.new) board.new)
        (first_of at (all ++ entry ∷ []))) }
    ensures left { (at : Option ℕ) (all : List Item) → AreDue at all due.old
        → AreDue at (all ++ entry ∷ []) due.new }
{
    if take_due(due) {
        hold(alloc, board, entry)
    } else {
        drop(entry);
        Ok(false)
    }
}

/// How many entries of a batch an entry stands for, by the memory that it holds.
fn weight(entry: &Entry) -> usize {
    let items = match entry.msg.command() {
        Some(Draw::PutImage { colors, .. }) => colors.as_slice().len(),
        Some(Draw::DabsRound { dabs, .. } | Draw::DabsSquare { dabs, .. }) => {
            dabs.as_slice().len()
        }
        Some(
            Draw::PutTile {
                content: TileContent::Pixels(pixels),
                ..
            },
        ) => pixels.as_slice().len(),
        _ => 0,
    };
    1 + items / ITEMS
}

/// Reads a batch of `count` entries, and holds their acts.
fn read_batch<I: Source>(alloc: Global, input: &mut I, ahead: &mut Ahead, count: usize) -> Batch
    ensures read { EndsBatch (I.left input.old) (I.left input.new) (I.faults input.old)
        (I.faults input.new) ahead.old ahead.new result }
    ensures later { I.faults input.old ≤ I.faults input.new }
{
    let mut left = count;
    'entries: loop {
        let entry = match ahead.reader.next(alloc, input) {
            Ok(Some(entry)) => entry,
            Ok(None) => return Batch::Ended(RunEnd::Done),
            Err(error) => return Batch::Ended(error.run_end()),
        };
        left = left.saturating_sub(weight(&entry));
        match hold_due(alloc, &mut ahead.board, &mut ahead.due, entry) {
            Ok(false) => {}
            Ok(true) => return Batch::More { marked: true },
            Err(AllocError) => return Batch::Ended(RunEnd::Memory),
        }
        let is_full = left == 0;
        if is_full {
            return Batch::More { marked: false };
        }
    }
}

/// Draws acts. From time to time workers paint what waits on layers on which much does.
fn draw_settling<R: Threads + Sync, G: Gate, D: Ledger, T: Ledger>(
    crew: &Crew<'_, R, G>,
    board: &mut DeferredBoard,
    acts: &[KeptAct<Draw>],
    draws: &mut Steps<D>,
    tiles: &mut Steps<T>,
) -> Result<(), AllocError>
    ensures { OnOk result (board.new ≡ fold draw board.old (drawn_among acts.now)) }
{
    let mut done = 0;
    while done < acts.len() {
        let next = done + (acts.len() - done).min(LOOK);
        draw_kept(board, &acts[done..next], draws, tiles)?;
        settle_half_full(crew.rt, crew.alloc, board, &crew.workers, tiles)?;
        done = next;
    }
    Ok(())
}

impl Behind {
    /// Draws the acts, unless memory runs out, and lets them go.
    fn draw<R: Threads + Sync, G: Gate, D: Ledger, T: Ledger>(
        &mut self,
        crew: &Crew<'_, R, G>,
        draws: &mut Steps<D>,
        tiles: &mut Steps<T>,
    )
        ensures { self.new.drawn ≡ true → self.new.board
            ≡ fold draw self.old.board (drawn_among self.old.ready.items) }
    {
        let acts = self.ready.as_slice();
        let drew = draw_settling(crew, &mut self.board, acts, draws, tiles);
        self.drawn = drew.is_ok();
        self.ready.clear();
    }

    /// Has what was read last be what is drawn next, if the acts before it were drawn.
    fn go_on(
        &mut self,
        alloc: Global,
        board: &mut ShownBoard<DeferredPixels>,
        marked: bool,
    ) -> Result<(), AllocError>
        ensures { OnOk result ((on : Board) (entries : List Item)
            → (self.old.drawn ≡ true → self.old.board ≡ on)
            → TrailsShown (on_board (board_after marked on board.old) board.old) entries
            → TrailsShown (on_board
            (fold draw self.new.board (drawn_among self.new.ready.items)) board.new) entries) }
    {
        let drawn = self.drawn;
        if drawn {
            self.turn(alloc, board, marked)
        } else {
            Err(AllocError)
        }
    }

    /// Has what was read last be what is drawn next.
    fn turn(
        &mut self,
        alloc: Global,
        board: &mut ShownBoard<DeferredPixels>,
        marked: bool,
    ) -> Result<(), AllocError>
        ensures { OnOk result ((entries : List Item)
            → TrailsShown (on_board (board_after marked self.old.board board.old) board.old) entries
            → TrailsShown (on_board
            (fold draw self.new.board (drawn_among self.new.ready.items)) board.new) entries) }
    {
        if marked {
            let held = board.put_board(DeferredBoard::new(alloc));
            drop(replace(&mut self.board, held));
            self.ready.clear();
        } else {
            let mut room = replace(&mut self.ready, Vec::new(alloc));
            room.clear();
            let ready = board.give_settled(room)?;
            drop(replace(&mut self.ready, ready));
        }
        Ok(())
    }
}

/// Draws acts, if there are any, and meanwhile reads a batch of `count` entries. Another thread
/// draws them, if one can be made. One that does nothing is started before it: the system puts the
/// first thread that it starts where this one runs, and these two would take turns.
fn read_beside<'a, R: Threads + Sync, I: Source, G: Gate, D: Ledger + Send, T: Ledger + Send>(
    crew: &'a Crew<'a, R, G>,
    input: &mut I,
    ahead: &mut Ahead,
    behind: &mut Behind,
    count: usize,
    draws: &mut Steps<D>,
    tiles: &mut Steps<T>,
) -> Batch
    ensures drawn { behind.new.drawn ≡ true → behind.new.board
        ≡ fold draw behind.old.board (drawn_among behind.old.ready.items) }
    ensures read { EndsBatch (I.left input.old) (I.left input.new) (I.faults input.old)
        (I.faults input.new) ahead.old ahead.new result }
    ensures later { I.faults input.old ≤ I.faults input.new }
{
    if behind.ready.as_slice().is_empty() {
        return read_batch(crew.alloc, input, ahead, count);
    }
    let (_, batch) = join_mut(
        crew.rt,
        &mut || {},
        &mut || -> Batch
            ensures { (behind.exit.now.drawn ≡ true → behind.exit.now.board
                ≡ fold draw behind.entry.now.board (drawn_among behind.entry.now.ready.items))
                × EndsBatch (I.left input.entry.now) (I.left input.exit.now)
                (I.faults input.entry.now) (I.faults input.exit.now) ahead.entry.now ahead.exit.now
                result × (I.faults input.entry.now ≤ I.faults input.exit.now) }
        { draw_and_read(crew, input, ahead, behind, count, draws, tiles) },
    );
    batch
}

/// Reads a batch of `count` entries, while another thread, if one can be made, draws acts.
fn draw_and_read<'a, R: Threads + Sync, I: Source, G: Gate, D: Ledger + Send, T: Ledger + Send>(
    crew: &'a Crew<'a, R, G>,
    input: &mut I,
    ahead: &mut Ahead,
    behind: &mut Behind,
    count: usize,
    draws: &mut Steps<D>,
    tiles: &mut Steps<T>,
) -> Batch
    ensures drawn { behind.new.drawn ≡ true → behind.new.board
        ≡ fold draw behind.old.board (drawn_among behind.old.ready.items) }
    ensures read { EndsBatch (I.left input.old) (I.left input.new) (I.faults input.old)
        (I.faults input.new) ahead.old ahead.new result }
    ensures later { I.faults input.old ≤ I.faults input.new }
{
    let alloc = crew.alloc;
    let (_, batch) = join_mut(
        crew.rt,
        &mut ||
            ensures { behind.exit.now.drawn ≡ true → behind.exit.now.board
                ≡ fold draw behind.entry.now.board (drawn_among behind.entry.now.ready.items) }
        { behind.draw(crew, draws, tiles) },
        &mut || -> Batch
            ensures { EndsBatch (I.left input.entry.now) (I.left input.exit.now)
                (I.faults input.entry.now) (I.faults input.exit.now) ahead.entry.now ahead.exit.now
                result × (I.faults input.entry.now ≤ I.faults input.exit.now) }
        { read_batch(alloc, input, ahead, count) },
    );
    batch
}

/// Reads a recording as `read_recording` does, and draws its entries while more are read.
pub(crate) fn read_ahead<
    'a,
    R: Threads + Sync,
    I: Source,
    G: Gate,
    D: Ledger + Send,
    T: Ledger + Send,
>(
    alloc: Global,
    input: &mut I,
    shown: WorkersBoard<'a, R, G>,
    draws: &mut Steps<D>,
    tiles: &mut Steps<T>,
) -> Played<'a, R, G>
    requires { TrailsShown shown.board [] }
    ensures told { IfSome (I.left input.old) (λ bytes. EndsReading (play_way shown.entry.due) bytes
        (I.left input.new) result.shown.board result.end) }
    ensures fault { FaultMatchesWay (play_way shown.entry.due) (I.faults input.old)
        (I.faults input.new) result.end }
    ensures later { I.faults input.old ≤ I.faults input.new }
    ensures to_end { ReadsToEnd result.end → IsAtEnd (I.left input.new) }
{
    let WorkersBoard {
        mut board,
        due,
        rt,
        workers,
    } = shown;
    let crew = Crew { rt, alloc, workers };
    let reader = RecordingReader::new();
    let blank = DeferredBoard::new(alloc);
    let first = board.put_board(blank);
    let ready = Vec::new(alloc);
    let mut ahead = Ahead { reader, board, due };
    let mut behind = Behind {
        board: first,
        ready,
        drawn: true,
    };
    let mut next = FIRST;
    'batches: loop {
        let count = next;
        next = count.saturating_mul(2).min(BATCH);
        let marked = match read_beside(&crew, input, &mut ahead, &mut behind, count, draws, tiles) {
            Batch::More { marked } => marked,
            Batch::Ended(end) => {
                let end = end_after(end, behind.drawn);
                return put_back(crew, ahead, behind, end);
            }
        };
        if behind.go_on(alloc, &mut ahead.board, marked).is_err() {
            return put_back(crew, ahead, behind, RunEnd::Memory);
        }
    }
}

/// How playing ends if reading ended so. If the acts before that weren't drawn, memory ran out, but
/// an end before the input's stands.
fn end_after(end: RunEnd, drawn: bool) -> RunEnd
    ensures { EndsAfter drawn end result }
{
    if drawn {
        return end;
    }
    if reads_to_end(end) {
        RunEnd::Memory
    } else {
        end
    }
}

/// The board once nothing is read any more.
fn put_back<'a, R, G>(
    crew: Crew<'a, R, G>,
    ahead: Ahead,
    behind: Behind,
    end: RunEnd,
) -> Played<'a, R, G>
    ensures board { result.shown.board ≡ on_board behind.board ahead.board }
    ensures end { result.end ≡ end }
{
    let Crew { rt, workers, .. } = crew;
    let Ahead {
        reader,
        mut board,
        due,
    } = ahead;
    drop(reader);
    let Behind {
        board: drawn,
        ready,
        ..
    } = behind;
    drop(ready);
    drop(board.put_board(drawn));
    let shown = WorkersBoard {
        board,
        due,
        rt,
        workers,
    };
    Played { shown, end }
}
