//! The frames of a history: which were made, and which of them go over into the next epoch.

ghost use Rattle.std.specs.Prelude.{◌≡◌, ◌+◌, ◌<◌, ◌≤◌, ◌++◌, List, All, map, length, take, drop};
ghost use Rattle.std.specs.Prelude.{◌∷◌, [], IfOk, OnOk, OnErr};
ghost use Rattle.dp_messages.specs.declared.message.Entry.{Entry as Piece};
ghost use Rattle.dp_messages.specs.Messages.{entry_bytes};
ghost use Rattle.dp_frame_log.specs.Frames.{AreFramesOf, AreSealedOf, AreLogOf, IsShort, frames_of};
ghost use Rattle.dp_history.specs.Frames.{AreWritten};
ghost use Rattle.dp_history.specs.Items.{entry_in, IsIn};
ghost use Rattle.dp_history.specs.Made.{AreKept, AreMadeOf, WereKept, going_over};
ghost use Rattle.dp_history.specs.Made.{made_at};
ghost use Rattle.dp_history.specs.Pages.{IsPageOf, page_most};

use crate::item::{HistoryItem, count_kept, is_kept, put_item, write_all};
use dp_epochs::Event;
use dp_frame_log::{FrameLog, PageFrames, Sealed, Segment};
use dp_lists::{prefix_of, rest_of};
use std::alloc::{AllocError, Global};

/// The most entries of a page.
const PAGE: usize = 1 << 14;

/// The frames of a history, as far as they were made. An epoch opens with entries of its own, whose
/// frames are to be made, and with those that it keeps, whose frames were made before.
#[derive(Drop)]
pub struct HistoryFrames {
    /// Frames of the entries before a place.
    front: FrameLog,
    /// That place.
    base: usize,
    /// Frames of the entries from there on.
    rest: FrameLog,
}

/// Adds a copy of the frame of an entry to those that are kept, if the entry goes over.
fn keep_frame(
    journal: &[Event],
    item: &HistoryItem,
    frame: &[u8],
    kept: &mut FrameLog,
) -> Result<(), AllocError>
    requires { IsIn journal.now item.now }
    ensures ok { OnOk result ((before : List Piece) → AreLogOf kept.old before
        → frame.now ≡ entry_bytes (entry_in journal.now item.now)
        → AreLogOf kept.new (before ++ going_over (entry_in journal.now item.now ∷ []))) }
    ensures err { OnErr result (kept.new ≡ kept.old) }
{
    if is_kept(journal, item) {
        kept.add(frame)?;
    }
    Ok(())
}

/// Adds copies of the frames of a segment, those from a place on of entries that go over.
fn keep_segment(
    journal: &[Event],
    items: &[HistoryItem],
    skip: usize,
    segment: &Segment,
    kept: &mut FrameLog,
) -> Result<(), AllocError>
    requires said { All (IsIn journal.now) items.now }
    requires made { (mine : List Piece) × (more : List Piece) × AreFramesOf segment.now mine
        × (map (entry_in journal.now) items.now ≡ mine ++ more) }
    ensures { (before : List Piece) (mine : List Piece) (more : List Piece)
        → AreLogOf kept.old before → AreFramesOf segment.now mine
        → map (entry_in journal.now) items.now ≡ mine ++ more
        → WereKept result kept.new (before ++ going_over (drop skip mine)) }
{
    let count = segment.len().min(items.len());
    let first = skip.min(count);
    for at in first..count {
        keep_frame(journal, &items[at], segment.frame(at), kept)?;
    }
    Ok(())
}

/// Adds copies of the frames of segments, those from a place on of entries that go over.
fn keep_sealed(
    journal: &[Event],
    items: &[HistoryItem],
    skip: usize,
    sealed: &[Sealed],
    kept: &mut FrameLog,
) -> Result<(), AllocError>
    requires said { All (IsIn journal.now) items.now }
    requires made { (entries : List Piece) × (more : List Piece) × AreSealedOf sealed.now entries
        × (map (entry_in journal.now) items.now ≡ entries ++ more) }
    requires none { AreLogOf kept.old [] }
    ensures { (entries : List Piece) (more : List Piece) → AreSealedOf sealed.now entries
        → map (entry_in journal.now) items.now ≡ entries ++ more
        → WereKept result kept.new (going_over (drop skip entries)) }
{
    let mut left = items;
    let mut from = skip;
    for segment in sealed {
        let count = segment.len();
        keep_segment(journal, left, from, segment.frames(), kept)?;
        left = rest_of(left, count);
        from = from.saturating_sub(count);
    }
    Ok(())
}

/// Adds copies of the frames of a log, those from a place on of entries that go over.
fn keep_frames(
    journal: &[Event],
    items: &[HistoryItem],
    skip: usize,
    frames: &FrameLog,
    kept: &mut FrameLog,
) -> Result<(), AllocError>
    requires said { All (IsIn journal.now) items.now }
    requires made { AreWritten frames.now (map (entry_in journal.now) items.now) }
    requires none { AreLogOf kept.old [] }
    ensures { (are : AreWritten frames.now (map (entry_in journal.now) items.now))
        → WereKept result kept.new (going_over (drop skip are.written)) }
{
    keep_sealed(journal, items, skip, frames.sealed(), kept)?;
    let before = frames.before();
    let left = rest_of(items, before);
    keep_segment(
        journal,
        left,
        skip.saturating_sub(before),
        frames.last(),
        kept,
    )
}

/// Puts the frame of the entry at a place into a page, if there is one. It answers how many were
/// put.
fn put_one(
    alloc: Global,
    journal: &[Event],
    items: &[HistoryItem],
    at: usize,
    page: &mut PageFrames,
) -> Result<usize, AllocError>
    requires { All (IsIn journal.now) items.now }
    ensures put { IfOk result (λ count.
        IsPageOf (map (entry_in journal.now) items.now) at count page.new) }
    ensures few { IfOk result (λ count. count ≤ 1) }
    ensures short { IfOk result (λ count. IsShort count page.new) }
    ensures err { OnErr result (page.new ≡ []) }
{
    match items.get(at) {
        Some(item) => {
            put_item(alloc, journal, item, page)?;
            Ok(1)
        }
        None => {
            page.clear();
            Ok(0)
        }
    }
}

impl HistoryFrames {
    /// No frame.
    pub fn new(alloc: Global) -> HistoryFrames
        ensures { (history : List Piece) → AreMadeOf result history }
    {
        HistoryFrames {
            front: FrameLog::new(alloc),
            base: 0,
            rest: FrameLog::new(alloc),
        }
    }

    /// How many frames were made one after another from a place on.
    fn made_at(&self, at: usize) -> usize
        ensures { result ≡ made_at self.now at }
    {
        if at < self.base {
            self.front.len().saturating_sub(at)
        } else {
            self.rest.len().saturating_sub(at - self.base)
        }
    }

    /// Puts frames into a page, in place of what there was: those from a place on, at most this
    /// many. They have no more than 262,144 bytes, unless it is one. It answers how many.
    ///
    /// # Errors
    ///
    /// Memory ran out: no frame is in the page.
    fn put(&self, at: usize, most: usize, page: &mut PageFrames) -> Result<usize, AllocError>
        requires made { (history : List Piece) × AreMadeOf self.now history }
        requires some { 0 < most }
        requires most { most ≤ made_at self.now at }
        ensures some { IfOk result (λ count. 0 < count) }
        ensures most { IfOk result (λ count. count ≤ most) }
        ensures put { IfOk result (λ count. (history : List Piece) → AreMadeOf self.now history
            → page.new ≡ frames_of (take count (drop at history))) }
        ensures short { IfOk result (λ count. IsShort count page.new) }
        ensures err { OnErr result (page.new ≡ []) }
    {
        if at < self.base {
            self.front.put(at, most, page)
        } else {
            self.rest.put(at - self.base, most, page)
        }
    }

    /// Puts frames of a history before an end into a page, in place of what there was: those of
    /// some entries from a place on. It answers how many. Frames that were made are not made
    /// again, and those of a full segment are shared.
    ///
    /// # Errors
    ///
    /// Memory ran out: no frame is in the page.
    pub fn put_page(
        &self,
        journal: &[Event],
        live: &[HistoryItem],
        end: usize,
        at: usize,
        page: &mut PageFrames,
    ) -> Result<usize, AllocError>
        requires said { All (IsIn journal.now) live.now }
        requires made { AreMadeOf self.now (map (entry_in journal.now) live.now) }
        ensures put { IfOk result (λ count. IsPageOf
            (take end (map (entry_in journal.now) live.now)) at count page.new) }
        ensures few { IfOk result (λ count. count ≤ page_most) }
        ensures short { IfOk result (λ count. IsShort count page.new) }
        ensures err { OnErr result (page.new ≡ []) }
    {
        let made = self.made_at(at).min(end.saturating_sub(at));
        if made > 0 {
            self.put(at, PAGE.min(made), page)
        } else {
            put_one(
                self.rest.allocator(),
                journal,
                prefix_of(live, end),
                at,
                page,
            )
        }
    }

    /// Makes the frames of the entries that have none yet, as far as memory goes.
    pub fn write(&mut self, alloc: Global, journal: &[Event], live: &[HistoryItem])
        requires { All (IsIn journal.now) live.now }
        ensures { AreMadeOf self.old (map (entry_in journal.now) live.now)
            → AreMadeOf self.new (map (entry_in journal.now) live.now) }
    {
        write_all(alloc, journal, prefix_of(live, self.base), &mut self.front);
        write_all(alloc, journal, rest_of(live, self.base), &mut self.rest);
    }

    /// Keeps the frames of those entries from a place on that go over into an epoch, which opens
    /// with `opens_with` entries, these last.
    ///
    /// # Errors
    ///
    /// Memory ran out: the first of them are kept.
    pub fn keep(
        &mut self,
        journal: &[Event],
        live: &[HistoryItem],
        at: usize,
        opens_with: usize,
    ) -> Result<(), AllocError>
        requires said { All (IsIn journal.now) live.now }
        requires made { AreMadeOf self.old (map (entry_in journal.now) live.now) }
        ensures kept { (are : AreMadeOf self.old (map (entry_in journal.now) live.now))
            → AreKept result self.old at are.rest.written self.new }
        ensures made { (before : List Piece)
            → opens_with ≡ length (before
            ++ going_over (drop at (map (entry_in journal.now) live.now)))
            → AreMadeOf self.new (before
            ++ going_over (drop at (map (entry_in journal.now) live.now))) }
    {
        let alloc = self.rest.allocator();
        let items = rest_of(live, self.base);
        let skip = at.saturating_sub(self.base);
        let count = count_kept(journal, rest_of(items, skip));
        let mut kept = FrameLog::new(alloc);
        let outcome = keep_frames(journal, items, skip, &self.rest, &mut kept);
        self.front = FrameLog::new(alloc);
        self.base = opens_with.saturating_sub(count);
        self.rest = kept;
        outcome
    }
}
