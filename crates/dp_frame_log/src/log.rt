//! The frames of entries, one after another, in segments.

ghost use Rattle.std.specs.Prelude.{◌≡◌, ◌+◌, ◌<◌, ◌≤◌, ◌∷◌, ◌++◌, [], List, length, take, drop};
ghost use Rattle.std.specs.Prelude.{IfOk, OnOk, OnErr};
ghost use Rattle.dp_messages.specs.declared.message.Entry.{Entry as Piece};
ghost use Rattle.dp_messages.specs.Messages.{entry_bytes};
ghost use Rattle.dp_frame_log.specs.Frames.{AreFramesOf, AreSealedOf, AreLogOf, IsShort};
ghost use Rattle.dp_frame_log.specs.Frames.{frame_count, frames_of, sealed_count};

use crate::page::PageFrames;
use crate::segment::{COPIED_BYTES, PAGE_BYTES, Segment, Span};
use dp_messages::Msg;
use std::alloc::{AllocError, AllocFailed, Global};
use std::marker::Model;
use std::mem::replace;
use std::sync::Arc;

/// A segment of as many bytes is full. If its last frame is no longer than what a page has beyond
/// that, one page shares the whole of it.
const SEGMENT_BYTES: usize = PAGE_BYTES - (1 << 12);

/// A full segment, which doesn't change any more. It is seen as its frames.
#[derive(Drop)]
pub struct Sealed {
    frames: Arc<Segment>,
    /// How many frames it has.
    count: usize,
}

impl Model for Sealed {
    ghost use Rattle.std.specs.Prelude.{◌≡◌, length};
    ghost use Rattle.dp_frame_log.specs.Frames.{Frames};

    ghost Value = { Frames };

    ghost view = { λ sealed. sealed.frames.value };

    ghost invariant = { λ sealed. sealed.count ≡ length sealed.frames.value.ends };
}

/// Frames of entries, one after another, so that each is made once for all who get it. Segments
/// that are full are shared with those who write them. Frames are added to the last segment.
pub struct FrameLog {
    sealed: Vec<Sealed>,
    last: Segment,
    /// How many frames there are.
    len: usize,
}

// It is written out, so that it is only called where a log is let go. A derived one would be proved
// again there.
impl Drop for FrameLog {
    fn drop(self) {
        let FrameLog {
            sealed,
            last,
            len: _,
        } = self;
        drop(sealed);
        drop(last);
    }
}

impl Model for FrameLog {
    ghost use Rattle.std.specs.Prelude.{◌≡◌};
    ghost use Rattle.dp_frame_log.specs.Frames.{Log, frame_count};

    ghost Value = { Log };

    ghost view = { λ log. record { sealed = log.sealed.items; last = log.last } };

    ghost invariant = { λ log. log.len
        ≡ frame_count (record { sealed = log.sealed.items; last = log.last }) };
}

impl Sealed {
    /// Its frames.
    pub fn frames(&self) -> &Segment
        ensures { result.now ≡ self.now }
    {
        &self.frames
    }

    /// How many frames it has.
    pub fn len(&self) -> usize
        ensures { result ≡ length self.now.ends }
    {
        self.count
    }

    /// Shares the frames from a place on, at most this many, with a page.
    fn share(&self, at: usize, most: usize, page: &mut PageFrames) -> Result<usize, AllocError>
        requires at { at < length self.now.ends }
        requires are { (entries : List Piece) × AreFramesOf self.now entries }
        requires some { 0 < most }
        ensures some { IfOk result (λ count. 0 < count) }
        ensures most { IfOk result (λ count. (count ≤ most) × (at + count ≤ length self.now.ends)) }
        ensures put { IfOk result (λ count. (entries : List Piece) → AreFramesOf self.now entries
            → page.new ≡ frames_of (take count (drop at entries))) }
        ensures short { IfOk result (λ count. IsShort count page.new) }
        ensures err { OnErr result (page.new ≡ []) }
    {
        let most = most.min(self.count - at);
        let Span { start, size, count } = self.frames.span(at, most, PAGE_BYTES);
        page.share(&self.frames, start, size)?;
        Ok(count)
    }
}

/// Shares frames of these segments with a page: those from a place on, at most this many, as far as
/// the segment goes in which the first one stands.
fn share_of(
    sealed: &[Sealed],
    at: usize,
    most: usize,
    page: &mut PageFrames,
) -> Result<usize, AllocError>
    requires are { (entries : List Piece) × AreSealedOf sealed.now entries
        × (at < length entries) }
    requires some { 0 < most }
    ensures some { IfOk result (λ count. 0 < count) }
    ensures most { IfOk result (λ count. count ≤ most) }
    ensures put { IfOk result (λ count. (entries : List Piece) → AreSealedOf sealed.now entries
        → page.new ≡ frames_of (take count (drop at entries))) }
    ensures within { IfOk result (λ count. (entries : List Piece) → AreSealedOf sealed.now entries
        → at + count ≤ length entries) }
    ensures short { IfOk result (λ count. IsShort count page.new) }
    ensures err { OnErr result (page.new ≡ []) }
{
    let mut place = at;
    for segment in sealed {
        if place < segment.count {
            return segment.share(place, most, page);
        }
        place -= segment.count;
    }
    unreachable!()
}

impl FrameLog {
    /// No frame.
    pub fn new(alloc: Global) -> FrameLog
        ensures { AreLogOf result [] }
    {
        FrameLog {
            sealed: Vec::new(alloc),
            last: Segment::new(alloc),
            len: 0,
        }
    }

    /// How many frames there are.
    pub fn len(&self) -> usize
        ensures count { result ≡ frame_count self.now }
        ensures entries { (entries : List Piece) → AreLogOf self.now entries
            → result ≡ length entries }
    {
        self.len
    }

    /// How many frames the full segments have.
    pub fn before(&self) -> usize
        ensures { result ≡ sealed_count self.now.sealed }
    {
        self.len - self.last.len()
    }

    /// Where the memory of the frames comes from.
    pub fn allocator(&self) -> Global {
        self.last.allocator()
    }

    /// Seals the last segment, as far as memory goes.
    fn seal(&mut self)
        ensures { (entries : List Piece) → AreLogOf self.old entries → AreLogOf self.new entries }
    {
        let alloc = self.allocator();
        if self.sealed.reserve(1).is_err() {
            return;
        }
        let count = self.last.len();
        let next = Segment::with_room(alloc, PAGE_BYTES);
        match Arc::new(alloc, replace(&mut self.last, next)) {
            Ok(frames) => {
                self.sealed.push_reserved(Sealed { frames, count });
            }
            Err(AllocFailed { value }) => self.last = value,
        }
    }

    /// Seals the last segment if it is full.
    fn seal_full(&mut self)
        ensures { (entries : List Piece) → AreLogOf self.old entries → AreLogOf self.new entries }
    {
        if self.last.size() >= SEGMENT_BYTES {
            self.seal();
        }
    }

    /// Adds the frame of one more entry.
    ///
    /// # Errors
    ///
    /// The frames are those that there were.
    pub fn append(&mut self, user: u8, msg: &Msg) -> Result<(), AllocError>
        ensures ok { OnOk result ((entries : List Piece) → AreLogOf self.old entries
            → AreLogOf self.new (entries ++ record { user = user; msg = msg.now } ∷ [])) }
        ensures err { OnErr result (self.new ≡ self.old) }
    {
        let Some(len) = self.len.checked_add(1) else {
            return Err(AllocError);
        };
        self.last.append(user, msg)?;
        self.len = len;
        self.seal_full();
        Ok(())
    }

    /// Adds a copy of the frame of an entry.
    ///
    /// # Errors
    ///
    /// The frames are those that there were.
    pub fn add(&mut self, frame: &[u8]) -> Result<(), AllocError>
        ensures ok { OnOk result ((entries : List Piece) (entry : Piece)
            → AreLogOf self.old entries → frame.now ≡ entry_bytes entry
            → AreLogOf self.new (entries ++ entry ∷ [])) }
        ensures err { OnErr result (self.new ≡ self.old) }
    {
        let Some(len) = self.len.checked_add(1) else {
            return Err(AllocError);
        };
        self.last.add(frame)?;
        self.len = len;
        self.seal_full();
        Ok(())
    }

    /// The full segments.
    pub fn sealed(&self) -> &[Sealed]
        ensures { result.now ≡ self.now.sealed }
    {
        self.sealed.as_slice()
    }

    /// The last segment.
    pub fn last(&self) -> &Segment
        ensures { result.now ≡ self.now.last }
    {
        &self.last
    }

    /// Copies frames of the last segment into a page: those from a place on, at most this many.
    fn copy_of(&self, at: usize, most: usize, page: &mut PageFrames) -> Result<usize, AllocError>
        requires are { (entries : List Piece) × AreFramesOf self.now.last entries
            × (at + most ≤ length entries) }
        requires some { 0 < most }
        ensures some { IfOk result (λ count. 0 < count) }
        ensures most { IfOk result (λ count. count ≤ most) }
        ensures put { IfOk result (λ count. (entries : List Piece)
            → AreFramesOf self.now.last entries
            → page.new ≡ frames_of (take count (drop at entries))) }
        ensures short { IfOk result (λ count. IsShort count page.new) }
        ensures err { OnErr result (page.new ≡ []) }
    {
        let Span { start, size, count } = self.last.span(at, most, COPIED_BYTES);
        page.copy(self.last.part(start, size))?;
        Ok(count)
    }

    /// Puts frames into a page, in place of what there was: those from a place on, at most this
    /// many, and those of one segment. They have no more than 262,144 bytes, unless it is one. It
    /// answers how many. Those of a full segment are shared.
    ///
    /// # Errors
    ///
    /// No frame is in the page.
    pub fn put(&self, at: usize, most: usize, page: &mut PageFrames) -> Result<usize, AllocError>
        requires are { (entries : List Piece) × AreLogOf self.now entries
            × (at + most ≤ length entries) }
        requires some { 0 < most }
        ensures some { IfOk result (λ count. 0 < count) }
        ensures most { IfOk result (λ count. count ≤ most) }
        ensures put { IfOk result (λ count. (entries : List Piece) → AreLogOf self.now entries
            → page.new ≡ frames_of (take count (drop at entries))) }
        ensures short { IfOk result (λ count. IsShort count page.new) }
        ensures err { OnErr result (page.new ≡ []) }
    {
        let before = self.before();
        if at < before {
            share_of(&self.sealed, at, most, page)
        } else {
            self.copy_of(at - before, most, page)
        }
    }
}
