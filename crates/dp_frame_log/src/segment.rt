//! A segment of the frames of entries.

ghost use Rattle.std.specs.Prelude.{◌≡◌, ◌+◌, ◌<◌, ◌≤◌, ◌∷◌, ◌++◌, [], List, length, take, drop};
ghost use Rattle.std.specs.Prelude.{◌-◌, ◌⊎◌, slice_index_or, IfOk, OnOk, OnErr};
ghost use Rattle.dp_messages.specs.declared.message.Entry.{Entry as Piece};
ghost use Rattle.dp_messages.specs.Messages.{entry_bytes};
ghost use Rattle.dp_frame_log.specs.Frames.{AreFramesOf, IsShort, frames_of, page_limit};

use dp_lists::{prefix_of, rest_of};
use dp_messages::{Msg, put_message};
use std::alloc::{AllocError, Global};
use std::marker::Model;

/// A page of more bytes has one entry.
pub(crate) const PAGE_BYTES: usize = 1 << 18;
/// A page of more bytes that are copied has one entry: each link keeps room for its own copies.
pub(crate) const COPIED_BYTES: usize = 1 << 14;

/// Frames of entries, one after another. They are seen as their bytes and the places where they
/// end.
#[derive(Drop)]
pub struct Segment {
    bytes: Vec<u8>,
    ends: Vec<u32>,
}

impl Model for Segment {
    ghost use Rattle.dp_frame_log.specs.Frames.{Frames};

    ghost Value = { Frames };

    ghost view = { λ segment. record {
      bytes = segment.bytes.items;
      ends = segment.ends.items;
    } };
}

/// A part of the bytes of a segment: some of its frames.
#[derive(Clone, Copy)]
pub(crate) struct Span {
    pub start: usize,
    pub size: usize,
    /// How many frames they are.
    pub count: usize,
}

/// How many of the frames that end at these places end up to a limit, or one.
fn count_within(ends: &[u32], limit: usize) -> usize
    requires { 0 < length ends.now }
    ensures some { 0 < result }
    ensures within { result ≤ length ends.now }
    ensures limit { (result ≡ 1) ⊎ (slice_index_or ends.now (result - 1) 0 ≤ limit) }
{
    let mut count = 1;
    let mut end = ends.len();
    while count < end {
        let middle = count + (end - count) / 2;
        if ends[middle] as usize <= limit {
            count = middle + 1;
        } else {
            end = middle;
        }
    }
    count
}

/// Where the bytes end, to which a frame was added at a place. If no number of a segment can say
/// it, the frame is taken away again.
///
/// # Errors
///
/// The bytes are those before the place.
fn end_after(bytes: &mut Vec<u8>, before: usize) -> Result<u32, AllocError>
    requires { before ≤ length bytes.old.items }
    ensures end { IfOk result (λ end. end ≡ length bytes.old.items) }
    ensures ok { OnOk result (bytes.new.items ≡ bytes.old.items) }
    ensures err { OnErr result (bytes.new.items ≡ take before bytes.old.items) }
{
    match u32::try_from(bytes.len()) {
        Ok(end) => Ok(end),
        Err(_) => {
            bytes.truncate(before);
            Err(AllocError)
        }
    }
}

impl Segment {
    /// No frame.
    pub(crate) fn new(alloc: Global) -> Segment
        ensures { AreFramesOf result [] }
    {
        Segment {
            bytes: Vec::new(alloc),
            ends: Vec::new(alloc),
        }
    }

    /// Where its memory comes from.
    pub(crate) fn allocator(&self) -> Global {
        *self.bytes.allocator()
    }

    /// How many frames it has.
    pub fn len(&self) -> usize
        ensures { result ≡ length self.now.ends }
    {
        self.ends.len()
    }

    /// How many bytes they have.
    pub(crate) fn size(&self) -> usize {
        self.bytes.len()
    }

    /// The bytes from a place on, of this number.
    pub(crate) fn part(&self, start: usize, size: usize) -> &[u8]
        ensures { result.now ≡ take size (drop start self.now.bytes) }
    {
        prefix_of(rest_of(&self.bytes, start), size)
    }

    /// No frame, with room for this number of bytes if there is memory.
    pub(crate) fn with_room(alloc: Global, size: usize) -> Segment
        ensures { AreFramesOf result [] }
    {
        let mut segment = Segment::new(alloc);
        let _ = segment.bytes.reserve(size);
        segment
    }

    /// Adds the frame of one more entry.
    ///
    /// # Errors
    ///
    /// The frames are those that there were.
    pub(crate) fn append(&mut self, user: u8, msg: &Msg) -> Result<(), AllocError>
        ensures ok { OnOk result ((entries : List Piece) → AreFramesOf self.old entries
            → AreFramesOf self.new (entries ++ record { user = user; msg = msg.now } ∷ [])) }
        ensures count { OnOk result (length self.new.ends ≡ length self.old.ends + 1) }
        ensures err { OnErr result (self.new ≡ self.old) }
    {
        self.ends.reserve(1)?;
        let before = self.bytes.len();
        put_message(user, msg, &mut self.bytes)?;
        let end = end_after(&mut self.bytes, before)?;
        self.ends.push_reserved(end);
        Ok(())
    }

    /// Adds a copy of the frame of an entry.
    ///
    /// # Errors
    ///
    /// The frames are those that there were.
    pub(crate) fn add(&mut self, frame: &[u8]) -> Result<(), AllocError>
        ensures ok { OnOk result ((entries : List Piece) (entry : Piece)
            → AreFramesOf self.old entries → frame.now ≡ entry_bytes entry
            → AreFramesOf self.new (entries ++ entry ∷ [])) }
        ensures count { OnOk result (length self.new.ends ≡ length self.old.ends + 1) }
        ensures err { OnErr result (self.new ≡ self.old) }
    {
        self.ends.reserve(1)?;
        let before = self.bytes.len();
        self.bytes.extend_from_slice(frame)?;
        let end = end_after(&mut self.bytes, before)?;
        self.ends.push_reserved(end);
        Ok(())
    }

    /// Where the frame of the entry at a place begins, or where the last one ends.
    fn start(&self, at: usize) -> usize
        requires { (entries : List Piece) × AreFramesOf self.now entries × (at ≤ length entries) }
        ensures { (entries : List Piece) → AreFramesOf self.now entries
            → result ≡ length (frames_of (take at entries)) }
    {
        if at == 0 {
            0
        } else {
            self.ends[at - 1] as usize
        }
    }

    /// The frame of the entry at a place.
    pub fn frame(&self, at: usize) -> &[u8]
        requires { (entries : List Piece) × AreFramesOf self.now entries × (at < length entries) }
        ensures { (entries : List Piece) → AreFramesOf self.now entries
            → result.now ≡ frames_of (take 1 (drop at entries)) }
    {
        let start = self.start(at);
        let end = self.ends[at] as usize;
        self.part(start, end.saturating_sub(start))
    }

    /// The frames from a place on, at most this many. They have no more than `limit` bytes, unless
    /// it is one.
    pub(crate) fn span(&self, at: usize, most: usize, limit: usize) -> Span
        requires are { (entries : List Piece) × AreFramesOf self.now entries
            × (at + most ≤ length entries) }
        requires some { 0 < most }
        requires limit { limit ≤ page_limit }
        ensures some { 0 < result.count }
        ensures most { result.count ≤ most }
        ensures are { (entries : List Piece) → AreFramesOf self.now entries
            → take result.size (drop result.start self.now.bytes)
            ≡ frames_of (take result.count (drop at entries)) }
        ensures short { IsShort result.count (take result.size (drop result.start self.now.bytes)) }
    {
        let start = self.start(at);
        let ends = prefix_of(rest_of(&self.ends, at), most);
        let count = count_within(ends, start.saturating_add(limit));
        let size = self.start(at + count).saturating_sub(start);
        Span { start, size, count }
    }
}
