//! Bytes that come in pieces, taken as frames.
//!
//! The rule: docs/protocol.md, "Frames".

ghost use Rattle.std.specs.Prelude.{◌≡◌, ℕ, ◌+◌, ◌<◌, ◌^◌, List, ◌++◌, [], drop, length};
ghost use Rattle.std.specs.Prelude.{IfSome, IfNone, OnSome, IfOk, OnOk, OnErr};
ghost use Rattle.dp_frame.specs.Frames.{FrameParts, IsFrame, spelling, HoldsNoFrame};
ghost use Rattle.dp_frame.specs.Frames.{IsFrameLength};

use byteorder::{BigEndian, ByteOrder};
use bytes::BytesMut;
use dp_frame::{Frame, FrameView, Octets};
use std::alloc::{AllocError, Global};
use std::marker::Model;

/// The bytes of a header: the length in two, the type byte and the context byte.
const HEADER_LEN: usize = 4;

/// Bytes that come in pieces, given back as frames.
#[derive(Drop, Debug)]
pub struct Splitter {
    buffer: BytesMut,
    at: u64,
}

impl Model for Splitter {
    ghost use Rattle.std.specs.Prelude.{◌+◌, ◌<◌, ◌^◌, length};
    ghost use Rattle.dp_split.specs.Stream.{Stream};

    ghost Value = { Stream };

    ghost view = { λ s. record { held = s.buffer.items; at = s.at } };

    ghost invariant = { λ s. s.at + length s.buffer.items < 2 ^ 64 };
}

impl Splitter {
    /// Holds no byte, and has taken none.
    pub fn new(alloc: Global) -> Splitter
        ensures held { result.held ≡ [] }
        ensures at { result.at ≡ 0 }
    {
        Splitter {
            buffer: BytesMut::new(alloc),
            at: 0,
        }
    }

    /// Adds the bytes after those that are held.
    ///
    /// # Errors
    ///
    /// If memory runs out. Nothing has changed then.
    pub fn feed(&mut self, bytes: &[u8]) -> Result<(), AllocError>
        requires { self.old.at + length self.old.held + length bytes.now < 2 ^ 64 }
        ensures ok { OnOk result (self.new.held ≡ self.old.held ++ bytes.now) }
        ensures at { self.new.at ≡ self.old.at }
        ensures err { OnErr result (self.new ≡ self.old) }
    {
        self.buffer.extend_from_slice(bytes)
    }

    /// Takes the first frame, if a whole one is held.
    ///
    /// # Errors
    ///
    /// If memory runs out. Nothing has changed then.
    pub fn take_frame(&mut self) -> Result<Option<Frame>, AllocError>
        // What was held begins with the frame, and the rest is kept.
        ensures prefix { IfOk result (λ taken. IfSome taken
            (λ f. self.old.held ≡ spelling f ++ self.new.held)) }
        ensures fits { IfOk result (λ taken. IfSome taken IsFrame) }
        ensures raised { IfOk result (λ taken. IfSome taken
            (λ f. self.new.at ≡ self.old.at + length (spelling f))) }

        // There is none only if no whole frame is held.
        ensures none { IfOk result (λ taken. IfNone taken (HoldsNoFrame self.old.held)) }
        ensures kept { IfOk result (λ taken. IfNone taken (self.new ≡ self.old)) }

        // It asks for memory only if a whole frame is held.
        ensures memory { OnErr result (¬ HoldsNoFrame self.old.held) }
        ensures err { OnErr result (self.new ≡ self.old) }

        // No byte is lost or counted twice.
        ensures count { self.new.at + length self.new.held ≡ self.old.at + length self.old.held }
    {
        let held = self.buffer.as_slice();
        let Some(len) = whole_len(held) else {
            return Ok(None);
        };
        let frame = read_frame(*self.buffer.allocator(), &held[..len])?;
        self.buffer.advance(len);
        self.at += len as u64;
        Ok(Some(frame))
    }

    /// The first frame, if a whole one is held. It stays where it is, and is held until it is
    /// dropped.
    pub fn peek_frame(&self) -> Option<FrameView<'_>>
        ensures prefix { IfSome result (λ f.
            self.now.held ≡ spelling f ++ drop (length (spelling f)) self.now.held) }
        ensures fits { IfSome result IsFrame }
        ensures none { IfNone result (HoldsNoFrame self.now.held) }
    {
        let held = self.buffer.as_slice();
        let len = whole_len(held)?;
        Some(view_of(&held[..len]))
    }

    /// Drops the first frame, which is held whole.
    pub fn drop_frame(&mut self)
        requires { ¬ HoldsNoFrame self.old.held }
        ensures prefix { (f : FrameParts) (rest : List ℕ) → IsFrame f
            → self.old.held ≡ spelling f ++ rest
            → self.new ≡ record { held = rest; at = self.old.at + length (spelling f) } }
        ensures count { self.new.at + length self.new.held ≡ self.old.at + length self.old.held }
        ensures later { self.old.at < self.new.at }
    {
        if let Some(len) = whole_len(self.buffer.as_slice()) {
            self.buffer.advance(len);
            self.at += len as u64;
        }
    }

    /// How many bytes are held, of which no frame was taken yet.
    pub fn rest_len(&self) -> usize
        ensures value { result ≡ length self.now.held }
        ensures fits { self.now.at + length self.now.held < 2 ^ 64 }
    {
        self.buffer.len()
    }

    /// How many bytes were taken as frames: the place of the next frame in the stream.
    pub fn at(&self) -> u64
        ensures value { result ≡ self.now.at }
        ensures fits { self.now.at + length self.now.held < 2 ^ 64 }
    {
        self.at
    }
}

/// How many bytes the first frame has, header and payload, if it is whole.
fn whole_len(bytes: &[u8]) -> Option<usize>
    ensures whole { IfSome result (λ len. IsFrameLength bytes.now len) }
    ensures some { OnSome result (¬ HoldsNoFrame bytes.now) }
    ensures none { IfNone result (HoldsNoFrame bytes.now) }
{
    if bytes.len() < HEADER_LEN {
        return None;
    }
    let len = HEADER_LEN + BigEndian::read_u16(bytes) as usize;
    if len <= bytes.len() { Some(len) } else { None }
}

/// The frame that the bytes spell, where it lies.
fn view_of(bytes: &[u8]) -> FrameView<'_>
    requires { IsFrameLength bytes.now (length bytes.now) }
    ensures value { bytes.now ≡ spelling result }
    ensures fits { IsFrame result }
{
    FrameView::new(bytes[2], bytes[3], &bytes[HEADER_LEN..])
}

/// The frame that the bytes spell.
fn read_frame(alloc: Global, bytes: &[u8]) -> Result<Frame, AllocError>
    requires { IsFrameLength bytes.now (length bytes.now) }
    ensures value { IfOk result (λ f. bytes.now ≡ spelling f) }
    ensures fits { IfOk result IsFrame }
{
    let body = Vec::from_slice(alloc, &bytes[HEADER_LEN..])?;
    Ok(Frame::new(bytes[2], bytes[3], Octets::from_vec(body)))
}
