//! One frame, and its spelling in bytes.
//!
//! The rule: docs/protocol.md, "Frames".

ghost use Rattle.std.specs.Prelude.{◌≡◌, ◌<◌, ◌^◌, ◌++◌, length, OnOk, OnErr};
ghost use Rattle.dp_frame.specs.Frames.{IsFrame, spelling};

use crate::Octets;
use byteorder::{BigEndian, ByteOrder};
use std::alloc::AllocError;
use std::marker::Model;

/// A frame: its type byte, its context byte and its payload of at most 65,535 bytes.
#[derive(Drop, Debug)]
pub struct Frame {
    kind: u8,
    user: u8,
    body: Octets,
}

impl Model for Frame {
    ghost use Rattle.dp_frame.specs.Frames.{FrameParts};
    ghost use Rattle.std.specs.Prelude.{◌<◌, ◌^◌, length};

    ghost Value = { FrameParts };

    ghost view = { λ f. record { kind = f.kind; user = f.user; body = f.body } };

    ghost invariant = { λ f. length f.body < 2 ^ 16 };
}

impl Frame {
    /// The frame of this type byte, context byte and payload.
    pub fn new(kind: u8, user: u8, body: Octets) -> Frame
        requires { length body < 2 ^ 16 }
        ensures { result ≡ record { kind = kind; user = user; body = body } }
    {
        Frame { kind, user, body }
    }

    /// The type byte, the kind of the message.
    pub fn kind(&self) -> u8
        ensures value { result ≡ self.now.kind }
        ensures fits { IsFrame self.now }
    {
        self.kind
    }

    /// The context byte, the user who sent the message.
    pub fn user(&self) -> u8
        ensures value { result ≡ self.now.user }
        ensures fits { IsFrame self.now }
    {
        self.user
    }

    /// The payload, at most 65,535 bytes.
    pub fn body(&self) -> &Octets
        ensures value { result.now ≡ self.now.body }
        ensures fits { IsFrame self.now }
    {
        &self.body
    }

    /// The frame, to be looked at.
    pub fn view(&self) -> FrameView<'_>
        ensures { result ≡ self.now }
    {
        FrameView {
            kind: self.kind,
            user: self.user,
            body: self.body.as_slice(),
        }
    }
}

/// A frame whose payload lies elsewhere.
#[derive(Drop)]
pub struct FrameView<'a> {
    kind: u8,
    user: u8,
    body: &'a [u8],
}

impl<'a> Model for FrameView<'a> {
    ghost use Rattle.dp_frame.specs.Frames.{FrameParts};
    ghost use Rattle.std.specs.Prelude.{◌<◌, ◌^◌, length};

    ghost Value = { FrameParts };

    ghost view = { λ f. record { kind = f.kind; user = f.user; body = f.body.now } };

    ghost invariant = { λ f. length f.body.now < 2 ^ 16 };
}

impl<'a> FrameView<'a> {
    /// The frame of this type byte, context byte and payload.
    pub fn new(kind: u8, user: u8, body: &'a [u8]) -> FrameView<'a>
        requires { length body.now < 2 ^ 16 }
        ensures { result ≡ record { kind = kind; user = user; body = body.now } }
    {
        FrameView { kind, user, body }
    }

    /// The type byte, the kind of the message.
    pub fn kind(&self) -> u8
        ensures value { result ≡ self.now.kind }
        ensures fits { IsFrame self.now }
    {
        self.kind
    }

    /// The context byte, the user who sent the message.
    pub fn user(&self) -> u8
        ensures value { result ≡ self.now.user }
        ensures fits { IsFrame self.now }
    {
        self.user
    }

    /// The payload, at most 65,535 bytes.
    pub fn body(&self) -> &'a [u8]
        ensures value { result.now ≡ self.now.body }
        ensures fits { IsFrame self.now }
    {
        self.body
    }
}

/// Adds the bytes of the frame at the end: four of the header, and the payload.
///
/// # Errors
///
/// If memory runs out. `out` is then as it was.
pub fn write_frame(frame: &Frame, out: &mut Octets) -> Result<(), AllocError>
    ensures ok { OnOk result (out.new ≡ out.old ++ spelling frame.now) }
    ensures err { OnErr result (out.new ≡ out.old) }
{
    let body = frame.body.as_slice();
    let mut header = [0, 0, frame.kind, frame.user];
    BigEndian::write_u16(&mut header, body.len() as u16);
    out.append_both(&header, body)
}
