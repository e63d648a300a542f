//! Frames as entries, and payloads as messages.
//!
//! The rule: docs/protocol.md, "Messages".

ghost use Rattle.std.specs.Prelude.{◌≡◌, ◌⊎◌, IfOk, IfErr};
ghost use Rattle.dp_msg_draw.specs.Limits.{IsDrawKind};
ghost use Rattle.dp_msg_meta.specs.Payloads.{IsControlKind, IsMetaKind};
ghost use Rattle.dp_messages.specs.declared.message.Entry.{Entry as Item};
ghost use Rattle.dp_messages.specs.declared.message.Msg.{Msg as Message};
ghost use Rattle.dp_messages.specs.declared.decoder.DecodeError.{DecodeError as Refusal};
ghost use Rattle.dp_messages.specs.Messages.{IsListedKind, Spells};
ghost use Rattle.dp_messages.specs.Decoded.{Carries, IsPayloadRefused, Answers};

use crate::laws::{one_answer, one_message};
use crate::{Entry, Msg};
use dp_fields::PayloadError;
use dp_frame::{FrameView, Octets};
use dp_msg_draw::{FILL_RECT, is_listed, one_draw, read_draw, read_fill};
use dp_msg_meta::{is_control_kind, is_meta_kind, read_control, read_meta};
use std::alloc::Global;
use thiserror::Error;

/// Why a frame gives no entry.
#[derive(Clone, Copy, Debug, PartialEq, Eq, Error)]
pub enum DecodeError {
    /// The kind is below 64, and no message is of it.
    #[error("no message has type {0}")]
    Unknown(u8),
    /// No message of the kind has the payload.
    #[error("the payload is no message of type {0}")]
    Malformed(u8),
    #[error("out of memory")]
    Memory,
}

/// The kind of a part of a reset.
pub(crate) const PART_KIND: u8 = 6;

/// The kind of an undo point.
pub(crate) const POINT_KIND: u8 = 128;

/// The kind of an undo or a redo.
pub(crate) const UNDO_KIND: u8 = 255;

/// The least kind of a message with any payload.
const LEAST_OPAQUE_KIND: u8 = 64;

/// The most bytes of a payload.
pub(crate) const PAYLOAD_LIMIT: usize = 65_535;

/// The entry that the frame carries.
///
/// # Errors
///
/// `Unknown` exactly if no message is of the frame's kind, and `Malformed` exactly if none of the
/// kind has its payload, each with the kind. `Memory` if memory runs out.
pub fn decode(alloc: Global, frame: &FrameView<'_>) -> Result<Entry, DecodeError>
    ensures found { IfOk result (Carries frame.now) }
    ensures refused { IfErr result (λ why.
        (why ≡ DecodeError.Memory) ⊎ IsPayloadRefused frame.now.kind frame.now.body why) }

    // The entry that it carries, or why it carries none, is answered, unless memory runs out.
    ensures only { (e : Item) → Carries frame.now e
        → (result ≡ Ok e) ⊎ (result ≡ Err DecodeError.Memory) }
    ensures due { (why : Refusal) → IsPayloadRefused frame.now.kind frame.now.body why
        → (result ≡ Err why) ⊎ (result ≡ Err DecodeError.Memory) }
{
    one_answer();
    let msg = read_message(alloc, frame.kind(), frame.body())?;
    Ok(Entry {
        user: frame.user(),
        msg,
    })
}

/// The message that a payload of this kind spells. No message has a payload of more than 65,535
/// bytes.
///
/// # Errors
///
/// As those of `decode`.
pub fn read_message(alloc: Global, kind: u8, payload: &[u8]) -> Result<Msg, DecodeError>
    ensures found { IfOk result (Spells kind payload.now) }
    ensures refused { IfErr result (λ why.
        (why ≡ DecodeError.Memory) ⊎ IsPayloadRefused kind payload.now why) }

    // The message, or why there is none, is answered, unless memory runs out.
    ensures only { (m : Message) → Spells kind payload.now m
        → (result ≡ Ok m) ⊎ (result ≡ Err DecodeError.Memory) }
    ensures due { (why : Refusal) → IsPayloadRefused kind payload.now why
        → (result ≡ Err why) ⊎ (result ≡ Err DecodeError.Memory) }
{
    one_message();
    one_answer();
    read_by_kind(alloc, kind, payload)
}

fn read_by_kind(alloc: Global, kind: u8, payload: &[u8]) -> Result<Msg, DecodeError>
    ensures { Answers kind payload.now result }
{
    if kind == FILL_RECT {
        read_fill_msg(payload)
    } else if is_control_kind(kind) {
        read_control_msg(alloc, kind, payload)
    } else if is_meta_kind(kind) {
        read_meta_msg(alloc, kind, payload)
    } else if is_listed(kind) {
        read_command(alloc, kind, payload)
    } else {
        match kind {
            PART_KIND => read_part(alloc, payload),
            POINT_KIND => read_point(payload),
            UNDO_KIND => read_undo(payload),
            _ => read_unlisted(alloc, kind, payload),
        }
    }
}

/// What a reader's answer to a payload of this kind says, with the message made by this variant.
macro_rules! answer_of {
    ($read:expr, $kind:expr, $variant:ident) => {
        match $read {
            Ok(fields) => Ok(Msg::$variant(fields)),
            Err(PayloadError::Malformed) => Err(DecodeError::Malformed($kind)),
            Err(PayloadError::Memory) => Err(DecodeError::Memory),
        }
    };
}

fn read_control_msg(alloc: Global, kind: u8, payload: &[u8]) -> Result<Msg, DecodeError>
    requires { IsControlKind kind }
    ensures { Answers kind payload.now result }
{
    answer_of!(read_control(alloc, kind, payload), kind, Control)
}

fn read_meta_msg(alloc: Global, kind: u8, payload: &[u8]) -> Result<Msg, DecodeError>
    requires { IsMetaKind kind }
    ensures { Answers kind payload.now result }
{
    answer_of!(read_meta(alloc, kind, payload), kind, Meta)
}

fn read_fill_msg(payload: &[u8]) -> Result<Msg, DecodeError>
    ensures { Answers 137 payload.now result }
{
    match read_fill(payload) {
        Some(fill) => Ok(Msg::Draw(fill)),
        None => Err(DecodeError::Malformed(FILL_RECT)),
    }
}

fn read_command(alloc: Global, kind: u8, payload: &[u8]) -> Result<Msg, DecodeError>
    requires { IsDrawKind kind }
    ensures { Answers kind payload.now result }
{
    answer_of!(read_draw(alloc, kind, payload), kind, Draw)
}

/// A part of a reset: the kind of a command, and then its payload.
fn read_part(alloc: Global, payload: &[u8]) -> Result<Msg, DecodeError>
    ensures { Answers 6 payload.now result }
{
    one_draw();
    match payload {
        [kind, rest @ ..] if is_listed(*kind) && rest.len() < PAYLOAD_LIMIT => {
            answer_of!(read_draw(alloc, *kind, rest), PART_KIND, Part)
        }
        _ => Err(DecodeError::Malformed(PART_KIND)),
    }
}

fn read_point(payload: &[u8]) -> Result<Msg, DecodeError>
    ensures { Answers 128 payload.now result }
{
    if payload.is_empty() {
        Ok(Msg::Point)
    } else {
        Err(DecodeError::Malformed(POINT_KIND))
    }
}

fn read_undo(payload: &[u8]) -> Result<Msg, DecodeError>
    ensures { Answers 255 payload.now result }
{
    match payload {
        [target, 0] => Ok(Msg::Undo {
            target: *target,
            redo: false,
        }),
        [target, 1] => Ok(Msg::Undo {
            target: *target,
            redo: true,
        }),
        _ => Err(DecodeError::Malformed(UNDO_KIND)),
    }
}

/// A message of a kind that isn't listed: any payload from 64 on, none below.
fn read_unlisted(alloc: Global, kind: u8, payload: &[u8]) -> Result<Msg, DecodeError>
    requires { ¬ IsListedKind kind }
    ensures { Answers kind payload.now result }
{
    one_message();
    if kind < LEAST_OPAQUE_KIND {
        return Err(DecodeError::Unknown(kind));
    }
    if payload.len() > PAYLOAD_LIMIT {
        return Err(DecodeError::Malformed(kind));
    }
    match Vec::from_slice(alloc, payload) {
        Ok(bytes) => Ok(Msg::Opaque {
            kind,
            body: Octets::from_vec(bytes),
        }),
        Err(_) => Err(DecodeError::Memory),
    }
}
