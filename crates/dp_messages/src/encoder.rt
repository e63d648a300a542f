//! Entries as frames, and messages as payloads.
//!
//! The rule: docs/protocol.md, "Messages".

ghost use Rattle.std.specs.Prelude.{◌≡◌, ◌+◌, ◌/◌, ◌%◌, ◌<◌, ◌++◌, IfOk, OnOk, OnErr};
ghost use Rattle.std.specs.Prelude.{slice_set, vec_len};
ghost use Rattle.dp_fields.specs.Fields.{one_byte};
ghost use Rattle.dp_msg_draw.specs.Payloads.{draw_kind, draw_payload};
ghost use Rattle.dp_messages.specs.declared.message.Entry.{Entry as Item};
ghost use Rattle.dp_messages.specs.Messages.{HasSpelling, payload_of, entry_bytes};
ghost use Rattle.dp_messages.specs.Decoded.{Carries, CarriesNothing};

use crate::decoder::PAYLOAD_LIMIT;
use crate::laws::{one_answer, one_message};
use crate::{DecodeError, Entry, Msg, decode, same};
use dp_frame::{Frame, Octets};
use dp_msg_draw::{Draw, kind_of_draw, write_draw};
use dp_msg_meta::{write_control, write_meta};
use std::alloc::{AllocError, Global};

/// A kind that no message is of.
const NO_KIND: u8 = 9;

/// A frame of this sender that carries nothing.
fn frame_of_nothing(alloc: Global, user: u8) -> Frame
    ensures { CarriesNothing result }
{
    one_answer();
    Frame::new(NO_KIND, user, Octets::new(alloc))
}

/// The frame of the entry: the sender as its context id, and the message's one spelling.
///
/// A message that has no spelling comes out as an empty frame of kind 9, which carries nothing. So
/// what was written is read once again.
pub fn encode(alloc: Global, entry: &Entry) -> Result<Frame, AllocError>
    ensures spelled { IfOk result (λ frame. HasSpelling entry.now.msg → Carries frame entry.now) }
    ensures only { IfOk result (λ frame. (e : Item) → Carries frame e → e ≡ entry.now) }
{
    one_message();
    one_answer();
    let mut payload = Vec::new(alloc);
    put_payload(&entry.msg, &mut payload)?;
    if payload.len() > PAYLOAD_LIMIT {
        return Ok(frame_of_nothing(alloc, entry.user));
    }
    let frame = Frame::new(entry.msg.kind(), entry.user, Octets::from_vec(payload));
    let read = decode(alloc, &frame.view());
    match read {
        Ok(again) => {
            if same(&again.msg, &entry.msg) {
                Ok(frame)
            } else {
                Ok(frame_of_nothing(alloc, entry.user))
            }
        }
        Err(DecodeError::Memory) => Err(AllocError),
        Err(_) => Ok(frame_of_nothing(alloc, entry.user)),
    }
}

/// Adds the payload of the message at the end, whether the message has a spelling or not.
///
/// # Errors
///
/// If memory runs out. `out` is then as it was.
pub fn put_payload(msg: &Msg, out: &mut Vec<u8>) -> Result<(), AllocError>
    ensures ok { OnOk result (out.new.items ≡ out.old.items ++ payload_of msg.now) }
    ensures err { OnErr result (out.new.items ≡ out.old.items) }
{
    match msg {
        Msg::Control(control) => write_control(control, out),
        Msg::Meta(meta) => write_meta(meta, out),
        Msg::Part(command) => put_part(command, out),
        Msg::Point => Ok(()),
        Msg::Undo { target, redo } => out.extend_from_slice(&[*target, u8::from(*redo)]),
        Msg::Draw(command) => write_draw(command, out),
        Msg::Opaque { body, .. } => out.extend_from_slice(body.as_slice()),
    }
}

/// Adds the kind of a command, and then its payload.
fn put_part(command: &Draw, out: &mut Vec<u8>) -> Result<(), AllocError>
    ensures ok { OnOk result (out.new.items
        ≡ out.old.items ++ (one_byte (draw_kind command.now) ++ draw_payload command.now)) }
    ensures err { OnErr result (out.new.items ≡ out.old.items) }
{
    let start = out.len();
    out.extend_from_slice(&[kind_of_draw(command)])?;
    if let Err(error) = write_draw(command, out) {
        out.truncate(start);
        return Err(error);
    }
    Ok(())
}

/// Adds the bytes of the entry's frame at the end. They are read again as the entry if the
/// message has a spelling (`entries_are_read_again`).
///
/// # Errors
///
/// If memory runs out. `out` is then as it was.
pub fn put_entry(entry: &Entry, out: &mut Vec<u8>) -> Result<(), AllocError>
    ensures ok { OnOk result (out.new.items ≡ out.old.items ++ entry_bytes entry.now) }
    ensures err { OnErr result (out.new.items ≡ out.old.items) }
{
    put_message(entry.user, &entry.msg, out)
}

/// Puts a length into a header that begins at a place.
fn set_length(out: &mut Vec<u8>, start: usize, len: usize)
    requires { start + 1 < vec_len out.old }
    ensures { out.new.items ≡ slice_set
        (slice_set out.old.items start (len / 256 % 256)) (start + 1) (len % 256) }
{
    out[start] = (len / 256 % 256) as u8;
    out[start + 1] = (len % 256) as u8;
}

/// Adds the bytes of the frame of a message that this user says, at the end.
///
/// # Errors
///
/// If memory runs out. `out` is then as it was.
pub fn put_message(user: u8, msg: &Msg, out: &mut Vec<u8>) -> Result<(), AllocError>
    ensures ok { OnOk result (out.new.items
        ≡ out.old.items ++ entry_bytes (record { user = user; msg = msg.now })) }
    ensures err { OnErr result (out.new.items ≡ out.old.items) }
{
    let head = out.len();
    out.extend_from_slice(&[0, 0, msg.kind(), user])?;
    let start = out.len();
    if let Err(error) = put_payload(msg, out) {
        out.truncate(head);
        return Err(error);
    }
    set_length(out, head, out.len() - start);
    Ok(())
}
