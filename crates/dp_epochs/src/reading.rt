//! The event of a row.
//!
//! The rule: docs/protocol.md, "Kept rows".

ghost use Rattle.std.specs.Prelude.{◌≡◌, ◌≢◌, ◌++◌, ◌<◌, ◌^◌, IfOk, IfSome, IfNone, List, ℕ};
ghost use Rattle.dp_fields.specs.Fields.{one_byte, four_bytes};
ghost use Rattle.dp_fields.specs.Reading.{Finds};
ghost use Rattle.dp_messages.specs.Messages.{Spells};
ghost use Rattle.dp_epochs.specs.Spelled.{RowSpells, RowSays};

use crate::event::Event;
use dp_fields::{Field, all};
use dp_frame::Octets;
use dp_messages::{DecodeError, Msg, lifted_kind, one_answer, read_message};
use std::alloc::{AllocError, Global};

/// The first byte of the row of an Open.
pub(crate) const OPEN: u8 = 0;

/// The first byte of the row of a Say, as the first profile had it.
const FIRST_SAY: u8 = 1;

/// The first byte of the row of a Close.
pub(crate) const CLOSE: u8 = 2;

/// The first byte of the row of a Say.
pub(crate) const SAY: u8 = 3;

/// The event that the bytes of a row spell, if they spell one.
pub fn read_row(alloc: Global, bytes: &[u8]) -> Result<Option<Event>, AllocError>
    ensures { IfOk result (Finds (RowSpells bytes.now)) }
{
    match bytes {
        [] => Ok(None),
        [OPEN, rest @ ..] => read_open(alloc, rest),
        [CLOSE, rest @ ..] => Ok(read_close(rest)),
        [first, rest @ ..] => read_say(alloc, *first, rest),
    }
}

/// The flag and the name of an Open.
fn read_open(alloc: Global, bytes: &[u8]) -> Result<Option<Event>, AllocError>
    ensures { IfOk result (Finds (RowSpells (one_byte 0 ++ bytes.now))) }
{
    let Some((registered, name)) = bool::take(bytes) else {
        return Ok(None);
    };
    let name = Octets::from_vec(Vec::from_slice(alloc, name)?);
    Ok(Some(Event::Open { name, registered }))
}

/// The connection of a Close.
fn read_close(bytes: &[u8]) -> Option<Event>
    ensures { Finds (RowSpells (one_byte 2 ++ bytes.now)) result }
{
    let conn = all::<u32>(bytes)?;
    Some(Event::Close { conn })
}

/// A Say whose row begins with this byte.
fn read_say(alloc: Global, first: u8, bytes: &[u8]) -> Result<Option<Event>, AllocError>
    requires open { first ≢ 0 }
    requires close { first ≢ 2 }
    ensures { IfOk result (Finds (RowSpells (one_byte first ++ bytes.now))) }
{
    let Some((conn, kind, payload)) = take_say(bytes) else {
        return Ok(None);
    };
    let Some(msg) = read_said(alloc, first, kind, payload)? else {
        return Ok(None);
    };
    Ok(Some(Event::Say { conn, msg }))
}

/// The connection, the kind and the payload of a Say.
fn take_say(bytes: &[u8]) -> Option<(u32, u8, &[u8])>
    ensures some { IfSome result (λ x. (bytes.now
        ≡ four_bytes x.0 ++ one_byte x.1 ++ x.2.now) × (x.0 < 2 ^ 32)) }
    ensures none { IfNone result ((conn kind : ℕ) (payload : List ℕ) → conn < 2 ^ 32
        → bytes.now ≡ four_bytes conn ++ one_byte kind ++ payload → ⊥) }
{
    let (conn, rest) = u32::take(bytes)?;
    match rest {
        [] => None,
        [kind, payload @ ..] => Some((conn, *kind, payload)),
    }
}

/// The message of a Say whose row begins with this byte.
fn read_said(alloc: Global, first: u8, kind: u8, payload: &[u8]) -> Result<Option<Msg>, AllocError>
    ensures { IfOk result (Finds (RowSays first kind payload.now)) }
{
    match first {
        SAY => find_message(alloc, kind, payload),
        FIRST_SAY => find_message(alloc, lifted_kind(kind), payload),
        _ => Ok(None),
    }
}

/// The message that a payload of this kind spells, if it spells one.
fn find_message(alloc: Global, kind: u8, payload: &[u8]) -> Result<Option<Msg>, AllocError>
    ensures { IfOk result (Finds (Spells kind payload.now)) }
{
    one_answer();
    match read_message(alloc, kind, payload) {
        Ok(msg) => Ok(Some(msg)),
        Err(DecodeError::Memory) => Err(AllocError),
        Err(DecodeError::Unknown(_) | DecodeError::Malformed(_)) => Ok(None),
    }
}
