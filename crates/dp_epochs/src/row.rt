//! The row of an event.

ghost use Rattle.std.specs.Prelude.{◌≡◌, IfOk};
ghost use Rattle.dp_epochs.specs.Rows.{row_of};

use crate::event::Event;
use crate::reading::{CLOSE, OPEN, SAY};
use dp_messages::put_payload;
use std::alloc::{AllocError, Global};

/// Room for most rows, which is made at once.
const ROOM: usize = 48;

/// The bytes of the row of the event.
pub fn make_row(alloc: Global, event: &Event) -> Result<Vec<u8>, AllocError>
    ensures { IfOk result (λ bytes. bytes.items ≡ row_of event.now) }
{
    let mut bytes = Vec::new(alloc);
    bytes.reserve(ROOM)?;
    match event {
        Event::Open { name, registered } => {
            bytes.extend_from_slice(&[OPEN, u8::from(*registered)])?;
            bytes.extend_from_slice(name.as_slice())?;
        }
        Event::Say { conn, msg } => {
            bytes.push(SAY)?;
            bytes.extend_from_slice(&conn.to_be_bytes())?;
            bytes.push(msg.kind())?;
            put_payload(msg, &mut bytes)?;
        }
        Event::Close { conn } => {
            bytes.push(CLOSE)?;
            bytes.extend_from_slice(&conn.to_be_bytes())?;
        }
    }
    Ok(bytes)
}
