//! Pieces of a text.

ghost use Rattle.std.specs.Prelude.{◌≡◌, IfOk};
ghost use Rattle.dp_showing.specs.Showing.{hex_frame};

use dp_lines::put_hex;
use dp_messages::{Entry, put_entry};
use std::alloc::{AllocError, Global};

/// The frame of an entry in hexadecimal.
pub(crate) fn hex_frame(alloc: Global, entry: &Entry) -> Result<Vec<u8>, AllocError>
    ensures { IfOk result (λ text. text.items ≡ hex_frame entry.now) }
{
    let mut frame = Vec::new(alloc);
    put_entry(entry, &mut frame)?;
    let mut text = Vec::new(alloc);
    put_hex(&frame, &mut text)?;
    Ok(text)
}
