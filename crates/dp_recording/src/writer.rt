//! Writing a recording.

ghost use Rattle.std.specs.Prelude.{◌≡◌, ◌++◌, OnOk, OnErr};
ghost use Rattle.dp_recording.specs.Headers.{header_bytes};

use crate::header::HEADER;
use std::alloc::AllocError;

/// Adds the header of a recording at the end. After it come the entries, by `put_entry` of
/// dp_messages. After an error the bytes are as they were.
pub fn put_header(out: &mut Vec<u8>) -> Result<(), AllocError>
    ensures ok { OnOk result (out.new.items ≡ out.old.items ++ header_bytes) }
    ensures err { OnErr result (out.new.items ≡ out.old.items) }
{
    out.extend_from_slice(HEADER.as_slice())
}
