//! Bytes as hexadecimal digits.
//!
//! The rule: docs/protocol.md, "Lines".

ghost use Rattle.std.specs.Prelude.{◌≡◌, ◌++◌, IfOk, OnOk, OnErr};
ghost use Rattle.std.specs.Option.{option_map};
ghost use Rattle.dp_lines.specs.Hexadecimal.{hex_bytes, hex_text};

use hex::{FromHexError, decode, encode};
use std::alloc::{AllocError, Global};

/// The bytes that the digits of the word spell, of either case; `None` if it isn't hexadecimal.
pub fn hex_of(alloc: Global, word: &[u8]) -> Result<Option<Vec<u8>>, AllocError>
    ensures { IfOk result (λ found. option_map (λ bytes. bytes.items) found ≡ hex_bytes word.now) }
{
    match decode(alloc, word) {
        Ok(bytes) => Ok(Some(bytes)),
        Err(FromHexError::OutOfMemory) => Err(AllocError),
        Err(_) => Ok(None),
    }
}

/// Adds the digits of the bytes at the end, in lower case. After an error nothing has changed.
pub fn put_hex(bytes: &[u8], out: &mut Vec<u8>) -> Result<(), AllocError>
    ensures ok { OnOk result (out.new.items ≡ out.old.items ++ hex_text bytes.now) }
    ensures err { OnErr result (out.new.items ≡ out.old.items) }
{
    let digits = encode(*out.allocator(), bytes)?;
    out.extend_from_slice(digits.as_bytes())
}
