//! Frames of the first profile.
//!
//! The rule: docs/protocol.md, "Messages".

ghost use Rattle.std.specs.Prelude.{◌≡◌};
ghost use Rattle.dp_messages.specs.Messages.{lifted_kind};

/// The kind of an UndoDepth, which the first profile doesn't list.
const UNDO_DEPTH_KIND: u8 = 70;

/// A kind that neither profile lists.
const LIFTED_KIND: u8 = 71;

/// The kind as which a frame of the first profile is read: 70 as 71, and every other as itself.
pub fn lifted_kind(kind: u8) -> u8
    ensures { result ≡ lifted_kind kind }
{
    if kind == UNDO_DEPTH_KIND {
        LIFTED_KIND
    } else {
        kind
    }
}
