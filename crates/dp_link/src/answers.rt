//! What a painter who says Hello is answered. The frames are written without memory, since memory
//! may not run out after the painter has joined.

ghost use Rattle.std.specs.Prelude.{◌≡◌, OnOk, Some};
ghost use Rattle.std.specs.Io.KnownBytes.{Appends};
ghost use Rattle.dp_io.specs.Faults.{HasCause, any_fault};
ghost use Rattle.dp_io.specs.Streams.{GrowsByPrefix};
ghost use Rattle.dp_messages.specs.Messages.{entry_bytes};
ghost use Rattle.dp_link.specs.Answers.{welcome, goodbye, reason_of};

use crate::Greeting;
use dp_epochs::Reply;
use dp_io::{Failed, Sink, put_all};

/// The bytes of a Welcome's frame: its length, its kind, the context 0, the version 1, the user,
/// the epoch and the place.
fn welcome_bytes(greeting: &Greeting) -> [u8; 15]
    ensures { result ≡ entry_bytes (welcome greeting.now) }
{
    let [a, b, c, d] = greeting.epoch.to_be_bytes();
    let [e, f, g, h] = greeting.at.to_be_bytes();
    [0, 11, 4, 0, 0, 1, greeting.user, a, b, c, d, e, f, g, h]
}

/// Writes the Welcome of a greeting. It takes no memory.
pub(crate) fn put_welcome<S: Sink>(tx: &mut S, greeting: &Greeting) -> Result<(), Failed>
    ensures written { OnOk result
        (Appends (S.held tx.old) (S.held tx.new) (entry_bytes (welcome greeting.now))) }
    ensures prefix { GrowsByPrefix (S.held tx.old) (S.held tx.new)
        (entry_bytes (welcome greeting.now)) }
    ensures cause { HasCause any_fault (S.faults tx.old) (S.faults tx.new) result }
{
    let frame = welcome_bytes(greeting);
    put_all(tx, &frame)
}

/// Writes the Disconnect of a reason. It takes no memory.
pub(crate) fn put_goodbye<S: Sink>(tx: &mut S, reason: u8) -> Result<(), Failed>
    ensures written { OnOk result
        (Appends (S.held tx.old) (S.held tx.new) (entry_bytes (goodbye reason))) }
    ensures prefix { GrowsByPrefix (S.held tx.old) (S.held tx.new)
        (entry_bytes (goodbye reason)) }
    ensures cause { HasCause any_fault (S.faults tx.old) (S.faults tx.new) result }
{
    let frame = [0, 1, 1, 0, reason];
    put_all(tx, &frame)
}

/// The reason of the Disconnect that follows an Open with this answer, if one does.
pub(crate) fn reason_of(reply: &Reply) -> Option<u8>
    ensures { result ≡ reason_of reply.now }
{
    match reply {
        Reply::Full => Some(1),
        Reply::NameRefused => Some(2),
        Reply::Ended => Some(3),
        Reply::StoreFault { .. } => Some(4),
        Reply::Opened { .. }
        | Reply::Placed { .. }
        | Reply::Filtered { .. }
        | Reply::Noted
        | Reply::Ignored => None,
    }
}
