//! Frames that may stand on a link to a server.

ghost use Rattle.std.specs.Prelude.{◌≡◌};
ghost use Rattle.dp_join_link.specs.JoinStanding.{flaw_of, is_ping, is_welcome, may_come};

use dp_entries::{Refusal, Standing};
use dp_frame::FrameView;
use dp_messages::{DecodeError, Entry, Msg, decode, one_answer};
use dp_msg_meta::Control;
use std::alloc::Global;

/// The least kind of a message that may come after the first.
const LEAST_KIND: u8 = 32;

/// Frames of a link to a server: first a Welcome or a Disconnect, and then messages of kinds from
/// 32 on, Pings and Disconnects.
pub struct JoinStanding;

/// Why a frame may not stand on a link to a server.
#[derive(Clone, Copy)]
pub enum LinkFlaw {
    /// It carries no message.
    NoMessage(DecodeError),
    /// It carries a message of this kind, which may not come there.
    Misplaced(u8),
}

impl Standing for JoinStanding {
    ghost use Rattle.dp_join_link.specs.JoinStanding.{IsFlaw, StandsOnLink};

    type Cause = LinkFlaw;

    ghost may_stand = { StandsOnLink };

    ghost is_cause = { IsFlaw };

    fn judge(
        alloc: Global,
        before: u64,
        frame: &FrameView<'_>,
    ) -> Result<Entry, Refusal<LinkFlaw>> {
        match decode(alloc, frame) {
            Ok(entry) => {
                if may_come(before, &entry.msg) {
                    Ok(entry)
                } else {
                    let kind = entry.msg.kind();
                    drop(entry);
                    Err(Refusal::Cause(LinkFlaw::Misplaced(kind)))
                }
            }
            Err(error) => Err(flaw_of(error)),
        }
    }

    fn one_standing() {
        one_answer();
    }
}

/// Whether the message may come with `before` messages before it.
fn may_come(before: u64, msg: &Msg) -> bool
    ensures { result ≡ may_come before msg.now }
{
    if before == 0 {
        is_welcome(msg) || msg.is_disconnect()
    } else {
        msg.kind() >= LEAST_KIND || is_ping(msg) || msg.is_disconnect()
    }
}

/// Whether the message asks for a sign of life, or is one.
pub(crate) fn is_ping(msg: &Msg) -> bool
    ensures { result ≡ is_ping msg.now }
{
    matches!(msg, Msg::Control(Control::Ping { .. }))
}

/// Whether the message answers a Hello.
fn is_welcome(msg: &Msg) -> bool
    ensures { result ≡ is_welcome msg.now }
{
    matches!(msg, Msg::Control(Control::Welcome { .. }))
}

/// Why a frame that isn't decoded gives no entry.
fn flaw_of(error: DecodeError) -> Refusal<LinkFlaw>
    ensures { result ≡ flaw_of error }
{
    match error {
        DecodeError::Unknown(kind) => {
            Refusal::Cause(LinkFlaw::NoMessage(DecodeError::Unknown(kind)))
        }
        DecodeError::Malformed(kind) => {
            Refusal::Cause(LinkFlaw::NoMessage(DecodeError::Malformed(kind)))
        }
        DecodeError::Memory => Refusal::Memory,
    }
}
