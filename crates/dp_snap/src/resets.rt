//! How a reset begins.

ghost use Rattle.std.specs.Prelude.{◌≡◌};
ghost use Rattle.dp_snap.specs.Resets.{reset_begin};

use dp_messages::Msg;
use dp_msg_meta::Control;

/// The message by which a reset begins whose sender has taken `taken` entries of its epoch. It is
/// one that keeps what comes after them, or one that doesn't.
///
/// The rule: docs/protocol.md, "The world".
pub fn reset_begin(keeps: bool, taken: u32) -> Msg
    ensures { result ≡ reset_begin keeps taken }
{
    if keeps {
        Msg::Control(Control::ResetFrom { at: taken })
    } else {
        Msg::Control(Control::ResetBegin)
    }
}
