//! Which entries answer a send.

ghost use Rattle.std.specs.Prelude.{◌≡◌};
ghost use Rattle.dp_client.specs.Client.{may_answer};
ghost use Rattle.dp_messages.specs.Properties.{carried_in};

use dp_messages::{Entry, Msg};
use dp_msg_meta::Meta;

/// Whether the message may answer a send.
pub(crate) fn may_answer(msg: &Msg) -> bool
    ensures { result ≡ may_answer msg.now }
{
    match msg {
        Msg::Meta(Meta::Join { .. } | Meta::Leave) => false,
        Msg::Meta(Meta::Filtered { kind }) => *kind >= 32,
        _ => true,
    }
}

/// What the mark that heads the entries says of that.
pub(crate) fn carried_in(entries: &[Entry]) -> u32
    ensures { result ≡ carried_in entries.now }
{
    match entries {
        [first, ..] => first.msg.carried_by(),
        [] => 0,
    }
}
