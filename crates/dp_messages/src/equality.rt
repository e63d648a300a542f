//! Whether two messages are equal.

ghost use Rattle.std.specs.Prelude.{◌≡◌, ◌↔◌, true};
ghost use Rattle.dp_messages.specs.Equality.{same_message};

use crate::Msg;
use crate::laws::one_equality;
use dp_msg_draw::same_draw;
use dp_msg_meta::{same_control, same_meta};

/// Whether two messages are equal, field by field. It takes no memory.
pub fn same(a: &Msg, b: &Msg) -> bool
    ensures value { result ≡ same_message a.now b.now }
    ensures equal { (result ≡ true) ↔ (a.now ≡ b.now) }
{
    one_equality();
    match (a, b) {
        (Msg::Control(control), Msg::Control(other)) => same_control(control, other),
        (Msg::Meta(meta), Msg::Meta(other)) => same_meta(meta, other),
        (Msg::Part(command), Msg::Part(other)) => same_draw(command, other),
        (Msg::Point, Msg::Point) => true,
        (
            Msg::Undo { target, redo },
            Msg::Undo {
                target: other_target,
                redo: other_redo,
            },
        ) => target == other_target && redo == other_redo,
        (Msg::Draw(command), Msg::Draw(other)) => same_draw(command, other),
        (
            Msg::Opaque { kind, body },
            Msg::Opaque {
                kind: other_kind,
                body: other_body,
            },
        ) => kind == other_kind && body.as_slice() == other_body.as_slice(),
        _ => false,
    }
}
