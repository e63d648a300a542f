//! What the entries of a history do to strokes.
//!
//! The rule: docs/protocol.md, "Strokes, undo and redo".

ghost use Rattle.std.specs.Prelude.{◌≡◌, IfOk};
ghost use Rattle.dp_replay.specs.Kinds.{kind_of_entry};
ghost use Rattle.dp_replay.specs.Replay.{act_of, act_of_message, act_of_meta, user_act_of};
ghost use Rattle.dp_replay.specs.Replay.{is_command, moved_user};

use dp_board::{Act, UserAct};
use dp_messages::{Entry, Msg};
use dp_msg_draw::Draw;
use dp_msg_meta::Meta;
use std::alloc::AllocError;

/// How many of the last points undo and redo reach at the start of a history.
pub const UNDO_DEPTH: u32 = 30;

/// What an entry does to strokes, with a copy of its command.
pub fn act_of(entry: &Entry) -> Result<Act<Draw>, AllocError>
    ensures { IfOk result (λ act. act ≡ act_of entry.now) }
{
    act_of_message(entry.user, &entry.msg)
}

/// What a message of a sender does to strokes, with a copy of its command.
pub fn act_of_message(sender: u8, msg: &Msg) -> Result<Act<Draw>, AllocError>
    ensures { IfOk result (λ act. act ≡ act_of_message sender msg.now) }
{
    Ok(match msg {
        Msg::Point => Act::Point,
        Msg::Undo {
            target,
            redo: false,
        } => Act::Undo {
            who: moved_user(sender, *target),
        },
        Msg::Undo { target, redo: true } => Act::Redo {
            who: moved_user(sender, *target),
        },
        Msg::Draw(command) => Act::Draw(command.copy()?),
        Msg::Meta(meta) => act_of_meta(meta),
        Msg::Control(_) | Msg::Part(_) | Msg::Opaque { .. } => Act::Other,
    })
}

/// What a message on the session does to strokes.
fn act_of_meta<Op>(meta: &Meta) -> Act<Op>
    ensures { result ≡ act_of_meta meta.now }
{
    match meta {
        Meta::UndoDepth { depth } => Act::Depth(*depth),
        _ => Act::Other,
    }
}

/// What an entry does to strokes, with the user who sent it. The command is moved, not copied.
#[inline(always)]
pub fn act_of_entry(entry: Entry) -> UserAct<Draw>
    ensures { result ≡ user_act_of entry }
{
    let Entry { user, msg } = entry;
    let act = match msg {
        Msg::Point => Act::Point,
        Msg::Undo {
            target,
            redo: false,
        } => Act::Undo {
            who: moved_user(user, target),
        },
        Msg::Undo { target, redo: true } => Act::Redo {
            who: moved_user(user, target),
        },
        Msg::Draw(command) => Act::Draw(command),
        Msg::Control(_control) => Act::Other,
        Msg::Meta(meta) => act_of_meta(&meta),
        Msg::Part(_part) => Act::Other,
        Msg::Opaque { body: _body, .. } => Act::Other,
    };
    UserAct { user, act }
}

/// Whether the message is a command.
pub fn is_command(msg: &Msg) -> bool
    ensures { result ≡ is_command msg.now }
{
    matches!(msg, Msg::Draw(_))
}

/// What an entry does to strokes, without its command.
#[tactic(auto, using(crate::proofs::EntryKinds::kind_of_meta), unfolding(crate::specs::Kinds::kind_of_entry))]
pub fn kind_of_entry(entry: &Entry) -> UserAct<()>
    ensures { result ≡ kind_of_entry entry.now }
{
    let user = entry.user;
    let act = match &entry.msg {
        Msg::Point => Act::Point,
        Msg::Undo {
            target,
            redo: false,
        } => Act::Undo {
            who: moved_user(user, *target),
        },
        Msg::Undo { target, redo: true } => Act::Redo {
            who: moved_user(user, *target),
        },
        Msg::Draw(_) => Act::Draw(()),
        Msg::Meta(meta) => act_of_meta(meta),
        Msg::Control(_) | Msg::Part(_) | Msg::Opaque { .. } => Act::Other,
    };
    UserAct { user, act }
}

/// The user whose group an undo or a redo moves.
fn moved_user(sender: u8, target: u8) -> u8
    ensures { result ≡ moved_user sender target }
{
    if target == 0 { sender } else { target }
}
