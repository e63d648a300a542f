//! Laws of messages, each the contract of a function that does nothing.

ghost use Rattle.std.specs.Prelude.{◌≡◌, ◌≢◌, ◌≤◌, ◌↔◌, ℕ, List, length, true};
ghost use Rattle.dp_frame.specs.Frames.{FrameParts, IsFrame};
ghost use Rattle.dp_messages.specs.declared.message.Msg.{Msg as Message};
ghost use Rattle.dp_messages.specs.declared.message.Msg.TheVariants.{Opaque};
ghost use Rattle.dp_messages.specs.declared.message.Entry.{Entry};
ghost use Rattle.dp_messages.specs.declared.decoder.DecodeError.{DecodeError};
ghost use Rattle.dp_messages.specs.Messages.{Spells, Lifts, HasSpelling, frame_of};
ghost use Rattle.dp_messages.specs.Decoded.{Carries, IsPayloadRefused};
ghost use Rattle.dp_messages.specs.Equality.{same_message};
ghost use Rattle.dp_messages.specs.Heard.{Hears};

use dp_frame::one_splitting;
use dp_msg_draw::{one_draw, same_draw_is_equality};
use dp_msg_meta::{control_equality, meta_equality, one_control, one_meta};

/// A payload of a kind spells at most one message, and a message has one kind and one payload, of
/// at most 65,535 bytes.
pub fn one_message()
    ensures message { (kind : ℕ) (payload : List ℕ) (m n : Message)
        → Spells kind payload m → Spells kind payload n → m ≡ n }
    ensures payload { (j k : ℕ) (p q : List ℕ) (m : Message)
        → Spells j p m → Spells k q m → (j ≡ k) × (p ≡ q) }
    ensures short { (kind : ℕ) (payload : List ℕ) (m : Message)
        → Spells kind payload m → length payload ≤ 65535 }
{
    one_control();
    one_meta();
    one_draw();
}

/// A frame carries at most one entry. It is refused in at most one way, and only if it carries
/// none: so what `decode` answers is one answer.
pub fn one_answer()
    ensures entry { (frame : FrameParts) (e f : Entry) → Carries frame e → Carries frame f → e ≡ f }
    ensures refusal { (kind : ℕ) (payload : List ℕ) (e f : DecodeError)
        → IsPayloadRefused kind payload e → IsPayloadRefused kind payload f → e ≡ f }
    ensures either { (frame : FrameParts) (e : Entry) (f : DecodeError)
        → Carries frame e → IsPayloadRefused frame.kind frame.body f → ⊥ }
{
    one_message();
}

/// The frame of an entry whose message has a spelling is a frame, and carries the entry.
pub fn entries_are_read_again()
    ensures frame { (e : Entry) → HasSpelling e.msg → IsFrame (frame_of e) }
    ensures carries { (e : Entry) → HasSpelling e.msg → Carries (frame_of e) e }
{
    one_message();
}

/// The test of two messages says exactly whether they are equal.
pub fn one_equality()
    ensures { (m n : Message) → (same_message m n ≡ true) ↔ (m ≡ n) }
{
    control_equality();
    meta_equality();
    same_draw_is_equality();
}

/// In a list of bytes one list of messages is heard.
pub fn one_hearing()
    ensures { (bytes : List ℕ) (messages others : List Message)
        → Hears bytes messages → Hears bytes others → messages ≡ others }
{
    one_splitting();
    one_message();
}

/// How frames of the first profile are read: a payload of kind 70 is an opaque message of kind 71,
/// and every other payload what it spells.
pub fn lifting()
    ensures depth { (payload : List ℕ) (m : Message)
        → Lifts 70 payload m ↔ (m ≡ Opaque 71 payload) × (length payload ≤ 65535) }
    ensures other { (kind : ℕ) (payload : List ℕ) (m : Message)
        → kind ≢ 70 → Lifts kind payload m ↔ Spells kind payload m }
{
    one_control();
    one_meta();
    one_draw();
}
