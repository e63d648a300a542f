//! Laws of the drawing messages, each the contract of a function that does nothing.

ghost use Rattle.std.specs.Prelude.{◌≡◌, ◌↔◌, ◌≤◌, ℕ, List, length, true};
ghost use Rattle.dp_msg_draw.specs.declared.draw.Draw.{Draw as Message};
ghost use Rattle.dp_msg_draw.specs.Equality.{same_draw};
ghost use Rattle.dp_msg_draw.specs.Limits.{IsDrawKind};
ghost use Rattle.dp_msg_draw.specs.Payloads.{DrawHasSpelling, SpellsDraw, draw_kind, draw_payload};

/// A payload of a kind spells at most one message, and a message has one kind and one payload.
pub fn one_draw()
    ensures message { (kind : ℕ) (payload : List ℕ) (m n : Message)
        → SpellsDraw kind payload m → SpellsDraw kind payload n → m ≡ n }
    ensures payload { (j k : ℕ) (p q : List ℕ) (m : Message)
        → SpellsDraw j p m → SpellsDraw k q m → (j ≡ k) × (p ≡ q) }
    ensures kind { (kind : ℕ) (payload : List ℕ) (m : Message)
        → SpellsDraw kind payload m → IsDrawKind kind }
    ensures short { (kind : ℕ) (payload : List ℕ) (m : Message)
        → SpellsDraw kind payload m → length payload ≤ 65535 }
{}

/// `same_draw` is true of equal messages, and of no others.
pub fn same_draw_is_equality()
    ensures { (a b : Message) → (same_draw a b ≡ true) ↔ (a ≡ b) }
{}
