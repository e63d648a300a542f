//! Laws of payloads. Each function does nothing: its contract is the law.
//!
//! The rule: docs/protocol.md, "Control and meta messages".

ghost use Rattle.std.specs.Prelude.{◌≡◌, ◌≤◌, ◌↔◌, ℕ, List, length, true};
ghost use Rattle.dp_msg_meta.specs.declared.message.Control.{Control};
ghost use Rattle.dp_msg_meta.specs.declared.message.Meta.{Meta};
ghost use Rattle.dp_msg_meta.specs.Payloads.{IsControlKind, IsMetaKind, SpellsControl, SpellsMeta};
ghost use Rattle.dp_msg_meta.specs.Equality.{same_control, same_meta};

/// A payload of a kind spells at most one control message. Such a message has one kind and one
/// payload, of at most 65,535 bytes.
pub fn one_control()
    ensures message { (kind : ℕ) (payload : List ℕ) (m n : Control)
        → SpellsControl kind payload m → SpellsControl kind payload n → m ≡ n }
    ensures payload { (m : Control) (k l : ℕ) (p q : List ℕ)
        → SpellsControl k p m → SpellsControl l q m → (k ≡ l) × (p ≡ q) }
    ensures kind { (m : Control) (kind : ℕ) (payload : List ℕ)
        → SpellsControl kind payload m → IsControlKind kind }
    ensures short { (m : Control) (kind : ℕ) (payload : List ℕ)
        → SpellsControl kind payload m → length payload ≤ 65535 }
{}

/// A payload of a kind spells at most one meta message. Such a message has one kind and one
/// payload, of at most 65,535 bytes.
#[tactic(auto, using(crate::proofs::FieldLaws::rise_short))]
pub fn one_meta()
    ensures message { (kind : ℕ) (payload : List ℕ) (m n : Meta)
        → SpellsMeta kind payload m → SpellsMeta kind payload n → m ≡ n }
    ensures payload { (m : Meta) (k l : ℕ) (p q : List ℕ)
        → SpellsMeta k p m → SpellsMeta l q m → (k ≡ l) × (p ≡ q) }
    ensures kind { (m : Meta) (kind : ℕ) (payload : List ℕ)
        → SpellsMeta kind payload m → IsMetaKind kind }
    ensures short { (m : Meta) (kind : ℕ) (payload : List ℕ)
        → SpellsMeta kind payload m → length payload ≤ 65535 }
{}

/// The test of two control messages says exactly whether they are equal.
#[tactic(auto, using(crate::proofs::Comparing::controls_compare))]
pub fn control_equality()
    ensures { (m n : Control) → (same_control m n ≡ true) ↔ (m ≡ n) }
{}

/// The test of two meta messages says exactly whether they are equal.
#[tactic(auto, using(crate::proofs::Comparing::metas_compare))]
pub fn meta_equality()
    ensures { (m n : Meta) → (same_meta m n ≡ true) ↔ (m ≡ n) }
{}
