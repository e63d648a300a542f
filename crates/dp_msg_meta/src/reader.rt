//! Messages from payloads.
//!
//! The rule: docs/protocol.md, "Control and meta messages".

ghost use Rattle.std.specs.Prelude.{◌≡◌, ◌↔◌, ◌⊎◌, IfOk, IsErrOf};
ghost use Rattle.dp_fields.specs.Reading.{Answers, Finds};
ghost use Rattle.dp_msg_meta.specs.Payloads.{IsControlKind, IsMetaKind, TakesMemory};
ghost use Rattle.dp_msg_meta.specs.Payloads.{SpellsControl, SpellsMeta};

use crate::fields::{Depth, Tier};
use crate::kinds::*;
use crate::message::{Control, Meta};
use crate::tails::{Name, read_ids};
use dp_fields::{PayloadError, Tail, all, read_both};
use std::alloc::Global;

/// The control message that a payload spells, of a kind that takes no memory.
#[rattlefmt::skip]
fn read_plain_control(kind: u8, payload: &[u8]) -> Option<Control>
    requires control { IsControlKind kind }
    requires plain { TakesMemory kind → ⊥ }
    ensures { Finds (SpellsControl kind payload.now) result }
{
    match kind {
        DISCONNECT => {
            let Some(reason) = all(payload) else { return None };
            Some(Control::Disconnect { reason })
        }
        PING => {
            let Some(pong) = all(payload) else { return None };
            Some(Control::Ping { pong })
        }
        ACK => {
            let Some(epoch) = all(payload) else { return None };
            Some(Control::Ack { epoch })
        }
        WELCOME => {
            let Some(((version, user), (epoch, at))) = all(payload) else { return None };
            Some(Control::Welcome { version, user, epoch, at })
        }
        RESET_BEGIN => if payload.is_empty() { Some(Control::ResetBegin) } else { None },
        RESET_END => if payload.is_empty() { Some(Control::ResetEnd) } else { None },
        _ => {
            let Some(at) = all(payload) else { return None };
            Some(Control::ResetFrom { at })
        }
    }
}

/// The control message that a payload spells.
fn control_at(alloc: Global, kind: u8, payload: &[u8]) -> Result<Control, PayloadError>
    requires { IsControlKind kind }
    ensures answers { Answers (SpellsControl kind payload.now) result }
    ensures memory { IsErrOf result PayloadError.Memory → TakesMemory kind }
{
    match kind {
        HELLO => {
            let name = Tail::read(alloc, payload)?;
            Ok(Control::Hello { name })
        }
        _ => read_plain_control(kind, payload).ok_or(PayloadError::Malformed),
    }
}

/// The control message that a payload of its kind spells. `Malformed` comes exactly if it spells
/// none, and `Memory` if memory runs out for the name of a Hello.
pub fn read_control(alloc: Global, kind: u8, payload: &[u8]) -> Result<Control, PayloadError>
    requires { IsControlKind kind }
    ensures found { IfOk result (SpellsControl kind payload.now) }
    // What is spelled so is read, unless memory runs out.
    ensures only { (m : Control) → SpellsControl kind payload.now m
        → (result ≡ Ok m) ⊎ (result ≡ Err PayloadError.Memory) }
    ensures malformed { IsErrOf result PayloadError.Malformed
        ↔ ((m : Control) → SpellsControl kind payload.now m → ⊥) }
    ensures memory { IsErrOf result PayloadError.Memory → TakesMemory kind }
    ensures spelled { IsErrOf result PayloadError.Memory
        → (m : Control) × SpellsControl kind payload.now m }
{
    control_at(alloc, kind, payload)
}

/// The meta message that a payload spells, of a kind that takes no memory.
#[rattlefmt::skip]
fn read_plain_meta(kind: u8, payload: &[u8]) -> Option<Meta>
    requires meta { IsMetaKind kind }
    requires plain { TakesMemory kind → ⊥ }
    ensures { Finds (SpellsMeta kind payload.now) result }
{
    match kind {
        LEAVE => if payload.is_empty() { Some(Meta::Leave) } else { None },
        RESET_MARK => {
            let Some((epoch, carried)) = all(payload) else { return None };
            Some(Meta::ResetMark { epoch, carried })
        }
        LASER => {
            let Some((x, y)) = all(payload) else { return None };
            Some(Meta::Laser { x, y })
        }
        MOVE_POINTER => {
            let Some((x, y)) = all(payload) else { return None };
            Some(Meta::MovePointer { x, y })
        }
        FEATURE_TIERS => {
            let Some(tiers) = all(payload) else { return None };
            Some(Meta::FeatureTiers { tiers })
        }
        FILTERED => {
            let Some(kind) = all(payload) else { return None };
            Some(Meta::Filtered { kind })
        }
        _ => {
            let Some(Depth(depth)) = all(payload) else { return None };
            Some(Meta::UndoDepth { depth })
        }
    }
}

/// The meta message that a payload spells, of a kind that holds a name, a text or ids.
#[rattlefmt::skip]
fn read_listed_meta(alloc: Global, kind: u8, payload: &[u8]) -> Result<Meta, PayloadError>
    requires meta { IsMetaKind kind }
    requires memory { TakesMemory kind }
    ensures { Answers (SpellsMeta kind payload.now) result }
{
    match kind {
        JOIN => {
            let (registered, Name(name)) = read_both(alloc, payload)?;
            Ok(Meta::Join { registered, name })
        }
        OWNERS => {
            let ids = Tail::read(alloc, payload)?;
            Ok(Meta::Owners { ids })
        }
        CHAT => {
            let text = Tail::read(alloc, payload)?;
            Ok(Meta::Chat { text })
        }
        TRUSTED => {
            let ids = Tail::read(alloc, payload)?;
            Ok(Meta::Trusted { ids })
        }
        USER_ACL => {
            let ids = read_ids(alloc, 0, payload)?;
            Ok(Meta::UserAcl { ids })
        }
        _ => {
            let ((layer, (locked, Tier(tier))), ids) = read_both(alloc, payload)?;
            Ok(Meta::LayerAcl { layer, locked, tier, ids })
        }
    }
}

/// The meta message that a payload spells.
fn meta_at(alloc: Global, kind: u8, payload: &[u8]) -> Result<Meta, PayloadError>
    requires { IsMetaKind kind }
    ensures answers { Answers (SpellsMeta kind payload.now) result }
    ensures memory { IsErrOf result PayloadError.Memory → TakesMemory kind }
{
    match kind {
        JOIN | OWNERS | CHAT | TRUSTED | USER_ACL | LAYER_ACL => {
            read_listed_meta(alloc, kind, payload)
        }
        _ => read_plain_meta(kind, payload).ok_or(PayloadError::Malformed),
    }
}

/// The meta message that a payload of its kind spells. `Malformed` comes exactly if it spells
/// none, and `Memory` if memory runs out for a name, a text or ids.
pub fn read_meta(alloc: Global, kind: u8, payload: &[u8]) -> Result<Meta, PayloadError>
    requires { IsMetaKind kind }
    ensures found { IfOk result (SpellsMeta kind payload.now) }
    // What is spelled so is read, unless memory runs out.
    ensures only { (m : Meta) → SpellsMeta kind payload.now m
        → (result ≡ Ok m) ⊎ (result ≡ Err PayloadError.Memory) }
    ensures malformed { IsErrOf result PayloadError.Malformed
        ↔ ((m : Meta) → SpellsMeta kind payload.now m → ⊥) }
    ensures memory { IsErrOf result PayloadError.Memory → TakesMemory kind }
    ensures spelled { IsErrOf result PayloadError.Memory
        → (m : Meta) × SpellsMeta kind payload.now m }
{
    meta_at(alloc, kind, payload)
}
