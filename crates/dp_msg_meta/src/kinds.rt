//! The kinds of messages, and copies of messages.
//!
//! The rule: docs/protocol.md, "Control and meta messages".

ghost use Rattle.std.specs.Prelude.{◌≡◌, ◌↔◌, IfOk, OnErr, true};
ghost use Rattle.dp_msg_meta.specs.Payloads.{control_kind, meta_kind, IsControlKind, IsMetaKind};
ghost use Rattle.dp_msg_meta.specs.Payloads.{TakesMemory};

use crate::message::{Control, Meta};
use std::alloc::AllocError;

pub(crate) const HELLO: u8 = 0;

pub(crate) const DISCONNECT: u8 = 1;

pub(crate) const PING: u8 = 2;

pub(crate) const ACK: u8 = 3;

pub(crate) const WELCOME: u8 = 4;

pub(crate) const RESET_BEGIN: u8 = 5;

pub(crate) const RESET_END: u8 = 7;

pub(crate) const RESET_FROM: u8 = 8;

pub(crate) const JOIN: u8 = 32;

pub(crate) const LEAVE: u8 = 33;

pub(crate) const OWNERS: u8 = 34;

pub(crate) const CHAT: u8 = 35;

pub(crate) const TRUSTED: u8 = 36;

pub(crate) const RESET_MARK: u8 = 37;

pub(crate) const LASER: u8 = 64;

pub(crate) const MOVE_POINTER: u8 = 65;

pub(crate) const USER_ACL: u8 = 66;

pub(crate) const LAYER_ACL: u8 = 67;

pub(crate) const FEATURE_TIERS: u8 = 68;

pub(crate) const FILTERED: u8 = 69;

pub(crate) const UNDO_DEPTH: u8 = 70;

/// The kind of a control message, the type byte of its frame.
pub fn kind_of_control(m: &Control) -> u8
    ensures value { result ≡ control_kind m.now }
    ensures control { IsControlKind result }
{
    match m {
        Control::Hello { .. } => HELLO,
        Control::Disconnect { .. } => DISCONNECT,
        Control::Ping { .. } => PING,
        Control::Ack { .. } => ACK,
        Control::Welcome { .. } => WELCOME,
        Control::ResetBegin => RESET_BEGIN,
        Control::ResetEnd => RESET_END,
        Control::ResetFrom { .. } => RESET_FROM,
    }
}

/// The kind of a meta message, the type byte of its frame.
pub fn kind_of_meta(m: &Meta) -> u8
    ensures value { result ≡ meta_kind m.now }
    ensures meta { IsMetaKind result }
{
    match m {
        Meta::Join { .. } => JOIN,
        Meta::Leave => LEAVE,
        Meta::Owners { .. } => OWNERS,
        Meta::Chat { .. } => CHAT,
        Meta::Trusted { .. } => TRUSTED,
        Meta::ResetMark { .. } => RESET_MARK,
        Meta::Laser { .. } => LASER,
        Meta::MovePointer { .. } => MOVE_POINTER,
        Meta::UserAcl { .. } => USER_ACL,
        Meta::LayerAcl { .. } => LAYER_ACL,
        Meta::FeatureTiers { .. } => FEATURE_TIERS,
        Meta::Filtered { .. } => FILTERED,
        Meta::UndoDepth { .. } => UNDO_DEPTH,
    }
}

/// Whether control messages are of this kind.
pub fn is_control_kind(kind: u8) -> bool
    ensures { (result ≡ true) ↔ IsControlKind kind }
{
    matches!(kind, HELLO..=RESET_BEGIN | RESET_END..=RESET_FROM)
}

/// Whether meta messages are of this kind.
pub fn is_meta_kind(kind: u8) -> bool
    ensures { (result ≡ true) ↔ IsMetaKind kind }
{
    matches!(kind, JOIN..=RESET_MARK | LASER..=UNDO_DEPTH)
}

impl Control {
    /// An equal message. Only a name takes memory.
    pub fn copy(&self) -> Result<Control, AllocError>
        ensures same { IfOk result (λ m. m ≡ self.now) }
        ensures memory { OnErr result (TakesMemory (control_kind self.now)) }
    {
        Ok(match self {
            Control::Hello { name } => Control::Hello { name: name.copy()? },
            Control::Disconnect { reason } => Control::Disconnect { reason: *reason },
            Control::Ping { pong } => Control::Ping { pong: *pong },
            Control::Ack { epoch } => Control::Ack { epoch: *epoch },
            Control::Welcome {
                version,
                user,
                epoch,
                at,
            } => Control::Welcome {
                version: *version,
                user: *user,
                epoch: *epoch,
                at: *at,
            },
            Control::ResetBegin => Control::ResetBegin,
            Control::ResetEnd => Control::ResetEnd,
            Control::ResetFrom { at } => Control::ResetFrom { at: *at },
        })
    }
}

impl Meta {
    /// An equal message. Only a name, a text and ids take memory.
    pub fn copy(&self) -> Result<Meta, AllocError>
        ensures same { IfOk result (λ m. m ≡ self.now) }
        ensures memory { OnErr result (TakesMemory (meta_kind self.now)) }
    {
        Ok(match self {
            Meta::Join { registered, name } => Meta::Join {
                registered: *registered,
                name: name.copy()?,
            },
            Meta::Leave => Meta::Leave,
            Meta::Owners { ids } => Meta::Owners { ids: ids.copy()? },
            Meta::Chat { text } => Meta::Chat { text: text.copy()? },
            Meta::Trusted { ids } => Meta::Trusted { ids: ids.copy()? },
            Meta::ResetMark { epoch, carried } => Meta::ResetMark {
                epoch: *epoch,
                carried: *carried,
            },
            Meta::Laser { x, y } => Meta::Laser { x: *x, y: *y },
            Meta::MovePointer { x, y } => Meta::MovePointer { x: *x, y: *y },
            Meta::UserAcl { ids } => Meta::UserAcl { ids: ids.copy()? },
            Meta::LayerAcl {
                layer,
                locked,
                tier,
                ids,
            } => Meta::LayerAcl {
                layer: *layer,
                locked: *locked,
                tier: *tier,
                ids: ids.copy()?,
            },
            Meta::FeatureTiers { tiers } => Meta::FeatureTiers { tiers: *tiers },
            Meta::Filtered { kind } => Meta::Filtered { kind: *kind },
            Meta::UndoDepth { depth } => Meta::UndoDepth { depth: *depth },
        })
    }
}
