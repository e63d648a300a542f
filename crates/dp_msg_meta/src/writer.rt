//! Messages as payloads.
//!
//! The rule: docs/protocol.md, "Control and meta messages".

ghost use Rattle.std.specs.Prelude.{◌≡◌, ◌≤◌, ◌++◌, length, OnOk, OnErr};
ghost use Rattle.dp_msg_meta.specs.Payloads.{control_payload, meta_payload};

use crate::message::{Control, Meta};
use crate::tails::put_both;
use dp_fields::Field;
use std::alloc::AllocError;

/// Puts a message's fields at the end. If memory runs out, some of their bytes may stand there.
#[rattlefmt::skip]
fn put_control(m: &Control, out: &mut Vec<u8>) -> Result<(), AllocError>
    ensures spelled { OnOk result (out.new.items ≡ out.old.items ++ control_payload m.now) }
    ensures short { length (control_payload m.now) ≤ 32 }
{
    match *m {
        Control::Hello { ref name } => out.extend_from_slice(name.as_slice()),
        Control::Disconnect { reason } => reason.put(out),
        Control::Ping { pong } => pong.put(out),
        Control::Ack { epoch } => epoch.put(out),
        Control::Welcome { version, user, epoch, at } => ((version, user), (epoch, at)).put(out),
        Control::ResetBegin | Control::ResetEnd => Ok(()),
        Control::ResetFrom { at } => at.put(out),
    }
}

/// Adds the payload of a control message at the end, whether the message has a spelling or not.
///
/// # Errors
///
/// If memory runs out. `out` is then as it was.
pub fn write_control(m: &Control, out: &mut Vec<u8>) -> Result<(), AllocError>
    ensures appends { OnOk result (out.new.items ≡ out.old.items ++ control_payload m.now) }
    ensures short { length (control_payload m.now) ≤ 32 }
    ensures err { OnErr result (out.new.items ≡ out.old.items) }
{
    let mut payload = Vec::new(*out.allocator());
    put_control(m, &mut payload)?;
    out.extend_from_slice(&payload)
}

/// Puts a message's fields at the end. If memory runs out, some of their bytes may stand there.
#[rattlefmt::skip]
fn put_meta(m: &Meta, out: &mut Vec<u8>) -> Result<(), AllocError>
    ensures spelled { OnOk result (out.new.items ≡ out.old.items ++ meta_payload m.now) }
    ensures short { length (meta_payload m.now) ≤ 65536 }
{
    match *m {
        Meta::Join { registered, ref name } => put_both(&registered, name.as_slice(), out),
        Meta::Leave => Ok(()),
        Meta::Owners { ref ids } => out.extend_from_slice(ids.as_slice()),
        Meta::Chat { ref text } => out.extend_from_slice(text.as_slice()),
        Meta::Trusted { ref ids } => out.extend_from_slice(ids.as_slice()),
        Meta::ResetMark { epoch, carried } => (epoch, carried).put(out),
        Meta::Laser { x, y } => (x, y).put(out),
        Meta::MovePointer { x, y } => (x, y).put(out),
        Meta::UserAcl { ref ids } => out.extend_from_slice(ids.as_slice()),
        Meta::LayerAcl { layer, locked, tier, ref ids } => {
            put_both(&(layer, (locked, tier)), ids.as_slice(), out)
        }
        Meta::FeatureTiers { tiers } => tiers.put(out),
        Meta::Filtered { kind } => kind.put(out),
        Meta::UndoDepth { depth } => depth.put(out),
    }
}

/// Adds the payload of a meta message at the end, whether the message has a spelling or not.
///
/// # Errors
///
/// If memory runs out. `out` is then as it was.
pub fn write_meta(m: &Meta, out: &mut Vec<u8>) -> Result<(), AllocError>
    ensures appends { OnOk result (out.new.items ≡ out.old.items ++ meta_payload m.now) }
    // A Join may hold a name of 65,535 bytes.
    ensures short { length (meta_payload m.now) ≤ 65536 }
    ensures err { OnErr result (out.new.items ≡ out.old.items) }
{
    let mut payload = Vec::new(*out.allocator());
    put_meta(m, &mut payload)?;
    out.extend_from_slice(&payload)
}
