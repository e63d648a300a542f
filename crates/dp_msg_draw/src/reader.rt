//! Messages from payloads.
//!
//! The rule: docs/protocol.md, "Drawing messages".

ghost use Rattle.std.specs.Prelude.{◌≡◌, ◌⊎◌, ◌↔◌, IfOk, IsErrOf};
ghost use Rattle.dp_msg_draw.specs.declared.draw.Draw.{Draw as Message};
ghost use Rattle.dp_msg_draw.specs.Limits.{IsDrawKind, TakesMemory};
ghost use Rattle.dp_msg_draw.specs.Payloads.{SpellsDraw};
ghost use Rattle.dp_fields.specs.Reading.{Answers, Finds};

use crate::draw::Draw;
use crate::kinds::*;
use crate::mode::ModeNumber;
use crate::tails::Image;
use dp_fields::{PayloadError, all, read_both};
use std::alloc::Global;

/// The fill that a payload spells, the message of kind 137. Sessions have most of these, so there
/// is a way to read one that moves it from no answer to another.
#[inline(always)]
#[rattlefmt::skip]
pub fn read_fill(payload: &[u8]) -> Option<Draw>
    ensures { Finds (SpellsDraw 137 payload.now) result }
{
    let Some(((layer, ModeNumber(mode)), (((x, y), (w, h)), color))) =
        all(payload) else { return None };
    Some(Draw::FillRect { layer, mode, x, y, w, h, color })
}

/// The message that a payload spells, of a kind that takes no memory.
#[rattlefmt::skip]
fn read_plain(kind: u8, payload: &[u8]) -> Option<Draw>
    requires listed { IsDrawKind kind }
    requires plain { TakesMemory kind → ⊥ }
    ensures { Finds (SpellsDraw kind payload.now) result }
{
    match kind {
        CANVAS_RESIZE => {
            let Some(((top, right), (bottom, left))) = all(payload) else { return None };
            Some(Draw::CanvasResize { top, right, bottom, left })
        }
        LAYER_ATTR => {
            let Some(((id, opacity), (ModeNumber(mode), hidden))) =
                all(payload) else { return None };
            Some(Draw::LayerAttr { id, opacity, mode, hidden })
        }
        LAYER_MOVE => {
            let Some((id, (parent, above))) = all(payload) else { return None };
            Some(Draw::LayerMove { id, parent, above })
        }
        LAYER_DELETE => {
            let Some(id) = all(payload) else { return None };
            Some(Draw::LayerDelete { id })
        }
        FILL_RECT => read_fill(payload),
        BACKGROUND => {
            let Some(color) = all(payload) else { return None };
            Some(Draw::Background { color })
        }
        _ => {
            let Some((layer, (((sx, sy), (w, h)), (tx, ty)))) = all(payload) else { return None };
            Some(Draw::MoveRect { layer, sx, sy, w, h, tx, ty })
        }
    }
}

/// The message that a payload spells, of a kind that holds a title, colours, pixels or dabs.
#[rattlefmt::skip]
fn read_listed(alloc: Global, kind: u8, payload: &[u8]) -> Result<Draw, PayloadError>
    requires { TakesMemory kind }
    ensures { Answers (SpellsDraw kind payload.now) result }
{
    match kind {
        LAYER_CREATE => {
            let ((id, (parent, group)), title) = read_both(alloc, payload)?;
            Ok(Draw::LayerCreate { id, parent, group, title })
        }
        LAYER_TITLE => {
            let (id, title) = read_both(alloc, payload)?;
            Ok(Draw::LayerTitle { id, title })
        }
        PUT_IMAGE => {
            let (((layer, ModeNumber(mode)), (x, y)), Image { w, h, colors }) =
                read_both(alloc, payload)?;
            Ok(Draw::PutImage { layer, mode, x, y, w, h, colors })
        }
        PUT_TILE => {
            let (((layer, (col, row)), repeat), content) = read_both(alloc, payload)?;
            Ok(Draw::PutTile { layer, col, row, repeat, content })
        }
        DABS_ROUND => {
            let (((layer, (x, y)), ((r, (g, b)), ModeNumber(mode))), dabs) =
                read_both(alloc, payload)?;
            Ok(Draw::DabsRound { layer, x, y, r, g, b, mode, dabs })
        }
        _ => {
            let (((layer, (x, y)), ((r, (g, b)), ModeNumber(mode))), dabs) =
                read_both(alloc, payload)?;
            Ok(Draw::DabsSquare { layer, x, y, r, g, b, mode, dabs })
        }
    }
}

/// The message that a payload spells, by its kind.
fn message_at(alloc: Global, kind: u8, payload: &[u8]) -> Result<Draw, PayloadError>
    requires { IsDrawKind kind }
    ensures answers { Answers (SpellsDraw kind payload.now) result }
    ensures memory { IsErrOf result PayloadError.Memory → TakesMemory kind }
{
    match kind {
        LAYER_CREATE | LAYER_TITLE | PUT_IMAGE | PUT_TILE | DABS_ROUND | DABS_SQUARE => {
            read_listed(alloc, kind, payload)
        }
        _ => read_plain(kind, payload).ok_or(PayloadError::Malformed),
    }
}

/// The message that a payload of a drawing kind spells. `Malformed` comes exactly if it spells
/// none, and `Memory` if memory runs out for a title, colours, pixels or dabs.
pub fn read_draw(alloc: Global, kind: u8, payload: &[u8]) -> Result<Draw, PayloadError>
    requires { IsDrawKind kind }
    ensures found { IfOk result (SpellsDraw kind payload.now) }
    // What is spelled is read, unless memory runs out.
    ensures only { (m : Message) → SpellsDraw kind payload.now m
        → (result ≡ Ok m) ⊎ (result ≡ Err PayloadError.Memory) }
    ensures malformed { IsErrOf result PayloadError.Malformed
        ↔ ((m : Message) → SpellsDraw kind payload.now m → ⊥) }
    ensures memory { IsErrOf result PayloadError.Memory
        → TakesMemory kind × ((m : Message) × SpellsDraw kind payload.now m) }
{
    message_at(alloc, kind, payload)
}
