//! The kinds of the drawing messages.
//!
//! The rule: docs/protocol.md, "Drawing messages".

ghost use Rattle.std.specs.Prelude.{◌≡◌, ◌↔◌, true};
ghost use Rattle.dp_msg_draw.specs.Limits.{IsDrawKind};
ghost use Rattle.dp_msg_draw.specs.Payloads.{draw_kind};

use crate::draw::Draw;

pub(crate) const CANVAS_RESIZE: u8 = 129;

pub(crate) const LAYER_CREATE: u8 = 130;

pub(crate) const LAYER_ATTR: u8 = 131;

pub(crate) const LAYER_TITLE: u8 = 132;

pub(crate) const LAYER_MOVE: u8 = 133;

pub(crate) const LAYER_DELETE: u8 = 134;

pub(crate) const PUT_IMAGE: u8 = 136;

/// The kind of a fill.
pub const FILL_RECT: u8 = 137;

pub(crate) const PUT_TILE: u8 = 146;

pub(crate) const BACKGROUND: u8 = 147;

pub(crate) const DABS_ROUND: u8 = 149;

pub(crate) const DABS_SQUARE: u8 = 150;

pub(crate) const MOVE_RECT: u8 = 152;

/// Whether a kind is one of the drawing messages.
pub fn is_listed(kind: u8) -> bool
    ensures { (result ≡ true) ↔ IsDrawKind kind }
{
    matches!(
        kind,
        CANVAS_RESIZE..=LAYER_DELETE
            | PUT_IMAGE
            | FILL_RECT
            | PUT_TILE
            | BACKGROUND
            | DABS_ROUND
            | DABS_SQUARE
            | MOVE_RECT
    )
}

/// The number of a message's kind, the type byte of its frame.
pub fn kind_of_draw(m: &Draw) -> u8
    ensures kind { result ≡ draw_kind m.now }
    ensures listed { IsDrawKind result }
{
    match m {
        Draw::CanvasResize { .. } => CANVAS_RESIZE,
        Draw::LayerCreate { .. } => LAYER_CREATE,
        Draw::LayerAttr { .. } => LAYER_ATTR,
        Draw::LayerTitle { .. } => LAYER_TITLE,
        Draw::LayerMove { .. } => LAYER_MOVE,
        Draw::LayerDelete { .. } => LAYER_DELETE,
        Draw::PutImage { .. } => PUT_IMAGE,
        Draw::FillRect { .. } => FILL_RECT,
        Draw::PutTile { .. } => PUT_TILE,
        Draw::Background { .. } => BACKGROUND,
        Draw::DabsRound { .. } => DABS_ROUND,
        Draw::DabsSquare { .. } => DABS_SQUARE,
        Draw::MoveRect { .. } => MOVE_RECT,
    }
}
