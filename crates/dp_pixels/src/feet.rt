//! The feet of commands: where each may change a layer, and where it reads it.

ghost use Rattle.std.specs.Prelude.{◌≡◌, ◌==◌, ◌*◌, pos, if◌then◌else◌};
ghost use Rattle.dp_pixels.specs.declared.feet.Footprint.TheVariants.{Area, Two};
ghost use Rattle.dp_pixels.specs.Feet.{feet_meet, foot, greatest_canvas, meets_area, on_greatest};
ghost use Rattle.dp_pixels.specs.Rectangles.{rect_at};

use crate::place::rect_of;
use crate::rect::{Place, Rect};
use crate::stroke::dabs_bounds;
use dp_msg_draw::Draw;

/// The foot of a command: where it may change a layer, and where it reads it.
#[derive(Clone, Copy, PartialEq, Eq)]
pub enum Footprint {
    /// A rectangle of a layer.
    Area { layer: u16, rect: Rect },
    /// Two rectangles of a layer.
    Two { layer: u16, from: Rect, to: Rect },
    /// Everything.
    All,
}

/// The foot of PutTile.
#[inline]
fn foot_of_tiles(layer: u16, col: u16, row: u16, repeat: u16) -> Footprint
    ensures { result ≡ Area layer (if repeat == 0
        then on_greatest (rect_at (pos (col * 64)) (pos (row * 64)) 64 64)
        else greatest_canvas) }
{
    let rect = if repeat == 0 {
        rect_of(col as u32 * 64, row as u32 * 64, 64, 64).on_greatest()
    } else {
        Rect::canvas(4096, 4096)
    };
    Footprint::Area { layer, rect }
}

/// The rectangle of this corner and these sides, as far as it is on the greatest canvas.
#[inline]
fn target_rect(x: i32, y: i32, w: u32, h: u32) -> Rect
    ensures { result ≡ on_greatest (rect_at x y w h) }
{
    let corner = Place {
        x: x as i64,
        y: y as i64,
    };
    Rect::at(corner, w, h).on_greatest()
}

/// The foot of MoveRect.
#[inline]
fn foot_of_move(layer: u16, sx: u32, sy: u32, w: u32, h: u32, tx: i32, ty: i32) -> Footprint
    ensures { result ≡ Two layer (on_greatest (rect_at (pos sx) (pos sy) w h))
        (on_greatest (rect_at tx ty w h)) }
{
    Footprint::Two {
        layer,
        from: rect_of(sx, sy, w, h).on_greatest(),
        to: target_rect(tx, ty, w, h),
    }
}

/// A rectangle of a layer, as far as it is on the greatest canvas.
#[inline(always)]
fn area_of(layer: u16, rect: Rect) -> Footprint
    ensures { result ≡ Area layer (on_greatest rect) }
{
    Footprint::Area {
        layer,
        rect: rect.on_greatest(),
    }
}

/// The foot of a command. It takes no memory.
#[inline(always)]
pub fn foot(command: &Draw) -> Footprint
    ensures { result ≡ foot command.now }
{
    match command {
        Draw::FillRect {
            layer,
            x,
            y,
            w,
            h,
            ..
        }
        | Draw::PutImage {
            layer,
            x,
            y,
            w,
            h,
            ..
        } => area_of(*layer, rect_of(*x, *y, *w, *h)),
        Draw::PutTile {
            layer,
            col,
            row,
            repeat,
            ..
        } => foot_of_tiles(*layer, *col, *row, *repeat),
        Draw::DabsRound { layer, .. } | Draw::DabsSquare { layer, .. } => {
            area_of(*layer, dabs_bounds(command))
        }
        Draw::MoveRect {
            layer,
            sx,
            sy,
            w,
            h,
            tx,
            ty,
        } => foot_of_move(*layer, *sx, *sy, *w, *h, *tx, *ty),
        _ => Footprint::All,
    }
}

/// Whether a layer has a rectangle that shares a place with a foot.
#[inline(always)]
fn meets_area(foot: &Footprint, layer: u16, area: Rect) -> bool
    ensures { result ≡ meets_area foot.now layer area }
{
    match foot {
        Footprint::Area { layer: own, rect } => *own == layer && rect.shares_place(area),
        Footprint::Two {
            layer: own,
            from,
            to,
        } => *own == layer && (from.shares_place(area) || to.shares_place(area)),
        Footprint::All => true,
    }
}

/// Whether two feet meet: one of them is everything, or they share a place of one layer. It takes
/// no memory.
#[inline(always)]
pub fn meets(a: &Footprint, b: &Footprint) -> bool
    ensures { result ≡ feet_meet a.now b.now }
{
    match b {
        Footprint::Area { layer, rect } => meets_area(a, *layer, *rect),
        Footprint::Two { layer, from, to } => {
            meets_area(a, *layer, *from) || meets_area(a, *layer, *to)
        }
        Footprint::All => true,
    }
}
