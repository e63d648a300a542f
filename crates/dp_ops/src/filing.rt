//! Commands that wait on the tiles that they reach.

ghost use Rattle.std.specs.Prelude.{◌≡◌, ◌+◌, ◌-◌, ◌*◌, ◌/◌, ◌<◌, ◌≤◌, ◌≤ℤ◌, ◌-ℤ◌, ℕ, ℤ, pos};
ghost use Rattle.std.specs.Prelude.{true, length, unsigned_abs, IfSome, IfNone, OnOk, OnErr, Some};
ghost use Rattle.std.specs.Prelude.{None, ◌^◌, if◌then◌else◌};
ghost use Rattle.dp_blend.specs.Blending.{blend, mode_numbered};
ghost use Rattle.dp_blend.specs.Color.{Channels, of_argb, premultiplied};
ghost use Rattle.dp_pixels.specs.Commands.{IsDabs, pixel_after};
ghost use Rattle.dp_pixels.specs.Strokes.{brush_of};
ghost use Rattle.dp_pixels.specs.Rectangles.{is_in, rect_at};
ghost use Rattle.dp_ops.specs.Ops.{tile_place};
ghost use Rattle.dp_ops.specs.Lists.{AddsMore, AllCount, HasLists, HaveSame, IsChangedOn};
ghost use Rattle.dp_ops.specs.Lists.{IsFiled, IsInside, StandsOn, StayOutside, anywhere, filed_at};

use crate::lists::{Finish, TileLists, is_one_cell};
use crate::op::{OPAQUE, TileDab, TileFill, TileOp};
use crate::side::tiles_met;
use dp_blend::Mode;
use dp_msg_draw::Draw;
use dp_pixels::{NearDab, Rect, Shape, messages_are_their_dabs, place_dabs};
use dp_tile::CellArea;
use std::alloc::{AllocError, Global};

/// What is done on tiles, one operation on each.
pub(crate) trait TileSource {
    ghost use Rattle.std.specs.Prelude.{◌≡◌, ◌+◌, ◌*◌, ◌<◌, ℕ, ℤ, pos};
    ghost use Rattle.dp_blend.specs.Color.{Channels};
    ghost use Rattle.dp_ops.specs.Ops.{IsPackable, OnTile, op_at};

    /// The pixel at a place after it, of the old one there.
    ghost change: { Self → ℤ → ℤ → Channels → Channels };

    /// The tiles on which its operations do it: those on which its command has the right number.
    ghost among: { Self → OnTile → Type 0 };

    /// What it does on the tile at a column and a row.
    fn op(&self, col: u32, row: u32) -> TileOp
        requires col { col < 64 }
        requires row { row < 64 }
        ensures packs { IsPackable result }
        ensures drawn { (t : OnTile) (i j : ℕ) (p : Channels) → t.col ≡ col → t.row ≡ row
            → among self.now t → i < 64 → j < 64
            → op_at t result i j p
            ≡ change self.now (pos (col * 64 + i)) (pos (row * 64 + j)) p };
}

/// A fill on a canvas.
#[derive(Clone, Copy)]
pub(crate) struct RectFill {
    x: u32,
    y: u32,
    w: u32,
    h: u32,
    mode: Mode,
    color: u32,
}

/// Of the 64 numbers of a tile's side, those among `len` from `from` on: the first of them and the
/// first after them, counted from the side's first. There is none if the second isn't above the
/// first.
#[inline(always)]
fn part_of_side(tile: u32, from: u32, len: u32) -> (u8, u8)
    requires { tile < 64 }
    ensures within { (result.0 ≤ 64) × (result.1 ≤ 64) }
    ensures among { (i : ℕ) → i < 64 → result.0 ≤ i → i < result.1 →
        (from ≤ tile * 64 + i) × (tile * 64 + i < from + len) }
    ensures all { (i : ℕ) → i < 64 → from ≤ tile * 64 + i → tile * 64 + i < from + len →
        (result.0 ≤ i) × (i < result.1) }
{
    let first = tile * 64;
    let start = from.saturating_sub(first).min(64);
    let end = from.saturating_add(len).saturating_sub(first).min(64);
    (start as u8, end as u8)
}

impl TileSource for RectFill {
    ghost use Rattle.std.specs.Prelude.{if◌then◌else◌, pos};
    ghost use Rattle.dp_blend.specs.Color.{of_argb};
    ghost use Rattle.dp_blend.specs.Blending.{blend};
    ghost use Rattle.dp_pixels.specs.Rectangles.{is_in, rect_at};
    ghost use Rattle.dp_ops.specs.Lists.{anywhere};

    ghost change = { λ f x y old. if is_in (rect_at (pos f.x) (pos f.y) f.w f.h) x y
        then blend f.mode (of_argb f.color) old else old };

    ghost among = { λ f. anywhere };

    #[inline(always)]
    fn op(&self, col: u32, row: u32) -> TileOp {
        let (left, right) = part_of_side(col, self.x, self.w);
        let (top, bottom) = part_of_side(row, self.y, self.h);
        TileOp::Fill(TileFill {
            color: self.color,
            left,
            right,
            top,
            bottom,
            mode: self.mode,
        })
    }
}

/// How the dabs of a message are drawn, by the number of their opaque colour.
#[derive(Clone, Copy)]
struct Stroke {
    shape: Shape,
    mode: Mode,
    color: u32,
    ghost opaque: { color / 16777216 ≡ 255 },
}

/// A dab of a message.
#[derive(Clone, Copy)]
struct StrokeDab {
    stroke: Stroke,
    dab: NearDab,
}

/// A place that is near a tile, in 16 bits.
fn narrowed(place: i64) -> i16
    requires from { (pos 0 -ℤ pos 128) ≤ℤ place }
    requires to { place ≤ℤ pos 191 }
    ensures { result ≡ place }
{
    place as i16
}

/// Where the middle of a dab stands, counted from the first place of a column or row of tiles. A
/// dab that is too far away to meet it is moved to where it still doesn't.
fn from_tile(at: i64, tile: u32) -> i16
    requires near { unsigned_abs at < 2 ^ 40 }
    requires tile { tile < 64 }
    ensures { result ≡ tile_place at tile }
{
    narrowed((at - tile as i64 * 64).clamp(-128, 191))
}

impl TileSource for StrokeDab {
    ghost use Rattle.dp_blend.specs.Color.{of_argb};
    ghost use Rattle.dp_pixels.specs.Commands.{dab_blended};
    ghost use Rattle.dp_ops.specs.Lists.{anywhere};

    ghost change = { λ d. dab_blended d.stroke.shape d.stroke.mode (of_argb d.stroke.color)
        d.dab.dab };

    ghost among = { λ d. anywhere };

    fn op(&self, col: u32, row: u32) -> TileOp {
        let dab = self.dab.dab;
        TileOp::Dab(TileDab {
            x: from_tile(dab.at.x, col),
            y: from_tile(dab.at.y, row),
            size: dab.size,
            opacity: dab.opacity,
            shape: self.stroke.shape,
            mode: self.stroke.mode,
            color: self.stroke.color,
        })
    }
}

/// The number of an opaque colour.
fn opaque(r: u8, g: u8, b: u8) -> u32
    ensures color { of_argb result ≡ premultiplied r g b 255 }
    ensures opaque { result / 16777216 ≡ 255 }
{
    OPAQUE + r as u32 * 65536 + g as u32 * 256 + b as u32
}

/// How the dabs of a command are drawn, if it has dabs and a mode has its number.
fn stroke_of(command: &Draw) -> Option<Stroke>
    requires { IsDabs command.now }
    ensures some { IfSome result (λ stroke. brush_of command.now ≡ Some (record {
      shape = stroke.shape;
      mode = stroke.mode;
      color = of_argb stroke.color;
    })) }
    ensures none { IfNone result (brush_of command.now ≡ None) }
{
    let (shape, number, color) = match command {
        Draw::DabsRound { r, g, b, mode, .. } => (Shape::Round, *mode, opaque(*r, *g, *b)),
        Draw::DabsSquare { r, g, b, mode, .. } => (Shape::Square, *mode, opaque(*r, *g, *b)),
        _ => return None,
    };
    let mode = Mode::from_u8(number)?;
    Some(Stroke { shape, mode, color })
}

/// The cells of an area that have places of a rectangle.
fn cells_met(rect: Rect, area: CellArea) -> CellArea
    requires across { area.left ≤ area.right }
    requires down { area.top ≤ area.bottom }
    requires cols { area.right ≤ 64 }
    requires rows { area.bottom ≤ 64 }
    ensures across { result.left ≤ result.right }
    ensures down { result.top ≤ result.bottom }
    ensures left { area.left ≤ result.left }
    ensures right { result.right ≤ area.right }
    ensures top { area.top ≤ result.top }
    ensures bottom { result.bottom ≤ area.bottom }
    ensures all { (col row i j : ℕ) → IsInside area col row → i < 64 → j < 64
        → is_in rect (pos (col * 64 + i)) (pos (row * 64 + j)) ≡ true → IsInside result col row }
{
    let (left, right) = tiles_met(rect.x0, rect.x1, area.left, area.right);
    let (top, bottom) = tiles_met(rect.y0, rect.y1, area.top, area.bottom);
    CellArea {
        left,
        right,
        top,
        bottom,
    }
}

/// Adds the dabs of a message on the tiles of an area, each on those that its square meets.
fn add_dabs(
    lists: &mut TileLists,
    alloc: Global,
    command: &Draw,
    area: CellArea,
) -> Result<(), AllocError>
    requires dabs { IsDabs command.now }
    requires across { area.left ≤ area.right }
    requires down { area.top ≤ area.bottom }
    requires cols { area.right ≤ 64 }
    requires rows { area.bottom ≤ 64 }
    requires first { lists.old.first ≤ area.top }
    requires room { HasLists area.right area.bottom lists.old }
    ensures first { lists.new.first ≡ lists.old.first }
    ensures len { length lists.new.lists ≡ length lists.old.lists }
    ensures same { HaveSame lists.old lists.new }
    ensures others { StayOutside area lists.old lists.new }
    ensures added { OnOk result
        (IsChangedOn area (AddsMore anywhere (pixel_after command.now)) lists.old lists.new) }
{
    messages_are_their_dabs();
    let Some(stroke) = stroke_of(command) else {
        return Ok(());
    };
    let dabs = place_dabs(alloc, command)?;
    for dab in &dabs {
        let source = StrokeDab { stroke, dab: *dab };
        lists.add(&source, cells_met(dab.rect(), area))?;
    }
    Ok(())
}

/// A command on a canvas of these sides, and its number. That of a fill or of dabs may be any.
#[derive(Clone, Copy)]
pub struct Numbered<'a> {
    pub width: u32,
    pub height: u32,
    pub number: u32,
    pub command: &'a Draw,
}

impl TileSource for Numbered<'_> {
    ghost use Rattle.dp_pixels.specs.Commands.{pixel_drawn};
    ghost use Rattle.dp_ops.specs.Lists.{IsNumbered};

    ghost change = { λ c. pixel_drawn c.width c.height c.command.now };

    ghost among = { λ c. IsNumbered c.width c.height c.number c.command.now };

    fn op(&self, _col: u32, _row: u32) -> TileOp {
        TileOp::Command(self.number)
    }
}

/// The fill of a command, if it is one and a mode has its number.
#[inline(always)]
fn fill_of(command: &Draw) -> Option<RectFill>
    ensures some { IfSome result (λ fill. (wide high : ℕ) (x y : ℤ) (old : Channels)
        → filed_at wide high command.now x y old
        ≡ if is_in (rect_at (pos fill.x) (pos fill.y) fill.w fill.h) x y
        then blend fill.mode (of_argb fill.color) old else old) }
    ensures none { IfNone result ((layer mode x y w h color : ℕ)
        → command.now ≡ Draw.FillRect layer mode x y w h color → mode_numbered mode ≡ None) }
{
    let Draw::FillRect {
        mode,
        x,
        y,
        w,
        h,
        color,
        ..
    } = command
    else {
        return None;
    };
    let mode = Mode::from_u8(*mode)?;
    Some(RectFill {
        x: *x,
        y: *y,
        w: *w,
        h: *h,
        mode,
        color: *color,
    })
}

/// Adds a command on the tiles of an area.
#[inline(always)]
fn add_command(
    lists: &mut TileLists,
    alloc: Global,
    source: &Numbered<'_>,
    area: CellArea,
) -> Result<(), AllocError>
    requires across { area.left ≤ area.right }
    requires down { area.top ≤ area.bottom }
    requires cols { area.right ≤ 64 }
    requires rows { area.bottom ≤ 64 }
    requires first { lists.old.first ≤ area.top }
    requires room { HasLists area.right area.bottom lists.old }
    ensures first { lists.new.first ≡ lists.old.first }
    ensures len { length lists.new.lists ≡ length lists.old.lists }
    ensures same { HaveSame lists.old lists.new }
    ensures others { StayOutside area lists.old lists.new }
    ensures added { OnOk result (IsChangedOn area
        (AddsMore (StandsOn source.now.width source.now.height source.now.number
        source.now.command.now)
        (filed_at source.now.width source.now.height source.now.command.now))
        lists.old lists.new) }
{
    match source.command {
        Draw::FillRect { .. } => match fill_of(source.command) {
            Some(fill) => lists.add(&fill, area),
            None => Ok(()),
        },
        Draw::DabsRound { .. } | Draw::DabsSquare { .. } => {
            add_dabs(lists, alloc, source.command, area)
        }
        _ => lists.add(source, area),
    }
}

/// Adds a command on the tiles of an area, makes their lists before, and finishes them.
///
/// # Errors
///
/// Memory ran out: what waits on each tile stays.
#[inline(always)]
fn file_in_steps(
    lists: &mut TileLists,
    alloc: Global,
    source: &Numbered<'_>,
    area: CellArea,
) -> Result<(), AllocError>
    requires across { area.left ≤ area.right }
    requires down { area.top ≤ area.bottom }
    requires cols { area.right ≤ 64 }
    requires rows { area.bottom ≤ 64 }
    requires first { lists.old.first ≤ area.top }
    requires counts { AllCount lists.old }
    ensures first { lists.new.first ≡ lists.old.first }
    ensures filed { OnOk result (IsFiled (StandsOn source.now.width source.now.height
        source.now.number source.now.command.now) source.now.command.now area lists.old
        lists.new) }
    ensures same { OnErr result (HaveSame lists.old lists.new) }
    ensures counts { AllCount lists.new }
{
    lists.grow(alloc, area.right, area.bottom)?;
    match add_command(lists, alloc, source, area) {
        Ok(()) => {
            lists.finish(area, Finish::Keep);
            Ok(())
        }
        Err(refused) => {
            lists.finish(area, Finish::Drop);
            Err(refused)
        }
    }
}

/// Has a command wait on the tiles of an area, which has all that it reaches: a fill and dabs as
/// they are, and any other by its number.
///
/// # Errors
///
/// Memory ran out: what waits on each tile stays.
#[inline(always)]
pub fn file(
    lists: &mut TileLists,
    alloc: Global,
    source: &Numbered<'_>,
    area: CellArea,
) -> Result<(), AllocError>
    requires across { area.left ≤ area.right }
    requires down { area.top ≤ area.bottom }
    requires cols { area.right ≤ 64 }
    requires rows { area.bottom ≤ 64 }
    requires first { lists.old.first ≤ area.top }
    requires counts { AllCount lists.old }
    ensures first { lists.new.first ≡ lists.old.first }
    ensures filed { OnOk result (IsFiled (StandsOn source.now.width source.now.height
        source.now.number source.now.command.now) source.now.command.now area lists.old
        lists.new) }
    ensures same { OnErr result (HaveSame lists.old lists.new) }
    ensures counts { AllCount lists.new }
{
    if is_one_cell(area) && lists.has_list(area.left, area.top) {
        if let Some(fill) = fill_of(source.command) {
            return lists.put(&fill, area.left, area.top);
        }
    }
    file_in_steps(lists, alloc, source, area)
}
