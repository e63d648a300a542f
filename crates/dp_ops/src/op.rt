//! Operations on one tile.

ghost use Rattle.std.specs.Prelude.{◌≡◌, [], ◌∷◌, ℕ, ◌<◌, true, length, IfSome, pos, ◌+ℤ◌, ◌-ℤ◌};
ghost use Rattle.std.specs.Prelude.{◌≤ℤ◌, ◌<ℤ◌, ◌/◌, ◌%◌};
ghost use Rattle.dp_blend.specs.Color.{of_argb};
ghost use Rattle.dp_ops.specs.Ops.{IsPackable, OnTile, code_of, dab_at, dab_in_tile, fill_at};
ghost use Rattle.dp_ops.specs.Ops.{is_in_fill, mode_coded, on_tile, op_at, packed_dab};
ghost use Rattle.dp_ops.specs.Ops.{shape_code, shape_coded, tile_after};

use crate::sheet::Sheet;
use dp_blend::{Mode, Pixel, blend, fade, from8, of_argb, rows_fill};
use dp_pixels::{Brush, NearDab, Place, PlacedDab, Region, Shape, draw_dab};
use dp_tile::SIDE;
use std::marker::Model;

/// What a fill does on a tile: by a mode, a colour is blended with the pixels of a rectangle. That
/// has the columns from `left` on before `right`, and the rows from `top` on before `bottom`.
#[derive(Clone, Copy)]
pub struct TileFill {
    pub color: u32,
    pub left: u8,
    pub right: u8,
    pub top: u8,
    pub bottom: u8,
    pub mode: Mode,
}

impl TileFill {
    /// Whether it fills all of the tile.
    fn is_whole(self) -> bool
        ensures { result ≡ true → (x y : ℕ) → x < 64 → y < 64 → is_in_fill self x y ≡ true }
    {
        self.left == 0 && self.right >= 64 && self.top == 0 && self.bottom >= 64
    }

    /// The pixel at a column and a row of the tile after it, of the old one there.
    fn pixel_after(self, x: u32, y: u32, old: Pixel) -> Pixel
        ensures { result ≡ fill_at self x y old }
    {
        let is_in = self.left as u32 <= x
            && x < self.right as u32
            && self.top as u32 <= y
            && y < self.bottom as u32;
        if is_in {
            blend(self.mode, of_argb(self.color), old)
        } else {
            old
        }
    }

    /// The colour of a tile of this colour after it, if it is known to be of one.
    fn color_after(self, color: Pixel) -> Option<Pixel>
        ensures { IfSome result (λ after. (x y : ℕ) → x < 64 → y < 64
            → fill_at self x y color ≡ after) }
    {
        let after = blend(self.mode, of_argb(self.color), color);
        if after == color || self.is_whole() {
            Some(after)
        } else {
            None
        }
    }

    /// Draws it on a tile.
    fn draw(self, pixels: &mut [Pixel])
        requires { length pixels.old ≡ 4096 }
        ensures { (t : OnTile) → pixels.new ≡ tile_after t (TileOp.Fill self ∷ []) pixels.old }
    {
        let (left, right) = (self.left as usize, (self.right as usize).min(SIDE));
        let (top, bottom) = (self.top as usize, (self.bottom as usize).min(SIDE));
        if left < right && top < bottom {
            let rows = &mut pixels[top * SIDE..bottom * SIDE];
            rows_fill(self.mode, of_argb(self.color), left, right, SIDE, rows);
        }
    }
}

/// What a dab does on a tile: where the middle of its square stands, counted from the tile's
/// corner, and its opaque colour.
#[derive(Clone, Copy)]
pub struct TileDab {
    pub x: i16,
    pub y: i16,
    pub size: u8,
    pub opacity: u8,
    pub shape: Shape,
    pub mode: Mode,
    pub color: u32,
}

impl TileDab {
    /// How it is drawn.
    fn brush(self) -> Brush
        ensures shape { result.shape ≡ self.shape }
        ensures mode { result.mode ≡ self.mode }
        ensures color { result.color ≡ of_argb self.color }
    {
        Brush {
            shape: self.shape,
            mode: self.mode,
            color: of_argb(self.color),
        }
    }

    /// Where it stands, if the tile's corner is the place (0, 0).
    fn placed(self) -> NearDab
        ensures { result.dab ≡ dab_in_tile self }
    {
        let at = Place {
            x: self.x as i64,
            y: self.y as i64,
        };
        NearDab {
            dab: PlacedDab {
                at,
                size: self.size,
                opacity: self.opacity,
            },
        }
    }

    /// The colour of a tile of this colour after it, if it is known to be of one.
    fn color_after(self, color: Pixel) -> Option<Pixel>
        ensures { IfSome result (λ after. (x y : ℕ) → dab_at self x y color ≡ after) }
    {
        let after = blend(
            self.mode,
            fade(of_argb(self.color), from8(self.opacity)),
            color,
        );
        if after == color { Some(after) } else { None }
    }

    /// Draws it on a tile.
    fn draw(self, pixels: &mut [Pixel])
        requires { length pixels.old ≡ 4096 }
        ensures { (t : OnTile) → pixels.new ≡ tile_after t (TileOp.Dab self ∷ []) pixels.old }
    {
        let tile = Region {
            x: 0,
            y: 0,
            width: 64,
            height: 64,
            canvas_width: 64,
            canvas_height: 64,
        };
        draw_dab(&self.brush(), self.placed(), &tile, SIDE, pixels);
    }

    /// The pixel at a column and a row of the tile after it, of the old one there.
    fn pixel_after(self, x: u32, y: u32, old: Pixel) -> Pixel
        requires x { x < 64 }
        requires y { y < 64 }
        ensures { result ≡ dab_at self x y old }
    {
        let place = Region {
            x,
            y,
            width: 1,
            height: 1,
            canvas_width: 64,
            canvas_height: 64,
        };
        let mut pixel = [old];
        draw_dab(&self.brush(), self.placed(), &place, 1, &mut pixel);
        pixel[0]
    }
}

/// An operation on a tile. A command has its number in a list that is given beside.
#[derive(Clone, Copy)]
pub enum TileOp {
    Fill(TileFill),
    Dab(TileDab),
    Command(u32),
}

impl TileOp {
    /// The pixel at a place of the canvas after it, of the old one there.
    pub fn pixel_after(self, on: &Sheet<'_>, x: u32, y: u32, old: Pixel) -> Pixel
        ensures { result ≡ op_at (on_tile on.now.width on.now.height on.now.commands.now (x / 64)
            (y / 64)) self (x % 64) (y % 64) old }
    {
        match self {
            TileOp::Fill(fill) => fill.pixel_after(x % 64, y % 64, old),
            TileOp::Dab(dab) => dab.pixel_after(x % 64, y % 64, old),
            TileOp::Command(number) => on.pixel_after(number, x, y, old),
        }
    }

    /// Draws it on a tile.
    #[inline(always)]
    pub(crate) fn draw(self, on: &Sheet<'_>, col: u32, row: u32, pixels: &mut [Pixel])
        requires col { col < 64 }
        requires row { row < 64 }
        requires count { length pixels.old ≡ 4096 }
        ensures { pixels.new ≡ tile_after (on_tile on.now.width on.now.height on.now.commands.now
            col row) (self ∷ []) pixels.old }
    {
        match self {
            TileOp::Fill(fill) => fill.draw(pixels),
            TileOp::Dab(dab) => dab.draw(pixels),
            TileOp::Command(number) => on.draw(number, col, row, pixels),
        }
    }

    /// The colour of a tile of this colour after it, if it is known to be of one.
    pub(crate) fn color_after(self, color: Pixel) -> Option<Pixel>
        ensures { IfSome result (λ after. (t : OnTile) (x y : ℕ) → x < 64 → y < 64
            → op_at t self x y color ≡ after) }
    {
        match self {
            TileOp::Fill(fill) => fill.color_after(color),
            TileOp::Dab(dab) => dab.color_after(color),
            TileOp::Command(_) => None,
        }
    }
}

/// The number of a mode in a packed operation.
#[inline(always)]
fn code_of(mode: Mode) -> u32
    ensures value { result ≡ code_of mode }
    ensures few { result < 8 }
{
    match mode {
        Mode::Erase => 0,
        Mode::Normal => 1,
        Mode::Multiply => 2,
        Mode::Add => 3,
        Mode::Recolor => 4,
        Mode::Replace => 5,
    }
}

/// The mode of a number in a packed operation.
fn mode_coded(code: u32) -> Mode
    ensures { result ≡ mode_coded code }
{
    match code {
        0 => Mode::Erase,
        1 => Mode::Normal,
        2 => Mode::Multiply,
        3 => Mode::Add,
        4 => Mode::Recolor,
        _ => Mode::Replace,
    }
}

/// The number of a shape in a packed dab.
fn shape_code(shape: Shape) -> u32
    ensures value { result ≡ shape_code shape }
    ensures few { result < 2 }
{
    match shape {
        Shape::Round => 0,
        Shape::Square => 1,
    }
}

/// The shape of a number in a packed dab.
fn shape_coded(code: u32) -> Shape
    ensures { result ≡ shape_coded code }
{
    match code {
        0 => Shape::Round,
        _ => Shape::Square,
    }
}

/// The least number `high` of a packed dab. That of a fill is below it.
const DAB: u32 = 2147483648;

/// The number `high` of a packed number of a command. That of a dab is below it.
const COMMAND: u32 = 3221225472;

/// The number of opaque black.
pub(crate) const OPAQUE: u32 = 4278190080;

/// A `TileOp` in eight bytes, since many may wait.
#[derive(Drop)]
pub struct PackedOp {
    /// The colour of a fill. Of a dab the colour, and its opacity in the eight highest bits. Of a
    /// command its number.
    low: u32,
    /// From the lowest bit on: of a fill its four sides, seven bits each, and three of the mode. Of
    /// a dab `x` and `y`, nine bits each, from -256 on. Then eight of its size, one of its shape,
    /// three of its mode, and the highest bit. Of a command the two highest bits.
    high: u32,
}

impl Model for PackedOp {
    ghost use Rattle.dp_ops.specs.declared.op.TileOp.{TileOp};
    ghost use Rattle.dp_ops.specs.Ops.{packed_op};

    ghost Value = { TileOp };

    ghost view = { λ p. packed_op p.low p.high };
}

/// A place of a dab's middle on one axis, as a number that isn't negative.
fn raised(place: i16) -> u32
    requires from { (pos 0 -ℤ pos 256) ≤ℤ place }
    requires to { place <ℤ pos 256 }
    ensures value { pos result ≡ place +ℤ pos 256 }
    ensures few { result < 512 }
{
    (place + 256) as u32
}

/// The place of such a number.
fn lowered(number: u32) -> i16
    requires { number < 512 }
    ensures { result ≡ pos number -ℤ pos 256 }
{
    number as i16 - 256
}

/// The dab of two numbers.
fn unpacked_dab(low: u32, high: u32) -> TileDab
    ensures { TileOp.Dab result ≡ packed_dab low high }
{
    TileDab {
        x: lowered(high % 512),
        y: lowered(high / 512 % 512),
        size: (high / 262144 % 256) as u8,
        opacity: (low / 16777216) as u8,
        shape: shape_coded(high / 67108864 % 2),
        mode: mode_coded(high / 134217728),
        color: low % 16777216 + OPAQUE,
    }
}

impl PackedOp {
    /// A fill, packed.
    #[inline(always)]
    fn of_fill(fill: TileFill) -> PackedOp
        requires { IsPackable (TileOp.Fill fill) }
        ensures { result ≡ TileOp.Fill fill }
    {
        PackedOp {
            low: fill.color,
            high: fill.left as u32
                + fill.right as u32 * 128
                + fill.top as u32 * 16384
                + fill.bottom as u32 * 2097152
                + code_of(fill.mode) * 268435456,
        }
    }

    /// A dab, packed.
    fn of_dab(dab: TileDab) -> PackedOp
        requires { IsPackable (TileOp.Dab dab) }
        ensures { result ≡ TileOp.Dab dab }
    {
        PackedOp {
            low: dab.color % 16777216 + dab.opacity as u32 * 16777216,
            high: raised(dab.x)
                + raised(dab.y) * 512
                + dab.size as u32 * 262144
                + shape_code(dab.shape) * 67108864
                + code_of(dab.mode) * 134217728
                + DAB,
        }
    }

    /// The operation, packed.
    #[inline(always)]
    pub(crate) fn of(op: TileOp) -> PackedOp
        requires { IsPackable op }
        ensures { result ≡ op }
    {
        match op {
            TileOp::Fill(fill) => PackedOp::of_fill(fill),
            TileOp::Dab(dab) => PackedOp::of_dab(dab),
            TileOp::Command(number) => PackedOp {
                low: number,
                high: COMMAND,
            },
        }
    }

    /// A copy of the operation.
    pub(crate) fn copy(&self) -> PackedOp
        ensures { result ≡ self.now }
    {
        PackedOp {
            low: self.low,
            high: self.high,
        }
    }

    /// The operation.
    #[inline(always)]
    pub fn unpacked(&self) -> TileOp
        ensures { result ≡ self.now }
    {
        if self.high < DAB {
            return TileOp::Fill(TileFill {
                color: self.low,
                left: (self.high % 128) as u8,
                right: (self.high / 128 % 128) as u8,
                top: (self.high / 16384 % 128) as u8,
                bottom: (self.high / 2097152 % 128) as u8,
                mode: mode_coded(self.high / 268435456),
            });
        }
        if self.high < COMMAND {
            return TileOp::Dab(unpacked_dab(self.low, self.high - DAB));
        }
        TileOp::Command(self.low)
    }
}
