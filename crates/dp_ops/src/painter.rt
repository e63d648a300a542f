//! What a command does to a tile.

ghost use Rattle.std.specs.Prelude.{◌≡◌, ℕ, ◌+◌, ◌*◌, ◌<◌, ◌≤◌, pos, true, false, length, take};
ghost use Rattle.std.specs.Prelude.{drop, [], ◌∷◌, ◌++◌, Option, Some, IfSome};
ghost use Rattle.std.specs.Option.{option_map_or};
ghost use Rattle.dp_blend.specs.Color.{Channels, of_argb};
ghost use Rattle.dp_blend.specs.Blending.{blend, mode_numbered};
ghost use Rattle.dp_pixels.specs.Rectangles.{rect_at};
ghost use Rattle.dp_tile.specs.Painters.{KnownChange};
ghost use Rattle.dp_tile.specs.Tiles.{tile_of, tile_pixels};
ghost use Rattle.dp_ops.specs.Drawn.{IsTileWithin, length-tile_drawn, tile_drawn};
ghost use Rattle.dp_ops.specs.Ops.{OnTile, length-tile_after, on_tile, ops_at, tile_after};
ghost use Rattle.dp_ops.specs.Lists.{listed_at, waiting_tile};

use crate::fetch::{Fill, read_tile};
use crate::lists::TileLists;
use crate::op::PackedOp;
use crate::put::TileRun;
use crate::sheet::Sheet;
use dp_blend::{Mode, Pixel, blend, of_argb, row_fill};
use dp_msg_draw::Draw;
use dp_pixels::{Region, draw_region};
use dp_tile::{SIDE, TileChange, TilePainter};

/// A command other than MoveRect, on a canvas of these sides.
#[derive(Clone, Copy)]
pub struct CommandPainter<'a> {
    pub command: &'a Draw,
    pub width: u32,
    pub height: u32,
}

/// Whether all 64 numbers of a stretch are among `len` from `from` on, and below a limit.
fn is_side_within(stretch: u32, from: u32, len: u32, limit: u32) -> bool
    requires { stretch < 64 }
    ensures { result ≡ true → (from ≤ stretch * 64) × (stretch * 64 + 64 ≤ from + len)
        × (stretch * 64 + 64 ≤ limit) }
{
    let (start, end) = (stretch as u64 * 64, from as u64 + len as u64);
    start >= from as u64 && start + 64 <= end && start + 64 <= limit as u64
}

/// What a fill makes of a pixel of its rectangle, by the number of its mode.
fn filled_color(mode: u8, color: u32, old: Pixel) -> Pixel
    ensures { result
        ≡ option_map_or (λ m. blend m (of_argb color) old) (mode_numbered mode) old }
{
    match Mode::from_u8(mode) {
        Some(mode) => blend(mode, of_argb(color), old),
        None => old,
    }
}

impl CommandPainter<'_> {
    /// Whether all of each tile of a row, from the column `left` on before `right`, is in the
    /// rectangle and on the canvas.
    fn is_row_within(&self, area: Fill, row: u32, left: u32, right: u32) -> bool
        requires row { row < 64 }
        requires order { left < right }
        requires cols { right ≤ 64 }
        ensures { result ≡ true → (col : ℕ) → left ≤ col → col < right
            → IsTileWithin self.now.width self.now.height
            (rect_at (pos area.x) (pos area.y) area.w area.h) col row }
    {
        is_side_within(left, area.x, area.w, self.width)
            && is_side_within(right - 1, area.x, area.w, self.width)
            && is_side_within(row, area.y, area.h, self.height)
    }

    /// What the command does to each tile of a row, from the column `left` on before `right`, of
    /// which all pixels are of this colour. A fill may meet them in part if the colour stays.
    fn known_change(&self, row: u32, left: u32, right: u32, color: Pixel) -> TileChange
        requires row { row < 64 }
        requires order { left < right }
        requires cols { right ≤ 64 }
        ensures { (col : ℕ) → left ≤ col → col < right → KnownChange result (Some color)
            (tile_drawn self.now.width self.now.height self.now.command.now col row) }
    {
        let Draw::FillRect {
            mode,
            x,
            y,
            w,
            h,
            color: source,
            ..
        } = self.command
        else {
            return self.put_change(row, left, right);
        };
        let area = Fill {
            x: *x,
            y: *y,
            w: *w,
            h: *h,
        };
        let after = filled_color(*mode, *source, color);
        if after == color {
            TileChange::Stays
        } else if self.is_row_within(area, row, left, right) {
            TileChange::Becomes(after)
        } else {
            TileChange::Unknown
        }
    }

    /// What a PutTile does to each tile of a row, from the column `left` on before `right`,
    /// whatever their pixels are.
    fn put_change(&self, row: u32, left: u32, right: u32) -> TileChange
        requires row { row < 64 }
        requires order { left < right }
        requires cols { right ≤ 64 }
        ensures { (color : Option Channels) (col : ℕ) → left ≤ col → col < right
            → KnownChange result color
            (tile_drawn self.now.width self.now.height self.now.command.now col row) }
    {
        let Draw::PutTile {
            layer,
            col,
            row: top,
            repeat,
            content,
        } = self.command
        else {
            return TileChange::Unknown;
        };
        let run = TileRun {
            layer: *layer,
            width: self.width,
            height: self.height,
            col: *col,
            row: *top,
            repeat: *repeat,
        };
        run.change(content, row, left, right)
    }

    /// Fetches what a fill paints of the tile at a column and a row. The answer is no.
    fn fetch(&self, col: u32, row: u32, pixels: &[Pixel]) -> bool
        requires col { col < 64 }
        requires row { row < 64 }
        requires count { length pixels.now ≡ 4096 }
        ensures { result ≡ false }
    {
        match self.command {
            Draw::FillRect { x, y, w, h, .. } => {
                let area = Fill {
                    x: *x,
                    y: *y,
                    w: *w,
                    h: *h,
                };
                area.fetch(col, row, pixels)
            }
            _ => false,
        }
    }

    /// Draws the command on the tile at a column and a row.
    pub(crate) fn draw(&self, col: u32, row: u32, pixels: &mut [Pixel])
        requires col { col < 64 }
        requires row { row < 64 }
        requires count { length pixels.old ≡ 4096 }
        ensures { pixels.new ≡ tile_drawn self.now.width self.now.height self.now.command.now col
            row pixels.old }
    {
        let region = Region {
            x: col * 64,
            y: row * 64,
            width: 64,
            height: 64,
            canvas_width: self.width,
            canvas_height: self.height,
        };
        draw_region(self.command, &region, SIDE, pixels);
    }
}

impl TilePainter for CommandPainter<'_> {
    ghost painted = { λ p. tile_drawn p.width p.height p.command.now };

    ghost keeps_count = { λ p col row pixels count.
        length-tile_drawn p.width p.height p.command.now col row pixels };

    fn change(&self, col: u32, row: u32, color: Option<Pixel>) -> TileChange {
        match color {
            Some(p) => self.known_change(row, col, col + 1, p),
            None => self.put_change(row, col, col + 1),
        }
    }

    fn change_row(&self, row: u32, left: u32, right: u32, color: Pixel) -> TileChange {
        self.known_change(row, left, right, color)
    }

    fn paint(&self, col: u32, row: u32, pixels: &mut [Pixel]) {
        if self.fetch(col, row, pixels) {
            // This is never so. The test has the compiler keep what is read for it.
            return;
        }
        self.draw(col, row, pixels);
    }
}

/// Draws operations one after the other on a tile.
pub(crate) fn draw_ops(on: &Sheet<'_>, col: u32, row: u32, ops: &[PackedOp], pixels: &mut [Pixel])
    requires col { col < 64 }
    requires row { row < 64 }
    requires count { length pixels.old ≡ 4096 }
    ensures { pixels.new ≡ tile_after
        (on_tile on.now.width on.now.height on.now.commands.now col row) ops.now pixels.old }
{
    for op in ops.iter() {
        op.unpacked().draw(on, col, row, pixels);
    }
}

/// Draws operations one after the other on the tile at a column and a row. The tile is of one
/// colour, if one is given, and else has these pixels. Gives its colour then, if it is known to be
/// of one.
pub fn show_ops(
    on: &Sheet<'_>,
    col: u32,
    row: u32,
    ops: &[PackedOp],
    color: Option<Pixel>,
    pixels: &mut [Pixel],
) -> Option<Pixel>
    requires col { col < 64 }
    requires row { row < 64 }
    requires count { length pixels.old ≡ 4096 }
    ensures shown { tile_pixels result pixels.new ≡ tile_after
        (on_tile on.now.width on.now.height on.now.commands.now col row) ops.now
        (tile_pixels color pixels.old) }
    ensures count { length pixels.new ≡ 4096 }
{
    let Some(p) = color else {
        draw_ops(on, col, row, ops, pixels);
        return None;
    };
    let (done, after) = color_after(ops, p);
    if done >= ops.len() {
        return Some(after);
    }
    fill_tile(after, pixels);
    draw_ops(on, col, row, &ops[done..], pixels);
    None
}

/// Gives each pixel of a tile this colour.
fn fill_tile(color: Pixel, pixels: &mut [Pixel])
    requires { length pixels.old ≡ 4096 }
    ensures { pixels.new ≡ tile_of color }
{
    row_fill(Mode::Replace, color, pixels);
}

/// After how many operations a tile of this colour is known to be of one, and that colour.
fn color_after(ops: &[PackedOp], color: Pixel) -> (usize, Pixel)
    ensures within { result.0 ≤ length ops.now }
    ensures color { (t : OnTile) (x y : ℕ) → x < 64 → y < 64
        → ops_at t (take result.0 ops.now) x y color ≡ result.1 }
{
    let (mut done, mut color) = (0, color);
    for op in ops {
        match op.unpacked().color_after(color) {
            Some(after) => color = after,
            None => return (done, color),
        }
        done += 1;
    }
    (done, color)
}

/// Operations on the tiles of a canvas, by their lists.
#[derive(Clone, Copy)]
pub struct OpsPainter<'a> {
    pub on: Sheet<'a>,
    pub lists: &'a TileLists,
}

impl TilePainter for OpsPainter<'_> {
    ghost painted = { λ p. waiting_tile p.on.width p.on.height p.on.commands.now p.lists.now };

    ghost keeps_count = { λ p col row pixels count.
        length-tile_after (on_tile p.on.width p.on.height p.on.commands.now col row)
        (listed_at p.lists.now col row) pixels };

    fn change(&self, col: u32, row: u32, color: Option<Pixel>) -> TileChange {
        let ops = self.lists.ops(col, row);
        if ops.is_empty() {
            return TileChange::Stays;
        }
        let Some(before) = color else {
            return TileChange::Unknown;
        };
        let (done, after) = color_after(ops, before);
        if done < ops.len() {
            TileChange::Unknown
        } else if after == before {
            TileChange::Stays
        } else {
            TileChange::Becomes(after)
        }
    }

    fn paint(&self, col: u32, row: u32, pixels: &mut [Pixel]) {
        let ops = self.lists.ops(col, row);
        if ops.len() > MANY && read_tile(pixels) {
            // This is never so. The test has the compiler keep what is read for it.
            return;
        }
        draw_ops(&self.on, col, row, ops, pixels);
    }
}

/// From how many operations on a tile is read before they are painted.
const MANY: usize = 4;
