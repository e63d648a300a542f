//! Rectangles that move on a grid.

ghost use Rattle.std.specs.Prelude.{◌≡◌, ℕ, ℤ, ◌+◌, ◌*◌, ◌<◌, ◌≤◌, ◌^◌, ◌≤ℤ◌, ◌<ℤ◌, ◌+ℤ◌, ◌-ℤ◌};
ghost use Rattle.std.specs.Prelude.{true, false, pos, map, length, slice_index_or, unsigned_abs};
ghost use Rattle.std.specs.Prelude.{OnOk, OnErr};
ghost use Rattle.dp_blend.specs.Color.{Channels, clear};
ghost use Rattle.dp_blend.specs.Blending.{blend};
ghost use Rattle.dp_blend.specs.Canvas.{below};
ghost use Rattle.dp_pixels.specs.Rectangles.{canvas_rect, clipped, is_in};
ghost use Rattle.dp_pixels.specs.Commands.{pixels_after};
ghost use Rattle.dp_pixels.specs.declared.feet.Footprint.TheVariants.{Two};
ghost use Rattle.dp_pixels.specs.Feet.{foot, reach};
ghost use Rattle.dp_tile.specs.Tiles.{cells_shown, grid_pixels};
ghost use Rattle.dp_shift.specs.Grids.{IsGridOf, IsNear, IsOnGreatest};
ghost use Rattle.dp_shift.specs.Reading.{ArePainted, IsAreaOf, IsMove, cells_of, moved_part};
ghost use Rattle.dp_shift.specs.Movements.{move_of};
ghost use Rattle.dp_shift.specs.Reading.{cleared, laid, lifted, row_from, shifted, shown};

use crate::cells::cells_in;
use crate::reading::{Shown, clear_row, count_below, place_after};
use crate::rows::{RowPainter, RowSource};
use dp_blend::{Mode, ONE, Pixel, fade_by_one_keeps, row_merge};
use dp_msg_draw::Draw;
use dp_pixels::{Footprint, Rect, foot};
use dp_steps::Steps;
use dp_tile::{
    CellArea, Grid, SIDE, TileChange, an_area_shows_at_most_its_grid, same_cells_show_alike,
};
use std::alloc::AllocError;
use std::sync::ledger::Ledger;

/// A MoveRect, as it is drawn: the canvas before it, its source as far as that is on the canvas,
/// and how far the source moves.
#[derive(Clone, Copy)]
struct Moved<'a> {
    old: Shown<'a>,
    source: Rect,
    right: i64,
    down: i64,
    ghost near_x0: { unsigned_abs source.x0 < 2 ^ 38 },
    ghost near_x1: { unsigned_abs source.x1 < 2 ^ 38 },
    ghost near_y0: { unsigned_abs source.y0 < 2 ^ 38 },
    ghost near_y1: { unsigned_abs source.y1 < 2 ^ 38 },
    ghost near_right: { unsigned_abs right < 2 ^ 38 },
    ghost near_down: { unsigned_abs down < 2 ^ 38 },
}

impl Moved<'_> {
    /// Whether the source has a place in the row y.
    fn has_row(self, y: i64) -> bool
        ensures yes { result ≡ true → (self.entry.source.y0 ≤ℤ y) × (y <ℤ self.entry.source.y1) }
        ensures no { result ≡ false → self.entry.source.y0 ≤ℤ y → y <ℤ self.entry.source.y1
            → ⊥ }
    {
        self.source.y0 <= y && y < self.source.y1
    }

    /// Whether the source has all places of the square of 64 by 64 at a place.
    fn has_square(self, x: i64, y: i64) -> bool
        requires x { unsigned_abs x < 2 ^ 39 }
        requires y { unsigned_abs y < 2 ^ 39 }
        ensures { result ≡ true → (i j : ℕ) → i < 64 → j < 64
            → is_in self.entry.source (x +ℤ pos i) (y +ℤ pos j) ≡ true }
    {
        has_stretch(self.source.x0, self.source.x1, x)
            && has_stretch(self.source.y0, self.source.y1, y)
    }

    /// Whether the source has none of them.
    fn misses_square(self, x: i64, y: i64) -> bool
        requires x { unsigned_abs x < 2 ^ 39 }
        requires y { unsigned_abs y < 2 ^ 39 }
        ensures { result ≡ true → (i j : ℕ) → i < 64 → j < 64
            → is_in self.entry.source (x +ℤ pos i) (y +ℤ pos j) ≡ false }
    {
        misses_stretch(self.source.x0, self.source.x1, x)
            || misses_stretch(self.source.y0, self.source.y1, y)
    }

    /// The places of a rectangle on the canvas to which the source moves.
    fn target_in(self, to: Rect) -> Rect
        ensures { result ≡ clipped
            (clipped to (shifted self.entry.source self.entry.right self.entry.down))
            (canvas_rect self.entry.old.width self.entry.old.height) }
    {
        to.clipped(shifted_rect(self.source, self.right, self.down))
            .clipped(Rect::canvas(self.old.width, self.old.height))
    }

    /// Clears the places of a row that are in the source.
    fn clear(self, x: i64, y: i64, row: &mut [Pixel])
        requires x { unsigned_abs x < 2 ^ 32 }
        requires len { length row.old ≤ 64 }
        ensures { (pixel : ℤ → ℤ → Channels) → row.old ≡ row_from pixel x y (length row.old)
            → row.new ≡ row_from (cleared self.entry.source pixel) x y (length row.old) }
    {
        let start = count_below(self.source.x0, x, row.len());
        let end = count_below(self.source.x1, x, row.len());
        if self.has_row(y) && start < end {
            clear_row(&mut row[start..end]);
        }
    }

    /// Blends the old pixels that begin at a place on those of a row.
    fn lay_part(self, x: i64, y: i64, row: &mut [Pixel])
        requires x { unsigned_abs x < 2 ^ 40 }
        requires y { unsigned_abs y < 2 ^ 40 }
        requires len { length row.old ≤ 64 }
        ensures len { length row.new ≡ length row.old }
        ensures places { (i : ℕ) → i < length row.old → slice_index_or row.new i clear
            ≡ blend Mode.Normal (shown self.entry.old.width self.entry.old.height
            self.entry.old.grid.now (x +ℤ pos i) y) (slice_index_or row.old i clear) }
    {
        let mut pixels = [Pixel::CLEAR; SIDE];
        let lifted = &mut pixels[..row.len()];
        self.old.read(x, y, lifted);
        lay_row(lifted, row);
    }

    /// Blends the old pixels that begin at a place on those of a row, if they are of the source.
    fn lay_source(self, x: i64, y: i64, row: &mut [Pixel])
        requires x { unsigned_abs x < 2 ^ 39 }
        requires y { unsigned_abs y < 2 ^ 39 }
        requires len { length row.old ≤ 64 }
        ensures { (under : ℕ → Channels) → row.old ≡ map under (below (length row.old))
            → row.new ≡ map (lifted self.entry.source x y (shown self.entry.old.width
            self.entry.old.height self.entry.old.grid.now) under) (below (length row.old)) }
    {
        let start = count_below(self.source.x0, x, row.len());
        let end = count_below(self.source.x1, x, row.len());
        if self.has_row(y) && start < end {
            self.lay_part(place_after(x, start), y, &mut row[start..end]);
        }
    }

    /// Blends what moved to a row.
    fn lay(self, x: i64, y: i64, row: &mut [Pixel])
        requires x { unsigned_abs x < 2 ^ 32 }
        requires y { unsigned_abs y < 2 ^ 32 }
        requires len { length row.old ≤ 64 }
        ensures { (pixel : ℤ → ℤ → Channels) → row.old ≡ row_from pixel x y (length row.old)
            → row.new ≡ row_from (laid self.entry.source self.entry.right self.entry.down
            (shown self.entry.old.width self.entry.old.height self.entry.old.grid.now) pixel)
            x y (length row.old) }
    {
        self.lay_source(x - self.right, y - self.down, row);
    }
}

/// Whether all of 64 numbers, from x on, are from one on before another.
fn has_stretch(from: i64, to: i64, x: i64) -> bool
    requires { unsigned_abs x < 2 ^ 39 }
    ensures { result ≡ true → (i : ℕ) → i < 64
        → (from ≤ℤ (x +ℤ pos i)) × ((x +ℤ pos i) <ℤ to) }
{
    from <= x && x + 64 <= to
}

/// Whether none of them is.
fn misses_stretch(from: i64, to: i64, x: i64) -> bool
    requires { unsigned_abs x < 2 ^ 39 }
    ensures { result ≡ true → (i : ℕ) → i < 64 → from ≤ℤ (x +ℤ pos i)
        → (x +ℤ pos i) <ℤ to → ⊥ }
{
    x + 64 <= from || to <= x
}

/// The first place of a column or row of tiles.
fn tile_start(tile: u32) -> i64
    requires { tile < 64 }
    ensures value { result ≡ pos (tile * 64) }
    ensures near { unsigned_abs result < 2 ^ 13 }
{
    tile as i64 * 64
}

/// A place, so far back.
fn place_back(x: i64, by: i64) -> i64
    requires x { unsigned_abs x < 2 ^ 13 }
    requires by { unsigned_abs by < 2 ^ 38 }
    ensures value { result ≡ x -ℤ by }
    ensures near { unsigned_abs result < 2 ^ 39 }
{
    x - by
}

/// Blends pixels on those of a row.
fn lay_row(sources: &[Pixel], row: &mut [Pixel])
    requires { length sources.now ≡ length row.old }
    ensures len { length row.new ≡ length row.old }
    ensures places { (k : ℕ) → k < length row.old → slice_index_or row.new k clear
        ≡ blend Mode.Normal (slice_index_or sources.now k clear) (slice_index_or row.old k clear) }
{
    fade_by_one_keeps();
    row_merge(Mode::Normal, ONE, sources, row);
}

impl RowSource for Moved<'_> {
    ghost use Rattle.dp_shift.specs.Reading.{moved_part, shown};

    ghost pixel = { λ m. moved_part m.source m.right m.down
        (shown m.old.width m.old.height m.old.grid.now) };

    fn put_row(&self, x: i64, y: i64, row: &mut [Pixel]) {
        self.old.read(x, y, row);
        self.clear(x, y, row);
        self.lay(x, y, row);
    }

    fn change(&self, col: u32, row: u32, _color: Option<Pixel>) -> TileChange {
        let (x, y) = (tile_start(col), tile_start(row));
        let (back_x, back_y) = (place_back(x, self.right), place_back(y, self.down));
        if self.has_square(x, y) && self.misses_square(back_x, back_y) {
            TileChange::Becomes(Pixel::CLEAR)
        } else {
            TileChange::Unknown
        }
    }
}

/// A rectangle that moves: the corner and the sides of its source, and the corner of its target.
#[derive(Clone, Copy)]
struct Movement {
    sx: u32,
    sy: u32,
    w: u32,
    h: u32,
    tx: i32,
    ty: i32,
}

/// How far it is from a place to another one.
fn way(from: u32, to: i32) -> i64
    ensures value { result ≡ to -ℤ pos from }
    ensures near { unsigned_abs result < 2 ^ 38 }
{
    to as i64 - from as i64
}

/// The rectangle, moved so far.
fn shifted_rect(rect: Rect, right: i64, down: i64) -> Rect
    requires near { IsNear rect }
    requires right { unsigned_abs right < 2 ^ 38 }
    requires down { unsigned_abs down < 2 ^ 38 }
    ensures { result ≡ shifted rect right down }
{
    Rect {
        x0: rect.x0 + right,
        y0: rect.y0 + down,
        x1: rect.x1 + right,
        y1: rect.y1 + down,
    }
}

/// The part of a rectangle that is on a canvas.
fn on_canvas(rect: Rect, width: u32, height: u32) -> Rect
    requires { IsNear rect }
    ensures value { result ≡ clipped rect (canvas_rect width height) }
    ensures x0 { unsigned_abs result.x0 < 2 ^ 38 }
    ensures x1 { unsigned_abs result.x1 < 2 ^ 38 }
    ensures y0 { unsigned_abs result.y0 < 2 ^ 38 }
    ensures y1 { unsigned_abs result.y1 < 2 ^ 38 }
{
    rect.clipped(Rect::canvas(width, height))
}

/// Paints what moved on two areas of a grid. If it is refused, some of their cells may be painted.
fn paint_areas<T: Ledger>(
    grid: &mut Grid,
    moved: &Moved,
    from: CellArea,
    to: CellArea,
    tiles: &mut Steps<T>,
) -> Result<(), AllocError>
    requires from { IsAreaOf grid.old from }
    requires to { IsAreaOf grid.old to }
    ensures painted { OnOk result (ArePainted from to
        (moved_part moved.now.source moved.now.right moved.now.down
        (shown moved.now.old.width moved.now.old.height moved.now.old.grid.now))
        grid.old grid.new) }
    ensures tiles_rise { tiles.old ≤ tiles.new }
    ensures few_tiles { tiles.new ≤ tiles.old + cells_of from + cells_of to }
    ensures few_shown { OnOk result (tiles.new ≤ tiles.old + 2 * cells_shown grid.new) }
{
    an_area_shows_at_most_its_grid();
    same_cells_show_alike();
    let painter = RowPainter { source: moved };
    grid.paint_each(from, &painter, tiles)?;
    grid.paint_each(to, &painter, tiles)?;
    grid.known();
    Ok(())
}

/// Paints a MoveRect on a grid, as another grid of the same pixels shows it. If it is refused, a
/// part may be painted.
fn paint_move<T: Ledger>(
    grid: &mut Grid,
    old: Shown,
    command: &Draw,
    tiles: &mut Steps<T>,
) -> Result<(), AllocError>
    requires same { old.grid.now ≡ grid.old }
    requires command { IsMove command.now }
    ensures grid { OnOk result (IsGridOf old.entry.width old.entry.height grid.new) }
    ensures pixels { OnOk result (grid_pixels old.entry.width old.entry.height grid.new
        ≡ pixels_after old.entry.width old.entry.height command.now
        (grid_pixels old.entry.width old.entry.height grid.old)) }
    ensures tiles_rise { tiles.old ≤ tiles.new }
    ensures few_tiles { tiles.new ≤ tiles.old + reach command.now }
    ensures few_shown { OnOk result (tiles.new ≤ tiles.old + 2 * cells_shown grid.new) }
{
    let movement = movement_of(command);
    let (from, to) = move_rects(command);
    let moved = Moved {
        old,
        source: on_canvas(from, old.width, old.height),
        right: way(movement.sx, movement.tx),
        down: way(movement.sy, movement.ty),
    };
    let (cols, rows) = (old.grid.cols(), old.grid.rows());
    let cleared = cells_in(moved.source, cols, rows);
    let laid = cells_in(moved.target_in(to), cols, rows);
    paint_areas(grid, &moved, cleared, laid, tiles)
}

/// The rectangles of the foot of a MoveRect: the one that is cleared, and the one that its pixels
/// move to.
pub fn move_rects(command: &Draw) -> (Rect, Rect)
    requires { IsMove command.now }
    ensures foot { (layer : ℕ) × (foot command.now ≡ Two layer result.0 result.1) }
    ensures from { IsOnGreatest result.0 }
    ensures to { IsOnGreatest result.1 }
    ensures near { IsNear result.0 }
{
    match foot(command) {
        Footprint::Two { from, to, .. } => (from, to),
        _ => unreachable!(),
    }
}

/// The movement of a MoveRect.
fn movement_of(command: &Draw) -> Movement
    requires { IsMove command.now }
    ensures { (layer : ℕ) × (command.now ≡ move_of layer result) }
{
    match command {
        Draw::MoveRect {
            sx,
            sy,
            w,
            h,
            tx,
            ty,
            ..
        } => Movement {
            sx: *sx,
            sy: *sy,
            w: *w,
            h: *h,
            tx: *tx,
            ty: *ty,
        },
        _ => unreachable!(),
    }
}

/// Paints a MoveRect on a grid. It makes no tile for a cell that shows nothing then.
///
/// # Errors
///
/// The grid is as it was, and tiles that were made are counted.
pub fn move_in_place<T: Ledger>(
    grid: &mut Grid,
    width: u32,
    height: u32,
    command: &Draw,
    tiles: &mut Steps<T>,
) -> Result<(), AllocError>
    requires grid { IsGridOf width height grid.old }
    requires command { IsMove command.now }
    ensures grid { OnOk result (IsGridOf width height grid.new) }
    ensures pixels { OnOk result (grid_pixels width height grid.new
        ≡ pixels_after width height command.now (grid_pixels width height grid.old)) }
    ensures err { OnErr result (grid.new ≡ grid.old) }
    ensures tiles_rise { tiles.old ≤ tiles.new }
    ensures few_tiles { tiles.new ≤ tiles.old + reach command.now }
    ensures few_shown { OnOk result (tiles.new ≤ tiles.old + 2 * cells_shown grid.new) }
{
    let old = grid.share()?;
    let shown = Shown {
        grid: &old,
        width,
        height,
    };
    match paint_move(grid, shown, command, tiles) {
        Ok(()) => Ok(()),
        Err(refused) => {
            *grid = old;
            Err(refused)
        }
    }
}
