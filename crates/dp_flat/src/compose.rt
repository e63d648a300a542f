//! Layers composed a tile at a time.

ghost use Rattle.std.specs.Prelude.{◌≡◌, ◌+◌, ◌*◌, ◌<◌, ◌≤◌, ℕ, Some, false, length, true};
ghost use Rattle.dp_blend.specs.Blending.{blend};
ghost use Rattle.dp_blend.specs.Color.{white};
ghost use Rattle.dp_layers.specs.Layers.{row_of};
ghost use Rattle.dp_layers.specs.Rows.{layers_of};
ghost use Rattle.dp_pixels.specs.Tiles.{tile_x, tile_y};
ghost use Rattle.dp_plain.specs.Board.{IsBoard};
ghost use Rattle.dp_plain.specs.Picture.{is_seen_in, laid, seen};
ghost use Rattle.dp_flat.specs.Tones.{tone_at};
ghost use Rattle.dp_flat.specs.Composed.{HidesBelow, IsComposed, IsDeep, IsEnough, IsOnBoard};
ghost use Rattle.dp_flat.specs.Composed.{IsPlace, shown};

use crate::tone::{BUFFER, TileAt, Tone, hides, lay, mode_of, shows_source};
use dp_blend::{Mode, Pixel, fade, from8, of_argb};
use dp_layers::{LayerRow, rows_by_id};
use dp_plain::BoardView;

/// How deep groups are nested at most.
pub(crate) const LEVELS: usize = 16;

/// How deep groups are gone down into for the picture of a board: one level, for the root's rows,
/// if no row is a group.
pub(crate) fn depth_of<V: BoardView>(board: &V) -> usize
    ensures few { result ≤ LEVELS }
    ensures some { 1 ≤ result }
    ensures deep { IsDeep (V.board board.now) result }
{
    if board.rows().iter().any(|row| row.group) {
        LEVELS
    } else {
        1
    }
}

/// Draws a tile of the picture before it is laid on white, going down into groups so deep. If the
/// tone is mixed, the first pixels of this memory are its pixels.
pub(crate) fn draw_tile<V: BoardView>(
    board: &V,
    depth: usize,
    tile: TileAt,
    memory: &mut [Pixel],
) -> Tone
    requires board { IsBoard (V.board board.now) }
    requires tile { IsOnBoard (V.board board.now) tile }
    requires some { 1 ≤ depth }
    requires few { depth ≤ LEVELS }
    requires deep { IsDeep (V.board board.now) depth }
    requires long { length memory.old ≡ BUFFER * (depth + 1) }
    ensures { (k : ℕ) → IsPlace (V.board board.now) tile k
        → blend Mode.Normal (tone_at result memory.new k) white
        ≡ seen (V.board board.now) (tile_x tile.col k) (tile_y tile.row k) }
{
    let (root, levels) = memory.split_at_mut(BUFFER);
    let start = of_argb(board.background());
    compose_tile(board, depth, 0, tile, start, levels, root)
}

/// Lays the rows of the parent that aren't hidden on a tile of the colour `start`, going down into
/// groups so deep. `levels` has a buffer for each level.
#[cycle(composing)]
fn compose_tile<V: BoardView>(
    board: &V,
    depth: usize,
    parent: u16,
    tile: TileAt,
    start: Pixel,
    levels: &mut [Pixel],
    buffer: &mut [Pixel],
) -> Tone
    requires board { IsBoard (V.board board.now) }
    requires tile { IsOnBoard (V.board board.now) tile }
    requires long { length buffer.old ≡ BUFFER }
    requires levels { length levels.old ≡ BUFFER * depth }
    ensures { IsComposed (V.board board.now) depth parent tile start result buffer.new }
{
    let mut tone = Tone::Solid(start);
    if depth == 0 {
        return tone;
    }
    rows_by_id();
    let first = first_to_lay(board, parent, tile);
    for row in &board.rows()[first..] {
        if is_seen_in(parent, row) {
            tone = lay_row(board, depth - 1, row, tile, tone, levels, buffer);
        }
    }
    tone
}

/// Lays a row of the list on a tile: a paint row by its pixels, and a group by what its own rows
/// make from clear. If the tile then shows just the pixels of a paint row, these are read into the
/// tile's own buffer.
#[cycle(composing)]
fn lay_row<V: BoardView>(
    board: &V,
    depth: usize,
    row: &LayerRow,
    tile: TileAt,
    under: Tone,
    levels: &mut [Pixel],
    buffer: &mut [Pixel],
) -> Tone
    requires board { IsBoard (V.board board.now) }
    requires known { row_of (layers_of (V.board board.now).rows) row.now.id ≡ Some row.now }
    requires tile { IsOnBoard (V.board board.now) tile }
    requires long { length buffer.old ≡ BUFFER }
    requires levels { length levels.old ≡ BUFFER * (depth + 1) }
    ensures { (k : ℕ) → IsPlace (V.board board.now) tile k → tone_at result buffer.new k
        ≡ laid row.now
        (shown (V.board board.now) depth row.now (tile_x tile.col k) (tile_y tile.row k))
        (tone_at under buffer.old k) }
{
    if !row.group && shows_source(mode_of(row), from8(row.opacity), &under) {
        return read_tile(board, row, tile, buffer);
    }
    let (source, deeper) = levels.split_at_mut(BUFFER);
    let tone = if row.group {
        compose_tile(board, depth, row.id, tile, Pixel::CLEAR, deeper, source)
    } else {
        read_tile(board, row, tile, source)
    };
    lay(row, tone.shown(source), under, buffer)
}

/// Reads the tile of a paint row into a buffer.
fn read_tile<V: BoardView>(board: &V, row: &LayerRow, tile: TileAt, buffer: &mut [Pixel]) -> Tone
    requires known { row_of (layers_of (V.board board.now).rows) row.now.id ≡ Some row.now }
    requires paint { row.now.group ≡ false }
    requires tile { IsOnBoard (V.board board.now) tile }
    requires long { length buffer.old ≡ BUFFER }
    ensures { (depth k : ℕ) → IsPlace (V.board board.now) tile k → tone_at result buffer.new k
        ≡ shown (V.board board.now) depth row.now (tile_x tile.col k) (tile_y tile.row k) }
{
    Tone::of(board.tile(row.id, tile.col, tile.row, buffer))
}

/// The place in the list from which on rows are laid: that of the topmost row of the parent that
/// hides what is below it, or 0.
fn first_to_lay<V: BoardView>(board: &V, parent: u16, tile: TileAt) -> usize
    requires board { IsBoard (V.board board.now) }
    requires tile { IsOnBoard (V.board board.now) tile }
    ensures inside { result ≤ length (layers_of (V.board board.now).rows) }
    ensures enough { IsEnough (V.board board.now) parent tile result }
{
    rows_by_id();
    let rows = board.rows();
    for k in (0..rows.len()).rev() {
        let row = &rows[k];
        if is_seen_in(parent, row) && hides_below(board, row, tile) {
            return k;
        }
    }
    0
}

/// Whether a row of the list hides what is below it in its parent.
fn hides_below<V: BoardView>(board: &V, row: &LayerRow, tile: TileAt) -> bool
    requires known { row_of (layers_of (V.board board.now).rows) row.now.id ≡ Some row.now }
    requires tile { IsOnBoard (V.board board.now) tile }
    ensures { result ≡ true → HidesBelow (V.board board.now) row.now tile }
{
    let mode = mode_of(row);
    if mode == Mode::Replace {
        return true;
    }
    if row.group || mode != Mode::Normal || row.opacity < 255 {
        return false;
    }
    match board.tile_color(row.id, tile.col, tile.row) {
        Some(color) => hides(mode, fade(color, from8(row.opacity))),
        None => false,
    }
}

/// Whether the row stands in the parent and isn't hidden.
pub(crate) fn is_seen_in(parent: u16, row: &LayerRow) -> bool
    ensures { result ≡ is_seen_in parent row.now }
{
    row.parent == parent && !row.hidden
}
