//! The snapshot of a board.

ghost use Rattle.std.specs.Prelude.{◌≡◌, ◌++◌, ◌<◌, ◌≤◌, Some, length, All};
ghost use Rattle.std.specs.Prelude.{IfOk, OnOk, true};
ghost use Rattle.std.specs.List.{flat_map};
ghost use Rattle.dp_blend.specs.Canvas.{below};
ghost use Rattle.dp_layers.specs.Layers.{is_paint_row, row_of};
ghost use Rattle.dp_layers.specs.Rows.{layers_of};
ghost use Rattle.dp_pixels.specs.Tiles.{tiles_along};
ghost use Rattle.dp_plain.specs.Board.{HasPixels, IsBoard};
ghost use Rattle.dp_plain.specs.Picture.{pixels_of};
ghost use Rattle.dp_snap.specs.Snapshot.{layer_puts, put_of_tile, puts_of, snapshot};
ghost use Rattle.dp_snap.specs.Spelled.{IsSpelled};

use crate::commands::Commands;
use crate::rows::{put_attrs, put_background, put_creates, put_moves, put_sides};
use crate::tile::{COUNT, read_tile, shown_of, tile_content};
use dp_blend::Pixel;
use dp_layers::{LayerRow, rows_by_id};
use dp_lists::Listed;
use dp_msg_draw::Draw;
use dp_plain::BoardView;
use std::alloc::{AllocError, Global};

/// The commands of a snapshot.
pub type Msgs = Listed<Draw>;

/// The commands that draw the board on an empty one. It takes the memory of one tile beside them.
pub fn snapshot<V: BoardView>(alloc: Global, canvas: &V) -> Result<Msgs, AllocError>
    ensures snapshot { IfOk result (λ msgs. msgs ≡ snapshot (V.board canvas.now)) }
    ensures spelled { IfOk result (All IsSpelled) }
    ensures pixels { HasPixels (V.board canvas.now) }
    ensures board { IsBoard (V.board canvas.now) }
{
    canvas.known_pixels();
    let _width = canvas.width();
    let mut commands = Commands::new(alloc);
    put_sides(canvas, &mut commands)?;
    put_background(canvas, &mut commands)?;
    put_creates(canvas.rows(), &mut commands)?;
    put_moves(canvas.rows(), &mut commands)?;
    put_attrs(canvas.rows(), &mut commands)?;
    put_layers(canvas, &mut commands)?;
    Ok(commands.into_list())
}

/// Adds the tiles of the paint rows.
fn put_layers<V: BoardView>(canvas: &V, commands: &mut Commands) -> Result<(), AllocError>
    requires { IsBoard (V.board canvas.now) }
    ensures { OnOk result (commands.new ≡ commands.old
        ++ flat_map (layer_puts (V.board canvas.now)) (layers_of (V.board canvas.now).rows)) }
{
    rows_by_id();
    let mut tile = vec![in commands.allocator(); Pixel::CLEAR; COUNT]?;
    for row in canvas.rows() {
        put_row(canvas, row, &mut tile, commands)?;
    }
    Ok(())
}

/// Adds the tiles of a row, if it is a paint row.
fn put_row<V: BoardView>(
    canvas: &V,
    row: &LayerRow,
    tile: &mut [Pixel],
    commands: &mut Commands,
) -> Result<(), AllocError>
    requires known { row_of (layers_of (V.board canvas.now).rows) row.now.id ≡ Some row.now }
    requires whole { length tile.old ≡ 4096 }
    ensures { OnOk result
        (commands.new ≡ commands.old ++ layer_puts (V.board canvas.now) row.now) }
{
    if row.group {
        return Ok(());
    }
    put_layer(canvas, row.id, tile, commands)
}

/// How many tiles it takes to cover a side.
fn tiles_along(side: u32) -> u32
    requires { side ≤ 4096 }
    ensures { result ≡ tiles_along side }
{
    side.div_ceil(64)
}

/// Adds the tiles of a paint layer.
fn put_layer<V: BoardView>(
    canvas: &V,
    id: u16,
    tile: &mut [Pixel],
    commands: &mut Commands,
) -> Result<(), AllocError>
    requires paint { is_paint_row (layers_of (V.board canvas.now).rows) id ≡ true }
    requires whole { length tile.old ≡ 4096 }
    ensures { OnOk result (commands.new ≡ commands.old
        ++ puts_of (V.board canvas.now).width (V.board canvas.now).height id
        (pixels_of (V.board canvas.now) id)) }
{
    for row in 0..tiles_along(canvas.height()) {
        put_tiles(canvas, id, row, tile, commands)?;
    }
    Ok(())
}

/// Adds the tiles of a paint layer in a row of tiles.
fn put_tiles<V: BoardView>(
    canvas: &V,
    id: u16,
    row: u32,
    tile: &mut [Pixel],
    commands: &mut Commands,
) -> Result<(), AllocError>
    requires paint { is_paint_row (layers_of (V.board canvas.now).rows) id ≡ true }
    requires inside { row < 64 }
    requires whole { length tile.old ≡ 4096 }
    ensures { OnOk result (commands.new ≡ commands.old
        ++ flat_map (put_of_tile (V.board canvas.now).width (V.board canvas.now).height id
        (pixels_of (V.board canvas.now) id) row)
        (below (tiles_along (V.board canvas.now).width))) }
{
    for col in 0..tiles_along(canvas.width()) {
        put_tile(canvas, id, row, col, tile, commands)?;
    }
    Ok(())
}

/// Adds a tile of a paint layer, if it isn't clear.
fn put_tile<V: BoardView>(
    canvas: &V,
    id: u16,
    row: u32,
    col: u32,
    tile: &mut [Pixel],
    commands: &mut Commands,
) -> Result<(), AllocError>
    requires paint { is_paint_row (layers_of (V.board canvas.now).rows) id ≡ true }
    requires inside { (row < 64) × (col < 64) }
    requires whole { length tile.old ≡ 4096 }
    ensures { OnOk result (commands.new ≡ commands.old
        ++ put_of_tile (V.board canvas.now).width (V.board canvas.now).height id
        (pixels_of (V.board canvas.now) id) row col) }
{
    read_tile(canvas, id, col, row, tile);
    let (cols, rows) = (
        shown_of(canvas.width(), col),
        shown_of(canvas.height(), row),
    );
    match tile_content(commands.allocator(), cols, rows, tile)? {
        None => Ok(()),
        Some(content) => commands.push(Draw::PutTile {
            layer: id,
            col: col as u16,
            row: row as u16,
            repeat: 0,
            content,
        }),
    }
}
