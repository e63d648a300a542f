//! One pixel of the picture.
//!
//! The rule: docs/protocol.md, "The picture".

ghost use Rattle.std.specs.Prelude.{◌≡◌, ◌<◌};
ghost use Rattle.dp_layers.specs.Rows.{layers_of};
ghost use Rattle.dp_plain.specs.Picture.{compose, row_pixel, seen};
ghost use Rattle.dp_flat.specs.Composed.{shown};

use crate::compose::{LEVELS, is_seen_in};
use crate::tone::mode_of;
use dp_blend::{Mode, Pixel, blend, fade, from8, of_argb};
use dp_layers::LayerRow;
use dp_plain::BoardView;

/// The pixel of the picture at a place of the canvas, x pixels from the left and y from the top. It
/// takes no memory.
pub fn flatten<V: BoardView>(board: &V, x: u32, y: u32) -> Pixel
    requires inside { (x < (V.board board.now).width) × (y < (V.board board.now).height) }
    ensures { result ≡ seen (V.board board.now) x y }
{
    let root = of_argb(board.background());
    let whole = compose_pixel(board, LEVELS, 0, (x, y), root);
    blend(Mode::Normal, whole, Pixel::WHITE)
}

/// The pixel after the rows of the parent that aren't hidden, laid at the place on `start`, going
/// down into groups so deep.
#[cycle(composing)]
fn compose_pixel<V: BoardView>(
    board: &V,
    depth: usize,
    parent: u16,
    place: (u32, u32),
    start: Pixel,
) -> Pixel
    requires wide { place.0 < (V.board board.now).width }
    requires high { place.1 < (V.board board.now).height }
    ensures { result ≡ compose depth (row_pixel (V.board board.now) place.0 place.1)
        (layers_of (V.board board.now).rows) parent start }
{
    if depth == 0 {
        return start;
    }
    let mut under = start;
    for row in board.rows() {
        if is_seen_in(parent, row) {
            let source = show_pixel(board, depth - 1, row, place);
            under = blend(mode_of(row), fade(source, from8(row.opacity)), under);
        }
    }
    under
}

/// What a row of the list shows at the place: a paint row its pixel, and a group what its own rows
/// make from clear.
#[cycle(composing)]
fn show_pixel<V: BoardView>(board: &V, depth: usize, row: &LayerRow, place: (u32, u32)) -> Pixel
    requires wide { place.0 < (V.board board.now).width }
    requires high { place.1 < (V.board board.now).height }
    ensures { result ≡ shown (V.board board.now) depth row.now place.0 place.1 }
{
    if row.group {
        compose_pixel(board, depth, row.id, place, Pixel::CLEAR)
    } else {
        board
            .pixel(row.id, place.0, place.1)
            .unwrap_or(Pixel::CLEAR)
    }
}
