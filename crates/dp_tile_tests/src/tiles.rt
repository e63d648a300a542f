//! Grids that share their tiles until they are written to.

ghost use Rattle.std.specs.Prelude.{◌≡◌, ◌<◌, slice_set};
ghost use Rattle.std.proofs.Common.{◌∙◌};
ghost use Rattle.std.proofs.lemmas.List.{length-set};
ghost use Rattle.dp_blend.specs.Color.{white};

use dp_blend::Pixel;
use dp_steps::Steps;
use dp_tile::{CellArea, Grid, Tile, TileChange, TilePainter};
use std::alloc::Global;
use std::marker::Brand;
use std::process::Abort;
use std::sync::ledger::{Blank, Ledger};

/// It makes the first pixel white.
struct FirstWhite {}

impl TilePainter for FirstWhite {
    ghost painted = { λ _ _ _ pixels. slice_set pixels 0 white };

    ghost keeps_count = { λ _ _ _ pixels count. length-set pixels 0 white ∙ count };

    fn change(&self, _col: u32, _row: u32, _color: Option<Pixel>) -> TileChange {
        TileChange::Unknown
    }

    fn paint(&self, _col: u32, _row: u32, pixels: &mut [Pixel]) {
        pixels[0] = Pixel::WHITE;
    }
}

/// Writes a copy of a tile with a white pixel to the right of the lower row.
fn write_copy<T: Ledger>(rt: &impl Abort, alloc: Global, grid: &mut Grid, tiles: &mut Steps<T>) {
    let mut tile = Tile::blank(alloc, tiles).expect(rt, "memory");
    tile.set(5, 7, Pixel::WHITE);
    let copy = tile.copy(alloc, tiles).expect(rt, "memory");
    assert!(rt; grid.cols() == 3 && grid.rows() == 2);
    grid.write(2, 1, copy).expect(rt, "memory");
}

/// Writes a white tile to the left of the lower row.
fn write_white<T: Ledger>(rt: &impl Abort, alloc: Global, grid: &mut Grid, tiles: &mut Steps<T>) {
    let solid = Tile::solid(alloc, Pixel::WHITE, tiles).expect(rt, "memory");
    assert!(rt; grid.cols() == 3 && grid.rows() == 2);
    grid.write(0, 1, solid).expect(rt, "memory");
}

/// Makes the first pixel of the lower row's right tile white.
fn paint_one<T: Ledger>(rt: &impl Abort, grid: &mut Grid, tiles: &mut Steps<T>) {
    assert!(rt; grid.cols() == 3 && grid.rows() == 2);
    grid.paint(2, 1, &FirstWhite {}, tiles).expect(rt, "memory");
}

/// The upper row of a grid.
fn upper_row() -> CellArea
    ensures { result ≡ record {
      left = 0;
      right = 3;
      top = 0;
      bottom = 1;
    } }
{
    CellArea {
        left: 0,
        right: 3,
        top: 0,
        bottom: 1,
    }
}

/// Makes the first pixel of each tile of the upper row white.
fn paint_row<T: Ledger>(rt: &impl Abort, grid: &mut Grid, tiles: &mut Steps<T>) {
    assert!(rt; grid.cols() == 3 && grid.rows() == 2);
    let painted = grid.paint_area(upper_row(), &FirstWhite {}, tiles);
    painted.expect(rt, "memory");
}

/// Makes the first pixel of each tile of the upper row white, tile by tile.
fn paint_each<T: Ledger>(rt: &impl Abort, grid: &mut Grid, tiles: &mut Steps<T>) {
    assert!(rt; grid.cols() == 3 && grid.rows() == 2);
    let painted = grid.paint_each(upper_row(), &FirstWhite {}, tiles);
    painted.expect(rt, "memory");
}

/// A grid has these pixels at (64, 0), (133, 71), (128, 64) and (63, 127).
fn check_pixels(rt: &impl Abort, grid: &Grid, want: [Pixel; 4]) {
    assert!(rt; grid.cols() == 3 && grid.rows() == 2);
    let pixels = [
        grid.get(64, 0),
        grid.get(133, 71),
        grid.get(128, 64),
        grid.get(63, 127),
    ];
    assert!(rt; pixels == want);
}

/// Pixels of a grid and of the one that it was shared from, after both were written to.
fn check_shared<T: Ledger>(rt: &impl Abort, alloc: Global, tiles: &mut Steps<T>) {
    let (clear, white) = (Pixel::CLEAR, Pixel::WHITE);
    let mut grid = Grid::new(alloc, 3, 2).expect(rt, "memory");
    write_copy(rt, alloc, &mut grid, tiles);
    let mut other = grid.share().expect(rt, "memory");
    paint_one(rt, &mut other, tiles);
    write_white(rt, alloc, &mut grid, tiles);
    paint_row(rt, &mut other, tiles);
    paint_each(rt, &mut other, tiles);
    check_pixels(rt, &grid, [clear, white, clear, white]);
    check_pixels(rt, &other, [white, white, white, clear]);
    drop(grid);
    drop(other);
}

/// Looks at grids with a counter over this blank.
fn check_grids<T: Ledger>(rt: &impl Abort, alloc: Global, blank: Blank)
    requires name { blank.name ≡ T.name }
    requires parts { blank.parts ≡ T.parts }
    requires some { 0 < blank.parts }
{
    let mut tiles = Steps::<T>::new(blank);
    check_shared(rt, alloc, &mut tiles);
}

#[test]
fn grids_share_tiles(rt: HostRuntime) {
    check_grids::<Brand>(&rt, rt.alloc(), Blank::new(1));
}
