//! Tiles that are made row by row, of pixels at any places.

ghost use Rattle.std.specs.Prelude.{◌≡◌, ◌<◌, ◌≤◌, ◌^◌, length, unsigned_abs};
ghost use Rattle.dp_tile.specs.Painters.{KnownChange};
ghost use Rattle.dp_shift.specs.Reading.{row_from, tile_from};

use dp_blend::Pixel;
use dp_tile::{SIDE, TileChange, TilePainter};

/// Pixels at all places.
pub(crate) trait RowSource {
    ghost use Rattle.std.specs.Prelude.{ℤ, ℕ};
    ghost use Rattle.dp_blend.specs.Color.{Channels};
    ghost use Rattle.dp_tile.specs.Painters.{KnownChange};
    ghost use Rattle.dp_shift.specs.Reading.{row_from, tile_from};

    /// The pixel at a place.
    ghost pixel: { Self → ℤ → ℤ → Channels };

    /// Puts the pixels of a row that begin at a place.
    fn put_row(&self, x: i64, y: i64, row: &mut [Pixel])
        requires x { unsigned_abs x < 2 ^ 32 }
        requires y { unsigned_abs y < 2 ^ 32 }
        requires len { length row.old ≤ 64 }
        ensures { row.new ≡ row_from (pixel self.now) x y (length row.old) };

    /// What becomes of the tile at a column and a row whose pixels are of this colour, if they are
    /// of one.
    fn change(&self, col: u32, row: u32, color: Option<Pixel>) -> TileChange
        requires col { col < 64 }
        requires row { row < 64 }
        ensures { KnownChange result color (λ _. tile_from (pixel self.now) col row) };
}

/// Paints tiles with pixels at all places.
#[derive(Drop)]
pub(crate) struct RowPainter<'a, S> {
    pub source: &'a S,
}

impl<S: RowSource> TilePainter for RowPainter<'_, S> {
    ghost use Rattle.dp_shift.specs.Reading.{length-tile_from, tile_from};

    ghost painted = { λ p col row _. tile_from (S.pixel p.source.now) col row };

    ghost keeps_count = { λ p col row _ _. length-tile_from (S.pixel p.source.now) col row };

    fn change(&self, col: u32, row: u32, color: Option<Pixel>) -> TileChange {
        self.source.change(col, row, color)
    }

    fn paint(&self, col: u32, row: u32, pixels: &mut [Pixel]) {
        let (left, top) = (col as i64 * 64, row as i64 * 64);
        for j in 0..SIDE {
            let start = j * SIDE;
            self.source
                .put_row(left, top + j as i64, &mut pixels[start..start + SIDE]);
        }
    }
}
