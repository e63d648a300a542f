//! What is done to tiles.

ghost use Rattle.std.specs.Prelude.{◌≡◌, ◌<◌, ◌≤◌, ℕ, List, length, Some};
ghost use Rattle.dp_blend.specs.Color.{Channels};
ghost use Rattle.dp_tile.specs.Painters.{KnownChange};

use dp_blend::Pixel;

/// What is known of a change of a tile before it is done.
#[derive(Clone, Copy)]
pub enum TileChange {
    /// All its pixels stay.
    Stays,
    /// All its pixels become of one colour.
    Becomes(Pixel),
    /// Nothing is known.
    Unknown,
}

/// What is done to the pixels of tiles.
pub trait TilePainter {
    /// The pixels after it, of the tile at a column and a row that has these pixels.
    ghost painted: { Self → ℕ → ℕ → List Channels → List Channels };

    ghost keeps_count: { (painter : Self) (col row : ℕ) (pixels : List Channels)
        → length pixels ≡ 4096 → length (painted painter col row pixels) ≡ 4096 };

    /// What it does to the tile at a column and a row, as far as that is known. It goes by the
    /// colour of all the tile's pixels, if they have one.
    fn change(&self, col: u32, row: u32, color: Option<Pixel>) -> TileChange
        requires col { col < 64 }
        requires row { row < 64 }
        ensures { KnownChange result color (painted self.now col row) };

    /// What it does to each tile of a row of tiles, from the column `left` on before `right`. It
    /// says what is known if all their pixels are of this colour.
    fn change_row(&self, row: u32, left: u32, right: u32, color: Pixel) -> TileChange
        requires row { row < 64 }
        requires order { left < right }
        requires cols { right ≤ 64 }
        ensures { (col : ℕ) → left ≤ col → col < right
            → KnownChange result (Some color) (painted self.now col row) }
    {
        let _ = (row, left, right, color);
        TileChange::Unknown
    }

    /// Paints the pixels of the tile at a column and a row.
    fn paint(&self, col: u32, row: u32, pixels: &mut [Pixel])
        requires col { col < 64 }
        requires row { row < 64 }
        requires count { length pixels.old ≡ 4096 }
        ensures { pixels.new ≡ painted self.now col row pixels.old };
}
