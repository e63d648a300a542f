//! Tiles of one pixel that are put on a canvas.

ghost use Rattle.std.specs.Prelude.{◌≡◌, ℕ, ◌+◌, ◌*◌, ◌<◌, ◌≤◌, true, IfSome, Option};
ghost use Rattle.std.specs.Option.{option_map_or};
ghost use Rattle.dp_blend.specs.Color.{Channels};
ghost use Rattle.dp_pixels.specs.Tiles.{content_at, is_in_tiles, replaced_by};
ghost use Rattle.dp_tile.specs.Painters.{KnownChange};
ghost use Rattle.dp_ops.specs.Drawn.{tile_drawn};
ghost use Rattle.dp_ops.specs.Puts.{put_of};

use dp_blend::Pixel;
use dp_msg_draw::TileContent;
use dp_pixels::tiles_along;
use dp_tile::TileChange;

/// The tiles of a PutTile: the one at a column and a row of a canvas of these sides, and `repeat`
/// further ones.
#[derive(Clone, Copy)]
pub(crate) struct TileRun {
    pub layer: u16,
    pub width: u32,
    pub height: u32,
    pub col: u16,
    pub row: u16,
    pub repeat: u16,
}

/// The pixel of a content that is one pixel.
fn solid(content: &TileContent) -> Option<Pixel>
    ensures { IfSome result (λ color. (x y : ℕ) (old : Channels)
        → option_map_or (λ p. replaced_by p old) (content_at content.now x y) old ≡ color) }
{
    match content {
        TileContent::Solid(p) => Pixel::new(p.r, p.g, p.b, p.a),
        TileContent::Pixels(_) => None,
    }
}

impl TileRun {
    /// Whether the tile at a column and a row is among them.
    fn has(self, col: u32, row: u32) -> bool
        requires col { col < 64 }
        requires row { row < 64 }
        ensures { result ≡ is_in_tiles self.width self.height self.col self.row self.repeat
            (col * 64) (row * 64) }
    {
        let (cols, rows) = (tiles_along(self.width), tiles_along(self.height));
        let first = self.row as u64 * cols as u64 + self.col as u64;
        let number = row as u64 * cols as u64 + col as u64;
        (self.col as u32) < cols
            && (self.row as u32) < rows
            && first <= number
            && number <= first + self.repeat as u64
    }

    /// Whether all of the tile at a column and a row is on the canvas.
    fn is_on_canvas(self, col: u32, row: u32) -> bool
        requires col { col < 64 }
        requires row { row < 64 }
        ensures { result ≡ true → (col * 64 + 64 ≤ self.width) × (row * 64 + 64 ≤ self.height) }
    {
        (col + 1) * 64 <= self.width && (row + 1) * 64 <= self.height
    }

    /// Whether the tiles of a row from one column to another are all among them, and all of each is
    /// on the canvas.
    fn has_all(self, row: u32, left: u32, last: u32) -> bool
        requires row { row < 64 }
        requires order { left ≤ last }
        requires cols { last < 64 }
        ensures { result ≡ true → (col : ℕ) → left ≤ col → col ≤ last
            → (is_in_tiles self.width self.height self.col self.row self.repeat (col * 64)
            (row * 64) ≡ true) × (col * 64 + 64 ≤ self.width) × (row * 64 + 64 ≤ self.height) }
    {
        if !self.has(left, row) {
            return false;
        }
        if !self.is_on_canvas(last, row) {
            return false;
        }
        self.has(last, row)
    }

    /// What the command does to each tile of a row, from the column `left` on before `right`,
    /// whatever their pixels are.
    pub(crate) fn change(self, content: &TileContent, row: u32, left: u32, right: u32) -> TileChange
        requires row { row < 64 }
        requires order { left < right }
        requires cols { right ≤ 64 }
        ensures { (color : Option Channels) (col : ℕ) → left ≤ col → col < right
            → KnownChange result color
            (tile_drawn self.width self.height (put_of self content.now) col row) }
    {
        let last = right - 1;
        if left == last && !self.has(left, row) {
            return TileChange::Stays;
        }
        if !self.has_all(row, left, last) {
            return TileChange::Unknown;
        }
        match solid(content) {
            Some(p) => TileChange::Becomes(p),
            None => TileChange::Unknown,
        }
    }
}
