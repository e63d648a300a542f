//! Round dabs.

ghost use Rattle.std.specs.Prelude.{◌≡◌, ◌≤◌, ◌<◌, ◌+◌, ◌*◌, ◌^◌, ◌↔◌, ℕ, pos, slice_index};
ghost use Rattle.std.specs.Prelude.{if◌then◌else◌, true};
ghost use Rattle.dp_blend.specs.Blending.{blend};
ghost use Rattle.dp_pixels.specs.declared.dabs.Shape.{Shape as DabShape};
ghost use Rattle.dp_pixels.specs.Near.{IsPlaceNear};
ghost use Rattle.dp_pixels.specs.Dabs.{dab_covers, dab_rect, is_in_disc};
ghost use Rattle.dp_pixels.specs.Spans.{IsInSpan};

use crate::dabs::PlacedDab;
use crate::paint::Paint;
use crate::rect::{Place, Rect};
use crate::span::Span;
use dp_blend::{Mode, Pixel, row_fill};

/// The roots of the multiples of 256, rounded down.
static ROOTS: [u8; 256] = [
    0, 16, 22, 27, 32, 35, 39, 42, 45, 48, 50, 53, 55, 57, 59, 61, 64, 65, 67, 69, 71, 73, 75, 76,
    78, 80, 81, 83, 84, 86, 87, 89, 90, 91, 93, 94, 96, 97, 98, 99, 101, 102, 103, 104, 106, 107,
    108, 109, 110, 112, 113, 114, 115, 116, 117, 118, 119, 120, 121, 122, 123, 124, 125, 126, 128,
    128, 129, 130, 131, 132, 133, 134, 135, 136, 137, 138, 139, 140, 141, 142, 143, 144, 144, 145,
    146, 147, 148, 149, 150, 150, 151, 152, 153, 154, 155, 155, 156, 157, 158, 159, 160, 160, 161,
    162, 163, 163, 164, 165, 166, 167, 167, 168, 169, 170, 170, 171, 172, 173, 173, 174, 175, 176,
    176, 177, 178, 178, 179, 180, 181, 181, 182, 183, 183, 184, 185, 185, 186, 187, 187, 188, 189,
    189, 190, 191, 192, 192, 193, 193, 194, 195, 195, 196, 197, 197, 198, 199, 199, 200, 201, 201,
    202, 203, 203, 204, 204, 205, 206, 206, 207, 208, 208, 209, 209, 210, 211, 211, 212, 212, 213,
    214, 214, 215, 215, 216, 217, 217, 218, 218, 219, 219, 220, 221, 221, 222, 222, 223, 224, 224,
    225, 225, 226, 226, 227, 227, 228, 229, 229, 230, 230, 231, 231, 232, 232, 233, 234, 234, 235,
    235, 236, 236, 237, 237, 238, 238, 239, 240, 240, 241, 241, 242, 242, 243, 243, 244, 244, 245,
    245, 246, 246, 247, 247, 248, 248, 249, 249, 250, 250, 251, 251, 252, 252, 253, 253, 254, 254,
    255,
];

/// A number of the table.
#[inline(always)]
fn root_at(k: usize) -> u16
    requires { k < 256 }
    ensures value { result ≡ slice_index ROOTS k }
    ensures few { result < 256 }
{
    ROOTS[k] as u16
}

/// A number whose square is at most this one: the root, rounded down, or a little less.
#[inline(always)]
fn low_root(square: u16) -> u16
    ensures square { result * result ≤ square }
    ensures few { result < 256 }
{
    if square < 4096 {
        root_at(square as usize / 16) / 4
    } else {
        root_at(square as usize / 256)
    }
}

/// The root of a number, rounded down.
#[inline(always)]
fn root(square: u16) -> u16
    ensures square_le { result * result ≤ square }
    ensures next_square_gt { square < (result + 1) * (result + 1) }
{
    let mut root = low_root(square) as u32;
    while (root + 1) * (root + 1) <= square as u32 {
        root += 1;
    }
    root as u16
}

/// The cells of row j of a dab that are in its disc.
fn disc_row(size: u8, j: usize) -> Span
    requires { j < size }
    ensures within { result.end ≤ size }
    ensures cells { (i : ℕ) → i < size →
        (is_in_disc size (pos i) (pos j) ≡ true) ↔ IsInSpan result i }
{
    let down = (2 * j as u16 + 1).abs_diff(size as u16);
    let across = root(size as u16 * size as u16 - down * down);
    let start = ((size as u16 - across) / 2) as usize;
    Span {
        start,
        end: size as usize - start,
    }
}

/// A source, blended with each pixel that a round dab covers.
#[derive(Clone, Copy)]
pub(crate) struct Disc {
    pub dab: PlacedDab,
    pub mode: Mode,
    pub source: Pixel,
    ghost near: { IsPlaceNear (2 ^ 39) dab.at },
}

impl Paint for Disc {
    ghost bounds = { λ p. dab_rect p.dab };

    ghost change = { λ p x y old.
        if dab_covers DabShape.Round p.dab x y then blend p.mode p.source old else old };

    fn bounds(&self) -> Rect {
        self.dab.rect()
    }

    fn paint_row(&self, place: Place, row: &mut [Pixel]) {
        let size = self.dab.size;
        let (from, j) = self.dab.rect().offset(place);
        let cells = disc_row(size, j).part(from, row.len());
        row_fill(self.mode, self.source, &mut row[cells.start..cells.end]);
    }
}
