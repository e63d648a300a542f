//! What a command or a dab does to the rows of a region.

ghost use Rattle.std.specs.Prelude.{◌≡◌, ◌≤◌, ◌<◌, ◌*◌, ℕ, ℤ, pos, ◌+ℤ◌, false, length};
ghost use Rattle.std.specs.Prelude.{slice_index_or};
ghost use Rattle.dp_blend.specs.Color.{Channels};
ghost use Rattle.dp_pixels.specs.declared.rect.Rect.{Rect as Area};
ghost use Rattle.dp_pixels.specs.Rectangles.{is_in};
ghost use Rattle.dp_pixels.specs.Regions.{IsPainted, IsRowIn, on_canvas};

use crate::rect::{Place, Rect};
use crate::region::Region;
use dp_blend::Pixel;

/// A change of pixels, each by its place and by the old pixel there.
pub(crate) trait Paint {
    ghost bounds: { Self → Area };

    ghost change: { Self → ℤ → ℤ → Channels → Channels };

    /// A rectangle outside of which no pixel changes.
    fn bounds(&self) -> Rect
        ensures value { result ≡ bounds self.now }
        ensures stays { (x y : ℤ) (old : Channels) →
            is_in result x y ≡ false → change self.now x y old ≡ old };

    /// Changes the pixels of a row, which begins at a place.
    fn paint_row(&self, place: Place, row: &mut [Pixel])
        requires { IsRowIn (bounds self.now) place (length row.old) }
        ensures { (k : ℕ) (d : Channels) → k < length row.old →
            slice_index_or row.new k d
            ≡ change self.now (place.x +ℤ pos k) place.y (slice_index_or row.old k d) };
}

/// Changes the pixels of a region that are on its canvas, in a list whose rows are `stride` long.
pub(crate) fn paint_region<P: Paint>(
    paint: &P,
    region: &Region,
    stride: usize,
    pixels: &mut [Pixel],
)
    requires wide { region.now.width ≤ stride }
    requires long { region.now.height * stride ≤ length pixels.old }
    ensures { IsPainted region.now stride (on_canvas region.now (P.change paint.now))
        pixels.old pixels.new }
{
    let clip = region.clip(paint.bounds());
    if clip.left >= clip.right {
        return;
    }
    for j in clip.top..clip.bottom {
        let place = Place {
            x: region.x as i64 + clip.left as i64,
            y: region.y as i64 + j as i64,
        };
        let start = j * stride;
        paint.paint_row(place, &mut pixels[start + clip.left..start + clip.right]);
    }
}
