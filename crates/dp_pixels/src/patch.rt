//! A rectangle of pixels that is blended at another place.

ghost use Rattle.std.specs.Prelude.{◌≡◌, ◌≤◌, ◌+◌, ◌*◌, ◌^◌, length, slice_index_or, if◌then◌else◌};
ghost use Rattle.dp_blend.specs.Color.{clear};
ghost use Rattle.dp_blend.specs.Blending.{blend};
ghost use Rattle.dp_blend.specs.declared.modes.Mode.{Mode as BlendMode};
ghost use Rattle.dp_pixels.specs.Near.{IsPlaceNear};
ghost use Rattle.dp_pixels.specs.Rectangles.{is_in, rect_at};
ghost use Rattle.dp_pixels.specs.Commands.{image_index};

use crate::paint::Paint;
use crate::rect::{Place, Rect};
use dp_blend::{Mode, ONE, Pixel, row_merge};

/// Pixels that are blended normal: the left upper corner, the sides, and the pixels, row by row.
#[derive(Clone, Copy)]
pub(crate) struct Patch<'a> {
    pub corner: Place,
    pub w: u32,
    pub h: u32,
    pub pixels: &'a [Pixel],
    ghost near: { IsPlaceNear (2 ^ 32) corner },
    ghost whole: { length pixels.now ≡ w * h },
}

impl Patch<'_> {
    ghost use Rattle.dp_pixels.specs.Regions.{IsRowIn};

    /// The index of the first pixel of a row of `len` pixels.
    fn start(&self, place: Place, len: usize) -> usize
        requires { IsRowIn
            (rect_at self.now.corner.x self.now.corner.y self.now.w self.now.h) place len }
        ensures value { result
            ≡ image_index self.now.corner.x self.now.corner.y self.now.w place.x place.y }
        ensures within { result + len ≤ length self.now.pixels.now }
    {
        let (w, h) = (self.w, self.h);
        let (i, j) = Rect::at(self.corner, w, h).offset(place);
        j * w as usize + i
    }
}

impl Paint for Patch<'_> {
    ghost bounds = { λ p. rect_at p.corner.x p.corner.y p.w p.h };

    ghost change = { λ p x y old.
        if is_in (rect_at p.corner.x p.corner.y p.w p.h) x y
        then blend BlendMode.Normal
        (slice_index_or p.pixels.now (image_index p.corner.x p.corner.y p.w x y) clear) old
        else old };

    fn bounds(&self) -> Rect {
        Rect::at(self.corner, self.w, self.h)
    }

    fn paint_row(&self, place: Place, row: &mut [Pixel]) {
        let pixels = self.pixels;
        let start = self.start(place, row.len());
        row_merge(Mode::Normal, ONE, &pixels[start..start + row.len()], row);
    }
}
