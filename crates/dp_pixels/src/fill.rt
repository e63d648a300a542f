//! Rectangles that are filled.

ghost use Rattle.std.specs.Prelude.{if◌then◌else◌};
ghost use Rattle.dp_blend.specs.Blending.{blend};
ghost use Rattle.dp_pixels.specs.Rectangles.{is_in};

use crate::paint::Paint;
use crate::rect::{Place, Rect};
use dp_blend::{Mode, Pixel, row_fill};

/// A source, blended with each pixel of a rectangle.
#[derive(Clone, Copy)]
pub(crate) struct Fill {
    pub area: Rect,
    pub mode: Mode,
    pub source: Pixel,
}

impl Paint for Fill {
    ghost bounds = { λ f. f.area };

    ghost change = { λ f x y old. if is_in f.area x y then blend f.mode f.source old else old };

    fn bounds(&self) -> Rect {
        self.area
    }

    fn paint_row(&self, _place: Place, row: &mut [Pixel]) {
        row_fill(self.mode, self.source, row);
    }
}
