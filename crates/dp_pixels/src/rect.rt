//! Places, and rectangles of them.

ghost use Rattle.std.specs.Prelude.{◌≡◌, ◌^◌, pos, ◌+ℤ◌, ◌-ℤ◌, ◌≤ℤ◌, int_lt};
ghost use Rattle.std.specs.Int.{int_max, int_min};
ghost use Rattle.dp_pixels.specs.Feet.{on_greatest};
ghost use Rattle.dp_pixels.specs.Rectangles.{canvas_rect, clipped, is_in, joined, rect_at};
ghost use Rattle.dp_pixels.specs.Rectangles.{share_place};
ghost use Rattle.dp_pixels.specs.Near.{IsPlaceNear};

/// The greatest length of a side, in pixels.
const MAX_SIDE: i64 = 4096;

/// A place of the canvas, or past its sides.
#[derive(Clone, Copy, Debug, PartialEq, Eq)]
pub struct Place {
    /// How far it is from the left.
    pub x: i64,
    /// How far it is from the top.
    pub y: i64,
}

/// A rectangle of places: those from `x0` on before `x1`, and from `y0` on before `y1`.
#[derive(Clone, Copy, PartialEq, Eq)]
pub struct Rect {
    pub x0: i64,
    pub y0: i64,
    pub x1: i64,
    pub y1: i64,
}

/// Whether the numbers from one on before another have one in common with those of a second range.
#[inline]
fn overlap(from: i64, to: i64, other_from: i64, other_to: i64) -> bool
    ensures { result ≡ int_lt (int_max from other_from) (int_min to other_to) }
{
    from.max(other_from) < to.min(other_to)
}

impl Rect {
    /// The rectangle with its left upper corner at a place, w wide and h high.
    #[inline]
    pub(crate) fn at(corner: Place, w: u32, h: u32) -> Rect
        requires { IsPlaceNear (2 ^ 40) corner }
        ensures { result ≡ rect_at corner.x corner.y w h }
    {
        Rect {
            x0: corner.x,
            y0: corner.y,
            x1: corner.x + w as i64,
            y1: corner.y + h as i64,
        }
    }

    /// The places of a canvas.
    pub fn canvas(width: u32, height: u32) -> Rect
        ensures { result ≡ canvas_rect width height }
    {
        Rect {
            x0: 0,
            y0: 0,
            x1: width as i64,
            y1: height as i64,
        }
    }

    /// Whether a place is in the rectangle.
    pub(crate) fn contains(self, place: Place) -> bool
        ensures { result ≡ is_in self place.x place.y }
    {
        self.x0 <= place.x && place.x < self.x1 && self.y0 <= place.y && place.y < self.y1
    }

    /// How far a place is right of the left upper corner, and how far below it.
    pub(crate) fn offset(self, place: Place) -> (usize, usize)
        requires right { self.x0 ≤ℤ place.x }
        requires below { self.y0 ≤ℤ place.y }
        requires near_x { place.x ≤ℤ (self.x0 +ℤ pos (2 ^ 40)) }
        requires near_y { place.y ≤ℤ (self.y0 +ℤ pos (2 ^ 40)) }
        ensures columns { pos result.0 ≡ place.x -ℤ self.x0 }
        ensures rows { pos result.1 ≡ place.y -ℤ self.y0 }
    {
        ((place.x - self.x0) as usize, (place.y - self.y0) as usize)
    }

    /// The least rectangle that has the places of both.
    pub(crate) fn joined(self, other: Rect) -> Rect
        ensures { result ≡ joined self other }
    {
        Rect {
            x0: self.x0.min(other.x0),
            y0: self.y0.min(other.y0),
            x1: self.x1.max(other.x1),
            y1: self.y1.max(other.y1),
        }
    }

    /// The places that are in both rectangles.
    pub fn clipped(self, other: Rect) -> Rect
        ensures { result ≡ clipped self other }
    {
        Rect {
            x0: self.x0.max(other.x0),
            y0: self.y0.max(other.y0),
            x1: self.x1.min(other.x1),
            y1: self.y1.min(other.y1),
        }
    }

    /// Whether some place is in both rectangles.
    #[inline]
    pub(crate) fn shares_place(self, other: Rect) -> bool
        ensures { result ≡ share_place self other }
    {
        overlap(self.x0, self.x1, other.x0, other.x1)
            && overlap(self.y0, self.y1, other.y0, other.y1)
    }

    /// The places that are on the greatest canvas.
    #[inline]
    pub fn on_greatest(self) -> Rect
        ensures { result ≡ on_greatest self }
    {
        Rect {
            x0: self.x0.clamp(0, MAX_SIDE),
            y0: self.y0.clamp(0, MAX_SIDE),
            x1: self.x1.clamp(0, MAX_SIDE),
            y1: self.y1.clamp(0, MAX_SIDE),
        }
    }
}
