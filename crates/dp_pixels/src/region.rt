//! Windows on a canvas.

ghost use Rattle.dp_pixels.specs.Clips.{IsCountBelow, IsClip};

use crate::rect::Rect;

/// A region on a canvas: the place of its left upper corner, its sides, and the sides of the
/// canvas. It may stick out of the canvas.
#[derive(Clone, Copy, Debug, PartialEq, Eq)]
pub struct Region {
    pub x: u32,
    pub y: u32,
    pub width: u32,
    pub height: u32,
    pub canvas_width: u32,
    pub canvas_height: u32,
}

/// A part of a region: its columns from `left` on before `right`, and its rows from `top` on before
/// `bottom`, counted from the window's corner.
#[derive(Clone, Copy)]
pub(crate) struct Clip {
    pub left: usize,
    pub right: usize,
    pub top: usize,
    pub bottom: usize,
}

impl Region {
    /// The part that is in a rectangle and on the canvas.
    pub(crate) fn clip(&self, bounds: Rect) -> Clip
        ensures { IsClip self.now bounds result }
    {
        let area = bounds.clipped(Rect::canvas(self.canvas_width, self.canvas_height));
        Clip {
            left: count_below(area.x0, self.x, self.width),
            right: count_below(area.x1, self.x, self.width),
            top: count_below(area.y0, self.y, self.height),
            bottom: count_below(area.y1, self.y, self.height),
        }
    }
}

/// How many of `len` numbers, from `from` on, are below a limit.
fn count_below(limit: i64, from: u32, len: u32) -> usize
    ensures { IsCountBelow limit from len result }
{
    let (start, end) = (from as i64, from as i64 + len as i64);
    (limit.clamp(start, end) - start) as usize
}
