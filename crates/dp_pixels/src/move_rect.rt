//! Rectangles that move.

ghost use Rattle.std.specs.Prelude.{◌≡◌, ◌≤◌, ◌<◌, ◌+◌, ◌*◌, ℕ, length, slice_index_or};
ghost use Rattle.std.specs.Prelude.{IfOk, OnErr, OnOk};
ghost use Rattle.dp_blend.specs.Color.{Channels};
ghost use Rattle.dp_pixels.specs.Commands.{pixels_moved};

use crate::fill::Fill;
use crate::layer::{canvas_law, whole};
use crate::paint::paint_region;
use crate::patch::Patch;
use crate::place::rect_of;
use crate::rect::Place;
use dp_blend::{Mode, Pixel};
use std::alloc::{AllocError, Global};

/// A rectangle that moves: the corner and the sides of its source, and the corner of its target.
#[derive(Clone, Copy)]
pub(crate) struct Move {
    pub sx: u32,
    pub sy: u32,
    pub w: u32,
    pub h: u32,
    pub tx: i32,
    pub ty: i32,
}

/// A rectangle of a canvas: its corner and its sides.
#[derive(Clone, Copy)]
struct Source {
    x: u32,
    y: u32,
    w: u32,
    h: u32,
}

/// The pixels of a rectangle of a canvas of this width, row by row.
fn copy_source(
    alloc: Global,
    pixels: &[Pixel],
    width: u32,
    source: Source,
) -> Result<Vec<Pixel>, AllocError>
    requires columns { source.x + source.w ≤ width }
    requires rows { (source.y + source.h) * width ≤ length pixels.now }
    ensures len { IfOk result (λ v. length v.items ≡ source.w * source.h) }
    ensures places { IfOk result (λ v. (i j : ℕ) (d : Channels) → i < source.w → j < source.h →
        slice_index_or v.items (j * source.w + i) d
        ≡ slice_index_or pixels.now ((source.y + j) * width + (source.x + i)) d) }
{
    let (x, y) = (source.x as usize, source.y as usize);
    let (w, h) = (source.w as usize, source.h as usize);
    let mut copied = Vec::new(alloc);
    for j in 0..h {
        let start = (y + j) * width as usize + x;
        copied.extend_from_slice(&pixels[start..start + w])?;
    }
    Ok(copied)
}

/// Moves the rectangle: its source becomes clear, and the pixels that were there are blended normal
/// at the target.
///
/// # Errors
///
/// The pixels are as they were.
pub(crate) fn move_pixels(
    alloc: Global,
    movement: Move,
    width: u32,
    height: u32,
    pixels: &mut [Pixel],
) -> Result<(), AllocError>
    requires { length pixels.old ≡ width * height }
    ensures ok { OnOk result
        (pixels.new
        ≡ pixels_moved width height movement.sx movement.sy movement.w movement.h movement.tx
        movement.ty pixels.old) }
    ensures err { OnErr result (pixels.new ≡ pixels.old) }
{
    canvas_law();
    let Move { sx, sy, tx, ty, .. } = movement;
    let w = movement.w.min(width.saturating_sub(sx));
    let h = movement.h.min(height.saturating_sub(sy));
    if w == 0 || h == 0 {
        return Ok(());
    }
    let source = Source { x: sx, y: sy, w, h };
    let copied = copy_source(alloc, pixels, width, source)?;
    let (stride, region) = (width as usize, whole(width, height));
    let clearing = Fill {
        area: rect_of(sx, sy, w, h),
        mode: Mode::Replace,
        source: Pixel::CLEAR,
    };
    paint_region(&clearing, &region, stride, pixels);
    let patch = Patch {
        corner: Place {
            x: tx as i64,
            y: ty as i64,
        },
        w,
        h,
        pixels: &copied,
    };
    paint_region(&patch, &region, stride, pixels);
    Ok(())
}
