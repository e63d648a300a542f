//! The layers of a canvas that gets new sides.

ghost use Rattle.std.specs.Prelude.{◌≡◌, ◌*◌, ◌≤◌, ℤ, ◌++◌, length, IfOk, OnOk};
ghost use Rattle.dp_pixels.specs.Commands.{pixel_of};
ghost use Rattle.dp_layered.specs.Moves.{pixel_in_row, row_moved};
ghost use Rattle.dp_pixels.specs.Resizes.{pixels_resized};

use dp_blend::Pixel;
use dp_pixels::Resize;
use std::alloc::{AllocError, Global};

/// The pixel at a place of a row, clear outside it.
#[inline]
fn pixel_in_row(row: &[Pixel], x: i64) -> Pixel
    ensures { result ≡ pixel_in_row row.now x }
{
    if x >= 0 && (x as usize) < row.len() {
        row[x as usize]
    } else {
        Pixel::CLEAR
    }
}

/// A row of the canvas, empty above and below it.
fn row_at(pixels: &[Pixel], width: usize, height: usize, y: i64) -> &[Pixel]
    requires { length pixels.now ≡ width * height }
    ensures { (x : ℤ) → pixel_in_row result.now x ≡ pixel_of width height pixels.now x y }
{
    if y >= 0 && (y as usize) < height {
        let start = y as usize * width;
        &pixels[start..start + width]
    } else {
        &[]
    }
}

/// Adds a row of this width, on which each pixel x of the old row stands at x + left. The rest is
/// clear.
fn push_moved_row(
    moved: &mut Vec<Pixel>,
    row: &[Pixel],
    width: usize,
    left: i32,
) -> Result<(), AllocError>
    requires { width ≤ 4096 }
    ensures { OnOk result (moved.new.items ≡ moved.old.items ++ row_moved width row.now left) }
{
    for x in 0..width {
        moved.push(pixel_in_row(row, x as i64 - left as i64))?;
    }
    Ok(())
}

/// The pixels on the new canvas.
pub(crate) fn moved_pixels(
    alloc: Global,
    pixels: &[Pixel],
    resize: Resize,
) -> Result<Vec<Pixel>, AllocError>
    requires { length pixels.now ≡ resize.width * resize.height }
    ensures { IfOk result (λ moved. moved.items ≡ pixels_resized resize pixels.now) }
{
    let mut moved = Vec::with_capacity(alloc, resize.new_width * resize.new_height)?;
    for y in 0..resize.new_height {
        let row = row_at(
            pixels,
            resize.width,
            resize.height,
            y as i64 - resize.top as i64,
        );
        push_moved_row(&mut moved, row, resize.new_width, resize.left)?;
    }
    Ok(moved)
}
