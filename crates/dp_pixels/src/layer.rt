//! Commands that are drawn on all pixels of a layer.

ghost use Rattle.std.specs.Prelude.{◌≡◌, ◌*◌, ◌<◌, ℕ, List, false, length, IsOk, OnErr, OnOk};
ghost use Rattle.dp_blend.specs.Color.{Channels};
ghost use Rattle.dp_blend.specs.Canvas.{canvas_of, pixel_at};
ghost use Rattle.dp_pixels.specs.Commands.{is_move, pixels_after, pixels_drawn};

use crate::draw::draw_region;
use crate::move_rect::{Move, move_pixels};
use crate::region::Region;
use dp_blend::{
    Pixel, equal_canvases, equal_pixels_at_each_place, length_of_canvas, pixel_of_canvas,
};
use dp_msg_draw::Draw;
use std::alloc::{AllocError, Global};

/// A list of a canvas's length that has a pixel of f at each place is the canvas of f.
pub(crate) fn canvas_law()
    ensures { (width height : ℕ) (f : ℕ → ℕ → Channels) (pixels : List Channels)
        → length pixels ≡ width * height
        → ((x y : ℕ) → x < width → y < height → pixel_at width pixels x y ≡ f x y)
        → pixels ≡ canvas_of width height f }
{
    length_of_canvas();
    pixel_of_canvas();
    equal_pixels_at_each_place();
}

/// The region that is the whole canvas.
pub(crate) fn whole(width: u32, height: u32) -> Region
    ensures { result ≡ record {
      x = 0;
      y = 0;
      width = width;
      height = height;
      canvas_width = width;
      canvas_height = height;
    } }
{
    Region {
        x: 0,
        y: 0,
        width,
        height,
        canvas_width: width,
        canvas_height: height,
    }
}

/// Draws a command other than MoveRect on a whole canvas.
fn draw_whole(command: &Draw, width: u32, height: u32, pixels: &mut [Pixel])
    requires { length pixels.old ≡ width * height }
    ensures { pixels.new ≡ pixels_drawn width height command.now pixels.old }
{
    canvas_law();
    draw_region(command, &whole(width, height), width as usize, pixels);
}

/// Draws a command on the pixels of a layer, row by row. A command that is no pixel command leaves
/// them.
///
/// # Errors
///
/// The pixels are as they were. MoveRect alone takes memory.
pub fn draw_pixels(
    alloc: Global,
    command: &Draw,
    width: u32,
    height: u32,
    pixels: &mut [Pixel],
) -> Result<(), AllocError>
    requires { length pixels.old ≡ width * height }
    ensures ok { OnOk result (pixels.new ≡ pixels_after width height command.now pixels.old) }
    ensures err { OnErr result (pixels.new ≡ pixels.old) }
    ensures memory { is_move command.now ≡ false → IsOk result }
{
    equal_canvases();
    match command {
        Draw::MoveRect {
            sx,
            sy,
            w,
            h,
            tx,
            ty,
            ..
        } => {
            let movement = Move {
                sx: *sx,
                sy: *sy,
                w: *w,
                h: *h,
                tx: *tx,
                ty: *ty,
            };
            move_pixels(alloc, movement, width, height, pixels)
        }
        _ => {
            draw_whole(command, width, height, pixels);
            Ok(())
        }
    }
}
