//! Commands that are drawn on a region.

ghost use Rattle.std.specs.Prelude.{◌≤◌, ◌*◌, pos, length};
ghost use Rattle.dp_pixels.specs.Dabs.{placed_dabs};
ghost use Rattle.dp_pixels.specs.Tiles.{tile_changed};
ghost use Rattle.dp_pixels.specs.Commands.{filled, imaged, pixel_drawn, stroked};
ghost use Rattle.dp_pixels.specs.Regions.{IsPainted, on_canvas};

use crate::dabs::{DabRun, NearDab, PlacedDab};
use crate::fill::Fill;
use crate::image::{Image, ImageFill};
use crate::paint::paint_region;
use crate::place::{dabs_of, rect_of};
use crate::rect::Rect;
use crate::region::Region;
use crate::stroke::{Brush, draw_dab};
use crate::tiles::{TileRun, tiles_along};
use dp_blend::{Mode, Pixel, of_argb};
use dp_msg_draw::{Draw, TileContent};

/// Fills a rectangle, by the number of the mode.
fn fill_region(
    mode: u8,
    area: Rect,
    color: u32,
    region: &Region,
    stride: usize,
    pixels: &mut [Pixel],
)
    requires wide { region.now.width ≤ stride }
    requires long { region.now.height * stride ≤ length pixels.old }
    ensures { IsPainted region.now stride (on_canvas region.now (filled mode area color))
        pixels.old pixels.new }
{
    if let Some(mode) = Mode::from_u8(mode) {
        let source = of_argb(color);
        let fill = Fill { area, mode, source };
        paint_region(&fill, region, stride, pixels);
    }
}

/// Puts an image, by the number of the mode.
fn image_region(mode: u8, image: Image, region: &Region, stride: usize, pixels: &mut [Pixel])
    requires wide { region.now.width ≤ stride }
    requires long { region.now.height * stride ≤ length pixels.old }
    ensures { IsPainted region.now stride
        (on_canvas region.now
        (imaged mode (pos image.entry.x) (pos image.entry.y) image.entry.w image.entry.h
        image.entry.colors.now))
        pixels.old pixels.new }
{
    if let Some(mode) = Mode::from_u8(mode) {
        paint_region(&ImageFill { mode, image }, region, stride, pixels);
    }
}

/// Draws dabs one after the other, by the number of their mode.
fn dab_run_region(
    number: u8,
    color: Pixel,
    run: DabRun,
    region: &Region,
    stride: usize,
    pixels: &mut [Pixel],
)
    requires wide { region.now.width ≤ stride }
    requires long { region.now.height * stride ≤ length pixels.old }
    ensures { IsPainted region.now stride
        (on_canvas region.now
        (stroked number color run.entry.shape
        (placed_dabs run.entry.at.x run.entry.at.y run.entry.dabs.now)))
        pixels.old pixels.new }
{
    let Some(mode) = Mode::from_u8(number) else {
        return;
    };
    let brush = Brush {
        shape: run.shape,
        mode,
        color,
    };
    let mut last = run.at;
    for dab in run.dabs {
        let placed = PlacedDab::placed_after(last, *dab);
        draw_dab(&brush, NearDab { dab: placed }, region, stride, pixels);
        last = placed.at;
    }
}

/// Puts tiles, as far as they are on the canvas.
fn tile_region(
    col: u16,
    row: u16,
    repeat: u16,
    content: &TileContent,
    region: &Region,
    stride: usize,
    pixels: &mut [Pixel],
)
    requires wide { region.now.width ≤ stride }
    requires long { region.now.height * stride ≤ length pixels.old }
    ensures { IsPainted region.now stride
        (on_canvas region.now
        (tile_changed region.now.canvas_width region.now.canvas_height col row repeat content.now))
        pixels.old pixels.new }
{
    let (width, height) = (region.canvas_width, region.canvas_height);
    if (col as u32) < tiles_along(width) && (row as u32) < tiles_along(height) {
        let run = TileRun {
            width,
            height,
            col,
            row,
            repeat,
            content,
        };
        paint_region(&run, region, stride, pixels);
    }
}

/// Draws a command other than MoveRect on a region, in a list of pixels whose rows are `stride`
/// long. The pixels of the region that are on the canvas change, and all others stay. A command
/// that is no pixel command, and MoveRect, changes none. It takes no memory.
pub fn draw_region(command: &Draw, region: &Region, stride: usize, pixels: &mut [Pixel])
    requires wide { region.now.width ≤ stride }
    requires long { region.now.height * stride ≤ length pixels.old }
    ensures { IsPainted region.now stride
        (pixel_drawn region.now.canvas_width region.now.canvas_height command.now)
        pixels.old pixels.new }
{
    match command {
        Draw::FillRect {
            mode,
            x,
            y,
            w,
            h,
            color,
            ..
        } => {
            let area = rect_of(*x, *y, *w, *h);
            fill_region(*mode, area, *color, region, stride, pixels);
        }
        Draw::PutImage {
            mode,
            x,
            y,
            w,
            h,
            colors,
            ..
        } => {
            let image = Image::new(*x, *y, *w, *h, colors.as_slice());
            image_region(*mode, image, region, stride, pixels);
        }
        Draw::PutTile {
            col,
            row,
            repeat,
            content,
            ..
        } => tile_region(*col, *row, *repeat, content, region, stride, pixels),
        Draw::DabsRound { .. } | Draw::DabsSquare { .. } => {
            let dabs = dabs_of(command);
            dab_run_region(dabs.mode, dabs.color, dabs.run, region, stride, pixels);
        }
        _ => {}
    }
}
