//! One place, and what a command makes of the pixel there.

ghost use Rattle.std.specs.Prelude.{◌≡◌, pos, option_map, true};
ghost use Rattle.std.specs.List.{list_any};
ghost use Rattle.dp_blend.specs.Blending.{mode_numbered};
ghost use Rattle.dp_blend.specs.Color.{premultiplied};
ghost use Rattle.dp_pixels.specs.Rectangles.{rect_at};
ghost use Rattle.dp_pixels.specs.Dabs.{dab_covers, placed_dabs};
ghost use Rattle.dp_pixels.specs.Commands.{
  IsDabs,
  covers,
  filled,
  imaged,
  is_stamp,
  pixel_after,
  stroked,
};
ghost use Rattle.dp_pixels.specs.Strokes.{brush_of, dabs_of_command};

use crate::dabs::{DabRun, Shape};
use crate::image::Image;
use crate::rect::{Place, Rect};
use dp_blend::{Mode, Pixel, blend, of_argb};
use dp_msg_draw::{Dabs, Draw};

/// The pixel of an opaque colour.
fn opaque(r: u8, g: u8, b: u8) -> Pixel
    ensures { result ≡ premultiplied r g b 255 }
{
    of_argb(u32::from_be_bytes([255, r, g, b]))
}

/// The rectangle of a fill.
#[inline]
pub(crate) fn rect_of(x: u32, y: u32, w: u32, h: u32) -> Rect
    ensures { result ≡ rect_at (pos x) (pos y) w h }
{
    let corner = Place {
        x: x as i64,
        y: y as i64,
    };
    Rect::at(corner, w, h)
}

/// The dabs of a message.
fn dab_run_of(shape: Shape, x: i32, y: i32, dabs: &Dabs) -> DabRun<'_>
    ensures shape { result.shape ≡ shape }
    ensures x { result.at.x ≡ x }
    ensures y { result.at.y ≡ y }
    ensures dabs { result.dabs.now ≡ dabs.now }
    ensures placed { placed_dabs result.at.x result.at.y result.dabs.now
        ≡ placed_dabs x y dabs.now }
{
    DabRun {
        shape,
        at: Place {
            x: x as i64,
            y: y as i64,
        },
        dabs: dabs.as_slice(),
    }
}

/// The dabs of a message, and how they are drawn.
#[derive(Clone, Copy)]
pub(crate) struct ColoredDabs<'a> {
    /// The number of their mode.
    pub mode: u8,
    pub color: Pixel,
    pub run: DabRun<'a>,
}

/// The dabs of a command.
pub(crate) fn dabs_of(command: &Draw) -> ColoredDabs<'_>
    requires { IsDabs command.now }
    ensures after { pixel_after command.now ≡ stroked result.mode result.color result.run.shape
        (placed_dabs result.run.at.x result.run.at.y result.run.dabs.now) }
    ensures covers { covers command.now ≡ (λ x y.
        list_any (λ dab. dab_covers result.run.shape dab x y)
        (placed_dabs result.run.at.x result.run.at.y result.run.dabs.now)) }
    ensures dabs { dabs_of_command command.now
        ≡ placed_dabs result.run.at.x result.run.at.y result.run.dabs.now }
    ensures brush { brush_of command.now
        ≡ option_map
        (λ mode. record { shape = result.run.shape; mode = mode; color = result.color })
        (mode_numbered result.mode) }
{
    match command {
        Draw::DabsRound {
            x,
            y,
            r,
            g,
            b,
            mode,
            dabs,
            ..
        } => ColoredDabs {
            mode: *mode,
            color: opaque(*r, *g, *b),
            run: dab_run_of(Shape::Round, *x, *y, dabs),
        },
        Draw::DabsSquare {
            x,
            y,
            r,
            g,
            b,
            mode,
            dabs,
            ..
        } => ColoredDabs {
            mode: *mode,
            color: opaque(*r, *g, *b),
            run: dab_run_of(Shape::Square, *x, *y, dabs),
        },
        _ => unreachable!(),
    }
}

/// Whether a fill or an image covers a place, or one of the dabs of a message. It takes no memory.
pub fn covers(command: &Draw, x: i64, y: i64) -> bool
    requires { is_stamp command.now ≡ true }
    ensures { result ≡ covers command.now x y }
{
    let place = Place { x, y };
    match command {
        Draw::FillRect { x, y, w, h, .. } => rect_of(*x, *y, *w, *h).contains(place),
        Draw::PutImage { x, y, w, h, .. } => rect_of(*x, *y, *w, *h).contains(place),
        Draw::DabsRound { .. } | Draw::DabsSquare { .. } => dabs_of(command).run.covers(place),
        _ => false,
    }
}

/// The pixel at a place after a fill, of the number of its mode.
fn filled(mode: u8, area: Rect, color: u32, place: Place, old: Pixel) -> Pixel
    ensures { result ≡ filled mode area color place.x place.y old }
{
    match Mode::from_u8(mode) {
        Some(mode) if area.contains(place) => blend(mode, of_argb(color), old),
        _ => old,
    }
}

/// The pixel at a place after an image, of the number of its mode.
fn imaged(mode: u8, image: Image, place: Place, old: Pixel) -> Pixel
    ensures { result
        ≡ imaged mode (pos image.entry.x) (pos image.entry.y) image.entry.w image.entry.h
        image.entry.colors.now place.x place.y old }
{
    match (Mode::from_u8(mode), image.color(place)) {
        (Some(mode), Some(color)) => blend(mode, of_argb(color), old),
        _ => old,
    }
}

/// The pixel at a place after dabs, of the number of their mode.
fn stroked(mode: u8, source: Pixel, run: DabRun, place: Place, old: Pixel) -> Pixel
    ensures { result
        ≡ stroked mode source run.entry.shape
        (placed_dabs run.entry.at.x run.entry.at.y run.entry.dabs.now)
        place.x place.y old }
{
    match Mode::from_u8(mode) {
        Some(mode) => run.pixel_after(mode, source, place, old),
        None => old,
    }
}

/// The pixel at a place after a fill, an image or dabs, of the old pixel there. It takes no memory.
pub fn pixel_after(command: &Draw, x: i64, y: i64, old: Pixel) -> Pixel
    requires { is_stamp command.now ≡ true }
    ensures { result ≡ pixel_after command.now x y old }
{
    let place = Place { x, y };
    match command {
        Draw::FillRect {
            mode,
            x,
            y,
            w,
            h,
            color,
            ..
        } => { filled(*mode, rect_of(*x, *y, *w, *h), *color, place, old) }
        Draw::PutImage {
            mode,
            x,
            y,
            w,
            h,
            colors,
            ..
        } => {
            let image = Image::new(*x, *y, *w, *h, colors.as_slice());
            imaged(*mode, image, place, old)
        }
        Draw::DabsRound { .. } | Draw::DabsSquare { .. } => {
            let dabs = dabs_of(command);
            stroked(dabs.mode, dabs.color, dabs.run, place, old)
        }
        _ => old,
    }
}
