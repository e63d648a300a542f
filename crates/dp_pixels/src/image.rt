//! Images of colours.

ghost use Rattle.std.specs.Prelude.{◌≡◌, ℕ, ◌<◌, pos, length, None, true};
ghost use Rattle.std.specs.Prelude.{slice_get, slice_index, slice_index_or};
ghost use Rattle.std.specs.Option.{option_map_or};
ghost use Rattle.dp_blend.specs.Color.{Channels, of_argb};
ghost use Rattle.dp_blend.specs.Blending.{blend};
ghost use Rattle.dp_pixels.specs.Rectangles.{is_in, rect_at};
ghost use Rattle.dp_pixels.specs.Commands.{image_color, image_index, imaged};

use crate::paint::Paint;
use crate::rect::{Place, Rect};
use dp_blend::{Mode, ONE, Pixel, of_argb, row_merge};

/// An image: its left upper corner, its sides, and its colours, row by row.
#[derive(Clone, Copy)]
pub(crate) struct Image<'a> {
    pub x: u32,
    pub y: u32,
    pub w: u32,
    pub h: u32,
    pub colors: &'a [u32],
}

impl<'a> Image<'a> {
    /// An image of these colours.
    pub(crate) fn new(x: u32, y: u32, w: u32, h: u32, colors: &'a [u32]) -> Image<'a>
        ensures { (mode : ℕ) → imaged mode (pos result.x) (pos result.y) result.w result.h
            result.colors.now ≡ imaged mode (pos x) (pos y) w h colors.now }
    {
        Image { x, y, w, h, colors }
    }
}

impl Image<'_> {
    /// Its places.
    pub(crate) fn rect(self) -> Rect
        ensures { result ≡ rect_at (pos self.entry.x) (pos self.entry.y) self.entry.w self.entry.h }
    {
        let corner = Place {
            x: self.x as i64,
            y: self.y as i64,
        };
        Rect::at(corner, self.w, self.h)
    }

    /// The index of the colour of a place.
    fn index(self, place: Place) -> usize
        requires { is_in (rect_at (pos self.x) (pos self.y) self.w self.h) place.x place.y ≡ true }
        ensures { result
            ≡ image_index (pos self.entry.x) (pos self.entry.y) self.entry.w place.x place.y }
    {
        let row = (place.y - self.y as i64) as usize;
        let column = (place.x - self.x as i64) as usize;
        row * self.w as usize + column
    }

    /// The colour at a place, if it has one there.
    pub(crate) fn color(self, place: Place) -> Option<u32>
        ensures { result ≡ image_color (pos self.entry.x) (pos self.entry.y) self.entry.w
            self.entry.h self.entry.colors.now place.x place.y }
    {
        if self.rect().contains(place) {
            get(self.colors, self.index(place))
        } else {
            None
        }
    }
}

/// The colour at an index, if there is one.
fn get(colors: &[u32], index: usize) -> Option<u32>
    ensures { result ≡ slice_get colors.now index }
{
    colors.get(index).copied()
}

/// How many sources are worked out at a time.
const CHUNK: usize = 64;

/// Writes the pixel of each colour to its place.
fn put_sources(colors: &[u32], sources: &mut [Pixel])
    requires { length colors.now ≡ length sources.old }
    ensures { (k : ℕ) (d : Channels) → k < length sources.old →
        slice_index_or sources.new k d ≡ of_argb (slice_index colors.now k) }
{
    for k in 0..sources.len() {
        sources[k] = of_argb(colors[k]);
    }
}

/// Blends each colour with the pixel at its place.
fn merge_colors(mode: Mode, colors: &[u32], row: &mut [Pixel])
    requires { length colors.now ≡ length row.old }
    ensures { (k : ℕ) (d : Channels) → k < length row.old →
        slice_index_or row.new k d
        ≡ blend mode (of_argb (slice_index colors.now k)) (slice_index_or row.old k d) }
{
    let mut sources = [Pixel::CLEAR; CHUNK];
    let mut start = 0;
    while start < row.len() {
        let end = (start + CHUNK).min(row.len());
        put_sources(&colors[start..end], &mut sources[..end - start]);
        row_merge(mode, ONE, &sources[..end - start], &mut row[start..end]);
        start = end;
    }
}

/// The colours of an image, each blended with the pixel at its place.
#[derive(Clone, Copy)]
pub(crate) struct ImageFill<'a> {
    pub mode: Mode,
    pub image: Image<'a>,
}

impl Paint for ImageFill<'_> {
    ghost bounds = { λ p. rect_at (pos p.image.x) (pos p.image.y) p.image.w p.image.h };

    ghost change = { λ p x y old.
        option_map_or (λ color. blend p.mode (of_argb color) old)
        (image_color (pos p.image.x) (pos p.image.y) p.image.w p.image.h p.image.colors.now x y)
        old };

    fn bounds(&self) -> Rect {
        self.image.rect()
    }

    fn paint_row(&self, place: Place, row: &mut [Pixel]) {
        let colors = self.image.colors;
        let start = self.image.index(place).min(colors.len());
        let len = row.len().min(colors.len() - start);
        merge_colors(self.mode, &colors[start..start + len], &mut row[..len]);
    }
}
