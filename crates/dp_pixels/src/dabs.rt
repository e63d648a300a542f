//! Dabs of a brush, where they stand.

ghost use Rattle.std.specs.Prelude.{◌≡◌, ◌<◌, ◌≤◌, ◌^◌, ◌+◌, pos, ◌+ℤ◌, unsigned_abs, length};
ghost use Rattle.std.specs.Prelude.{map, IfOk};
ghost use Rattle.std.specs.List.{list_any};
ghost use Rattle.std.specs.Option.{option_map_or};
ghost use Rattle.dp_pixels.specs.Near.{IsPlaceNear};
ghost use Rattle.dp_pixels.specs.Dabs.{dab_rect, dab_covers, is_in_disc, placed_dabs};
ghost use Rattle.dp_pixels.specs.Commands.{dabs_blended};
ghost use Rattle.dp_pixels.specs.Feet.{around};
ghost use Rattle.dp_pixels.specs.Rectangles.{joined};

use crate::rect::{Place, Rect};
use dp_blend::{Mode, Pixel, blend, fade, from8};
use dp_msg_draw::Dab;
use std::alloc::{AllocError, Global};

/// The shape of a dab.
#[derive(Clone, Copy, PartialEq, Eq)]
pub enum Shape {
    /// The cells of the square that are in the disc of the dab's diameter.
    Round,
    /// All cells of the square.
    Square,
}

/// A dab where it stands.
#[derive(Clone, Copy, PartialEq, Eq)]
pub struct PlacedDab {
    /// The middle of its square of cells.
    pub at: Place,
    /// The diameter in pixels.
    pub size: u8,
    /// The part of the colour that it blends, 255 for all of it.
    pub opacity: u8,
}

/// A dab that stands so near that sums of its numbers fit in 64 bits, as each dab of a message
/// does.
#[derive(Clone, Copy)]
pub struct NearDab {
    pub dab: PlacedDab,
    ghost near: { IsPlaceNear (2 ^ 39) dab.at },
}

impl NearDab {
    /// The square of its cells.
    pub fn rect(self) -> Rect
        ensures { result ≡ dab_rect self.dab }
    {
        self.dab.rect()
    }
}

impl PlacedDab {
    /// The dab, moved by its difference from the place of the one before it.
    pub(crate) fn placed_after(last: Place, dab: Dab) -> PlacedDab
        requires { IsPlaceNear (2 ^ 40) last }
        ensures value { result
            ≡ record {
              at = record { x = last.x +ℤ dab.dx; y = last.y +ℤ dab.dy };
              size = dab.size;
              opacity = dab.opacity;
            } }
        ensures near_x { unsigned_abs result.at.x ≤ unsigned_abs last.x + 128 }
        ensures near_y { unsigned_abs result.at.y ≤ unsigned_abs last.y + 128 }
    {
        PlacedDab {
            at: Place {
                x: last.x + dab.dx as i64,
                y: last.y + dab.dy as i64,
            },
            size: dab.size,
            opacity: dab.opacity,
        }
    }

    /// The square of its cells.
    pub(crate) fn rect(self) -> Rect
        requires { IsPlaceNear (2 ^ 39) self.at }
        ensures { result ≡ dab_rect self }
    {
        let half = (self.size / 2) as i64;
        let corner = Place {
            x: self.at.x - half,
            y: self.at.y - half,
        };
        Rect::at(corner, self.size as u32, self.size as u32)
    }

    /// Whether it covers a place.
    fn covers(self, shape: Shape, place: Place) -> bool
        requires { IsPlaceNear (2 ^ 39) self.at }
        ensures { result ≡ dab_covers shape self place.x place.y }
    {
        let cells = self.rect();
        match shape {
            Shape::Square => cells.contains(place),
            Shape::Round => {
                cells.contains(place)
                    && is_in_disc(
                        self.size,
                        (place.x - cells.x0) as u8,
                        (place.y - cells.y0) as u8,
                    )
            }
        }
    }
}

/// Whether the cell (i, j) of a dab is in its disc.
fn is_in_disc(size: u8, i: u8, j: u8) -> bool
    requires column { i < size }
    requires row { j < size }
    ensures { result ≡ is_in_disc size (pos i) (pos j) }
{
    let across = (2 * i as u32 + 1).abs_diff(size as u32);
    let down = (2 * j as u32 + 1).abs_diff(size as u32);
    across * across + down * down <= size as u32 * size as u32
}

/// The rectangle, with the places of another too if there is one.
fn extended(all: Option<Rect>, cells: Rect) -> Rect
    ensures { result ≡ option_map_or (λ rect. joined rect cells) all cells }
{
    match all {
        None => cells,
        Some(rect) => rect.joined(cells),
    }
}

/// The dabs of a message: their shape, the message's place, and the list.
#[derive(Clone, Copy)]
pub(crate) struct DabRun<'a> {
    pub shape: Shape,
    pub at: Place,
    pub dabs: &'a [Dab],
    ghost near: { IsPlaceNear (2 ^ 32) at },
    ghost short: { length dabs.now ≤ 16380 },
}

impl DabRun<'_> {
    /// Where the dabs stand.
    pub(crate) fn place(self, alloc: Global) -> Result<Vec<NearDab>, AllocError>
        ensures { IfOk result (λ dabs. map (λ near. near.dab) dabs.items
            ≡ placed_dabs self.entry.at.x self.entry.at.y self.entry.dabs.now) }
    {
        let mut placed = Vec::with_capacity(alloc, self.dabs.len())?;
        let mut last = self.at;
        for dab in self.dabs {
            let next = PlacedDab::placed_after(last, *dab);
            placed.push(NearDab { dab: next })?;
            last = next.at;
        }
        Ok(placed)
    }

    /// The least rectangle around the squares of the dabs. Without a dab it has no place.
    pub(crate) fn bounds(self) -> Rect
        ensures { result
            ≡ around (placed_dabs self.entry.at.x self.entry.at.y self.entry.dabs.now) }
    {
        let mut last = self.at;
        let mut all = None;
        for dab in self.dabs {
            let next = PlacedDab::placed_after(last, *dab);
            all = Some(extended(all, next.rect()));
            last = next.at;
        }
        match all {
            Some(rect) => rect,
            None => Rect::canvas(0, 0),
        }
    }

    /// Whether one of the dabs covers a place.
    pub(crate) fn covers(self, place: Place) -> bool
        ensures { result ≡ list_any (λ dab. dab_covers self.entry.shape dab place.x place.y)
            (placed_dabs self.entry.at.x self.entry.at.y self.entry.dabs.now) }
    {
        let mut last = self.at;
        for dab in self.dabs {
            let placed = PlacedDab::placed_after(last, *dab);
            if placed.covers(self.shape, place) {
                return true;
            }
            last = placed.at;
        }
        false
    }

    /// The pixel at a place after the dabs of this source.
    pub(crate) fn pixel_after(self, mode: Mode, source: Pixel, place: Place, old: Pixel) -> Pixel
        ensures { result ≡ dabs_blended self.entry.shape mode source
            (placed_dabs self.entry.at.x self.entry.at.y self.entry.dabs.now) place.x place.y old }
    {
        let mut last = self.at;
        let mut pixel = old;
        for dab in self.dabs {
            let placed = PlacedDab::placed_after(last, *dab);
            if placed.covers(self.shape, place) {
                pixel = blend(mode, fade(source, from8(placed.opacity)), pixel);
            }
            last = placed.at;
        }
        pixel
    }
}
