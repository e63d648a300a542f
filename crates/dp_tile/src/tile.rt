//! A square of pixels.

ghost use Rattle.std.specs.Prelude.{◌≡◌, ◌+◌, ◌*◌, ◌<◌, ◌≤◌, length, slice_set, IfNone, IfOk};
ghost use Rattle.std.specs.Prelude.{IfSome, OnOk, OnErr, true};
ghost use Rattle.std.specs.Vec.{vec_capacity};
ghost use Rattle.dp_blend.specs.Color.{clear};
ghost use Rattle.dp_blend.specs.Canvas.{pixel_at};
ghost use Rattle.dp_blend.specs.Stretches.{IsStretch};
ghost use Rattle.dp_blend.specs.Canvas.{part_of_row};
ghost use Rattle.dp_tile.specs.Tiles.{IsOfColor, shows, tile_of, tile_pixels};

use crate::painter::TilePainter;
use dp_blend::{Pixel, Stretch};
use dp_steps::{Counted, Steps};
use std::alloc::{AllocError, Global};
use std::marker::Model;
use std::sync::ledger::Ledger;

/// How many pixels a side of a tile has.
pub const SIDE: usize = 64;

/// How many pixels a tile has.
const COUNT: usize = SIDE * SIDE;

/// A square of 64 by 64 pixels. It is seen as their list, row by row from the top, each row from
/// the left. If it is known to be of one colour, it is marked with that, and what it holds doesn't
/// count. Its room is taken when it is made. None is built without being counted.
#[derive(Drop)]
pub struct Tile {
    pixels: Vec<Pixel>,
    color: Option<Pixel>,
    counted: Counted,
}

impl Model for Tile {
    ghost use Rattle.std.specs.Prelude.{List};
    ghost use Rattle.std.specs.Vec.{vec_capacity};
    ghost use Rattle.dp_blend.specs.Color.{Channels};
    ghost use Rattle.dp_tile.specs.Tiles.{IsTile, tile_pixels};

    ghost Value = { List Channels };

    ghost view = { λ t. tile_pixels t.color t.pixels.items };

    ghost invariant = { λ t. IsTile t.color (vec_capacity t.pixels) t.pixels.items };
}

impl Tile {
    /// A tile that shows nothing.
    pub fn blank<T: Ledger>(alloc: Global, tiles: &mut Steps<T>) -> Result<Tile, AllocError>
        ensures clear { IfOk result (λ tile. tile ≡ tile_of clear) }
        ensures one_tile { OnOk result (tiles.new ≡ tiles.old + 1) }
        ensures err { OnErr result (tiles.new ≡ tiles.old) }
    {
        Tile::solid(alloc, Pixel::CLEAR, tiles)
    }

    /// A tile of one colour.
    pub fn solid<T: Ledger>(
        alloc: Global,
        p: Pixel,
        tiles: &mut Steps<T>,
    ) -> Result<Tile, AllocError>
        ensures solid { IfOk result (λ tile. tile ≡ tile_of p) }
        ensures one_tile { OnOk result (tiles.new ≡ tiles.old + 1) }
        ensures err { OnErr result (tiles.new ≡ tiles.old) }
    {
        let pixels = Vec::with_capacity(alloc, COUNT)?;
        Ok(Tile {
            pixels,
            color: Some(p),
            counted: tiles.tick(),
        })
    }

    /// A second tile of the same pixels.
    pub fn copy<T: Ledger>(&self, alloc: Global, tiles: &mut Steps<T>) -> Result<Tile, AllocError>
        ensures same { IfOk result (λ tile. tile ≡ self.now) }
        ensures one_tile { OnOk result (tiles.new ≡ tiles.old + 1) }
        ensures err { OnErr result (tiles.new ≡ tiles.old) }
    {
        let mut tile = Tile::blank(alloc, tiles)?;
        tile.become_like(self);
        Ok(tile)
    }

    // A tile of these pixels.
    pub(crate) fn of<T: Ledger>(pixels: Vec<Pixel>, tiles: &mut Steps<T>) -> Tile
        requires count { length pixels.items ≡ 4096 }
        requires room { 4096 ≤ vec_capacity pixels }
        ensures same { result ≡ pixels.items }
        ensures one_tile { tiles.new ≡ tiles.old + 1 }
    {
        Tile {
            pixels,
            color: None,
            counted: tiles.tick(),
        }
    }

    // A list of its pixels.
    pub(crate) fn pixels(&self, alloc: Global) -> Result<Vec<Pixel>, AllocError>
        ensures same { IfOk result (λ pixels. pixels.items ≡ self.now) }
        ensures room { IfOk result (λ pixels. 4096 ≤ vec_capacity pixels) }
    {
        match self.color {
            Some(p) => solid_pixels(alloc, p),
            None => copied(alloc, &self.pixels),
        }
    }

    /// Takes the pixels of another tile. It takes no memory.
    pub fn become_like(&mut self, other: &Tile)
        ensures { self.new ≡ other.now }
    {
        let Tile { pixels, color, .. } = self;
        *color = other.color;
        if other.color.is_none() {
            copy_over(&other.pixels, pixels);
        }
    }

    /// A tile has 4096 pixels.
    pub fn known(&self)
        ensures { length self.now ≡ 4096 }
    {
        let _ = &self.pixels;
    }

    /// The colour of all its pixels, if that is known.
    pub fn color(&self) -> Option<Pixel>
        ensures { IsOfColor result self.now }
    {
        self.color
    }

    /// Its colour, if that is known; else its pixels are copied.
    pub fn read(&self, pixels: &mut [Pixel]) -> Option<Pixel>
        requires count { length pixels.old ≡ 4096 }
        ensures color { IfSome result (λ p. self.now ≡ tile_of p) }
        ensures pixels { IfNone result (pixels.new ≡ self.now) }
    {
        match self.color {
            Some(p) => Some(p),
            None => {
                pixels.copy_from_slice(&self.pixels);
                None
            }
        }
    }

    /// The pixel at a place.
    pub fn get(&self, x: usize, y: usize) -> Pixel
        requires x { x < 64 }
        requires y { y < 64 }
        ensures { result ≡ pixel_at 64 self.now x y }
    {
        match self.color {
            Some(p) => p,
            None => self.pixels[y * SIDE + x],
        }
    }

    /// Writes the pixel at a place.
    pub fn set(&mut self, x: usize, y: usize, p: Pixel)
        requires x { x < 64 }
        requires y { y < 64 }
        ensures { self.new ≡ slice_set self.old (y * 64 + x) p }
    {
        let Tile { pixels, color, .. } = self;
        fill_up(*color, pixels);
        *color = None;
        pixels[y * SIDE + x] = p;
    }

    // A part of the row y: `count` pixels from x on.
    pub(crate) fn stretch(&self, x: usize, y: usize, count: usize) -> Stretch<'_>
        requires within { x + count ≤ 64 }
        requires y { y < 64 }
        ensures { IsStretch result (part_of_row 64 self.now x y count) }
    {
        match self.color {
            Some(p) => Stretch::Solid(p),
            None => {
                let start = y * SIDE + x;
                Stretch::Pixels(&self.pixels[start..start + count])
            }
        }
    }

    /// Paints the pixels, of the tile at a column and a row. It takes no memory.
    #[inline(never)]
    pub fn paint<P: TilePainter>(&mut self, col: u32, row: u32, painter: &P)
        requires col { col < 64 }
        requires row { row < 64 }
        ensures painted { self.new ≡ P.painted painter.now col row self.old }
        ensures count { length self.new ≡ 4096 }
    {
        let Tile { pixels, color, .. } = self;
        fill_up(*color, pixels);
        *color = None;
        painter.paint(col, row, pixels);
    }

    /// Marks it with its colour, if all its pixels are of one, and gives that. It takes no
    /// memory.
    pub fn mark(&mut self) -> Option<Pixel>
        ensures same { self.new ≡ self.old }
        ensures color { IsOfColor result self.new }
        ensures shows { IfNone result (shows self.new ≡ true) }
    {
        if self.color.is_none() {
            self.color = color_of(&self.pixels);
        }
        self.color
    }
}

// Has a list hold the pixels of a tile that is of one colour, if one is given, and else has them.
fn fill_up(color: Option<Pixel>, pixels: &mut Vec<Pixel>)
    requires { 4096 ≤ vec_capacity pixels.old }
    ensures pixels { pixels.new.items ≡ tile_pixels color pixels.old.items }
    ensures room { 4096 ≤ vec_capacity pixels.new }
{
    let Some(p) = color else {
        return;
    };
    pixels.clear();
    match pixels.resize(COUNT, p) {
        Ok(()) => {}
        Err(_) => {}
    }
}

// Has a list hold the pixels of another.
fn copy_over(from: &[Pixel], pixels: &mut Vec<Pixel>)
    requires count { length from.now ≡ 4096 }
    requires room { 4096 ≤ vec_capacity pixels.old }
    ensures pixels { pixels.new.items ≡ from.now }
    ensures room { 4096 ≤ vec_capacity pixels.new }
{
    pixels.clear();
    match pixels.extend_from_slice(from) {
        Ok(()) => {}
        Err(_) => {}
    }
}

// A list of these pixels.
fn copied(alloc: Global, from: &[Pixel]) -> Result<Vec<Pixel>, AllocError>
    requires { length from.now ≡ 4096 }
    ensures same { IfOk result (λ pixels. pixels.items ≡ from.now) }
    ensures room { IfOk result (λ pixels. 4096 ≤ vec_capacity pixels) }
{
    let mut pixels = Vec::with_capacity(alloc, COUNT)?;
    copy_over(from, &mut pixels);
    Ok(pixels)
}

// The colour of all pixels, if they are of one.
pub(crate) fn color_of(pixels: &[Pixel]) -> Option<Pixel>
    requires { length pixels.now ≡ 4096 }
    ensures color { IfSome result (λ p. pixels.now ≡ tile_of p) }
    ensures shows { IfNone result (shows pixels.now ≡ true) }
{
    let first = pixels[0];
    for pixel in pixels {
        if *pixel != first {
            return None;
        }
    }
    Some(first)
}

// The pixels of a tile of one colour.
pub(crate) fn solid_pixels(alloc: Global, p: Pixel) -> Result<Vec<Pixel>, AllocError>
    ensures solid { IfOk result (λ pixels. pixels.items ≡ tile_of p) }
    ensures count { IfOk result (λ pixels. length pixels.items ≡ 4096) }
    ensures room { IfOk result (λ pixels. 4096 ≤ vec_capacity pixels) }
{
    let mut pixels = Vec::with_capacity(alloc, COUNT)?;
    pixels.resize(COUNT, p)?;
    Ok(pixels)
}
