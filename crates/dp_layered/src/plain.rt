//! Plain lists of pixels.

ghost use Rattle.std.specs.Prelude.{◌≡◌, ◌*◌, length, All};
ghost use Rattle.dp_blend.specs.Color.{IsPixel};

use crate::layered::LayeredBoard;
use crate::resize::moved_pixels;
use dp_blend::Pixel;
use dp_layers::Share;
use dp_msg_draw::Draw;
use dp_pixels::{Resize, draw_pixels, pixels_stay_pixels};
use dp_plain::{LayerPixels, known_colors};
use dp_steps::Steps;
use std::alloc::{AllocError, Global};
use std::marker::Model;
use std::sync::ledger::Ledger;

/// The slow board, with which others are compared: its layers hold plain lists of pixels.
pub type PlainBoard = LayeredBoard<PlainPixels>;

/// The pixels of a layer as a plain list, row by row from the top, each from the left. It makes no
/// tile.
#[derive(Drop)]
pub struct PlainPixels {
    pixels: Vec<Pixel>,
}

impl Model for PlainPixels {
    ghost use Rattle.std.specs.Prelude.{List};
    ghost use Rattle.dp_blend.specs.Color.{Channels};

    ghost Value = { List Channels };

    ghost view = { λ p. p.pixels.items };
}

impl Share for PlainPixels {
    fn share(&self) -> Result<Self, AllocError> {
        Ok(PlainPixels {
            pixels: self.pixels.clone()?,
        })
    }
}

impl LayerPixels for PlainPixels {
    ghost pixels = { λ width height pixels. pixels };

    ghost fits = { λ width height pixels.
        (length pixels ≡ width * height) × All IsPixel pixels };

    ghost weight = { λ _. 0 };

    ghost resizing = { 0 };

    fn clear<T: Ledger>(
        alloc: Global,
        width: u32,
        height: u32,
        _tiles: &mut Steps<T>,
    ) -> Result<Self, AllocError> {
        let count = width as usize * height as usize;
        Ok(PlainPixels {
            pixels: vec![in alloc; Pixel::CLEAR; count]?,
        })
    }

    fn paint<T: Ledger>(
        &mut self,
        alloc: Global,
        width: u32,
        height: u32,
        command: &Draw,
        _tiles: &mut Steps<T>,
    ) -> Result<(), AllocError> {
        pixels_stay_pixels();
        known_colors(command);
        draw_pixels(alloc, command, width, height, &mut self.pixels)
    }

    fn resize<T: Ledger>(
        &self,
        alloc: Global,
        change: Resize,
        _tiles: &mut Steps<T>,
    ) -> Result<Self, AllocError> {
        Ok(PlainPixels {
            pixels: moved_pixels(alloc, &self.pixels, change)?,
        })
    }

    fn copy_part(&self, width: u32, _height: u32, x: u32, y: u32, part: &mut [Pixel]) {
        let start = y as usize * width as usize + x as usize;
        part.copy_from_slice(&self.pixels[start..start + part.len()]);
    }

    fn tile_color(&self, _width: u32, _height: u32, _col: u32, _row: u32) -> Option<Pixel> {
        None
    }

    fn tile(
        &self,
        width: u32,
        height: u32,
        col: u32,
        row: u32,
        buffer: &mut [Pixel],
    ) -> Option<Pixel> {
        let (x, y) = (col * 64, row * 64);
        let count = (width - x).min(64) as usize;
        for j in 0..(height - y).min(64) {
            let start = j as usize * 64;
            self.copy_part(width, height, x, y + j, &mut buffer[start..start + count]);
        }
        None
    }

    fn pixel(&self, width: u32, _height: u32, x: u32, y: u32) -> Pixel {
        self.pixels[y as usize * width as usize + x as usize]
    }

    fn laws() {}
}
