//! The pixels of a layer as a grid of tiles.

use dp_blend::{Pixel, length_of_canvas};
use dp_layers::Share;
use dp_msg_draw::Draw;
use dp_paint::paint_in_place;
use dp_pixels::{Resize, pixels_stay_pixels};
use dp_plain::{LayerPixels, known_colors};
use dp_shift::{blank_grid, move_in_place, resized_grid};
use dp_steps::Steps;
use dp_tile::Grid;
use std::alloc::{AllocError, Global};
use std::marker::Model;
use std::sync::ledger::Ledger;

/// The pixels of a layer, on tiles that layers share until one of them is written to.
#[derive(Drop)]
pub(crate) struct TiledPixels {
    pub grid: Grid,
}

impl Model for TiledPixels {
    ghost use Rattle.dp_tile.specs.Tiles.{TileGrid};

    ghost Value = { TileGrid };

    ghost view = { λ t. t.grid };
}

impl Share for TiledPixels {
    fn share(&self) -> Result<Self, AllocError> {
        Ok(TiledPixels {
            grid: self.grid.share()?,
        })
    }
}

impl LayerPixels for TiledPixels {
    ghost use Rattle.std.specs.Prelude.{All};
    ghost use Rattle.dp_blend.specs.Color.{IsPixel};
    ghost use Rattle.dp_pixels.specs.Feet.{reach};
    ghost use Rattle.dp_tile.specs.Tiles.{grid_pixels};
    ghost use Rattle.dp_shift.specs.Grids.{IsGridOf};

    ghost pixels = { grid_pixels };

    ghost fits = { λ width height grid.
        IsGridOf width height grid × All IsPixel (grid_pixels width height grid) };

    ghost weight = { reach };

    ghost resizing = { 4096 };

    fn clear<T: Ledger>(
        alloc: Global,
        width: u32,
        height: u32,
        _tiles: &mut Steps<T>,
    ) -> Result<Self, AllocError> {
        Ok(TiledPixels {
            grid: blank_grid(alloc, width, height)?,
        })
    }

    fn paint<T: Ledger>(
        &mut self,
        _alloc: Global,
        width: u32,
        height: u32,
        command: &Draw,
        tiles: &mut Steps<T>,
    ) -> Result<(), AllocError> {
        pixels_stay_pixels();
        known_colors(command);
        match command {
            Draw::MoveRect { .. } => move_in_place(&mut self.grid, width, height, command, tiles),
            _ => paint_in_place(&mut self.grid, width, height, command, tiles),
        }
    }

    fn resize<T: Ledger>(
        &self,
        _alloc: Global,
        change: Resize,
        tiles: &mut Steps<T>,
    ) -> Result<Self, AllocError> {
        Ok(TiledPixels {
            grid: resized_grid(&self.grid, change, tiles)?,
        })
    }

    fn copy_part(&self, _width: u32, _height: u32, x: u32, y: u32, part: &mut [Pixel]) {
        self.grid.copy_part(x, y, part);
    }

    fn tile_color(&self, _width: u32, _height: u32, col: u32, row: u32) -> Option<Pixel> {
        self.grid.known();
        self.grid.tile_color(col, row)
    }

    fn tile(
        &self,
        _width: u32,
        _height: u32,
        col: u32,
        row: u32,
        buffer: &mut [Pixel],
    ) -> Option<Pixel> {
        self.grid.known();
        self.grid.read_tile(col, row, buffer)
    }

    fn pixel(&self, _width: u32, _height: u32, x: u32, y: u32) -> Pixel {
        self.grid.get(x, y)
    }

    fn laws() {
        length_of_canvas();
    }
}
