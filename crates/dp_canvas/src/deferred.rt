//! The board on which `replay` and `play` draw: small fills and dabs wait until tiles are read.

ghost use Rattle.std.specs.Prelude.{◌≡◌, ◌+◌, ◌≤◌};

use dp_blend::Pixel;
use dp_layered::LayeredBoard;
use dp_layers::Share;
use dp_msg_draw::Draw;
use dp_paint::DeferredGrid;
use dp_par::Workers;
use dp_pixels::{Resize, pixels_stay_pixels};
use dp_plain::{LayerPixels, known_colors};
use dp_steps::Steps;
use dp_wire::Gate;
use std::alloc::{AllocError, Global};
use std::marker::Model;
use std::sync::ledger::Ledger;
use std::thread::Threads;

/// A board for pictures: small fills and dabs wait, and each tile is painted by all of them when it
/// is read.
pub type DeferredBoard = LayeredBoard<DeferredPixels>;

/// The pixels of a layer, on tiles, with operations that wait.
#[derive(Drop)]
pub struct DeferredPixels {
    layer: DeferredGrid,
}

impl Model for DeferredPixels {
    ghost use Rattle.dp_paint.specs.Layers.{LayerOf};

    ghost Value = { LayerOf };

    ghost view = { λ d. d.layer };
}

impl DeferredPixels {
    /// Whether half as much waits as may wait.
    pub(crate) fn is_half_full(&self) -> bool {
        self.layer.is_half_full()
    }

    /// Paints all that waits, by workers.
    ///
    /// # Errors
    ///
    /// The pixels are the same, and tiles that were made are counted.
    pub(crate) fn settle_by<R: Threads + Sync, G: Gate, T: Ledger>(
        &mut self,
        rt: &R,
        workers: &Workers<'_, G>,
        tiles: &mut Steps<T>,
    ) -> Result<(), AllocError>
        ensures same { self.new ≡ self.old }
        ensures tiles_rise { tiles.old ≤ tiles.new }
        ensures few_tiles { tiles.new ≤ tiles.old + 4096 }
    {
        self.layer.settle_by(rt, workers, tiles)
    }
}

impl Share for DeferredPixels {
    fn share(&self) -> Result<Self, AllocError> {
        Ok(DeferredPixels {
            layer: self.layer.share()?,
        })
    }
}

impl LayerPixels for DeferredPixels {
    ghost use Rattle.std.specs.Prelude.{◌≡◌, ◌+◌, ◌*◌, All, length};
    ghost use Rattle.dp_blend.specs.Color.{IsPixel};
    ghost use Rattle.dp_pixels.specs.Feet.{reach};

    ghost pixels = { λ width height layer. layer.pixels };

    ghost fits = { λ width height layer. (layer.width ≡ width) × (layer.height ≡ height)
        × (length layer.pixels ≡ width * height) × All IsPixel layer.pixels };

    ghost weight = { λ command. 4096 + reach command };

    ghost resizing = { 8192 };

    fn clear<T: Ledger>(
        alloc: Global,
        width: u32,
        height: u32,
        _tiles: &mut Steps<T>,
    ) -> Result<Self, AllocError> {
        Ok(DeferredPixels {
            layer: DeferredGrid::blank(alloc, width, height)?,
        })
    }

    fn paint<T: Ledger>(
        &mut self,
        _alloc: Global,
        _width: u32,
        _height: u32,
        command: &Draw,
        tiles: &mut Steps<T>,
    ) -> Result<(), AllocError> {
        pixels_stay_pixels();
        known_colors(command);
        self.layer.draw(command, tiles)
    }

    fn resize<T: Ledger>(
        &self,
        _alloc: Global,
        change: Resize,
        tiles: &mut Steps<T>,
    ) -> Result<Self, AllocError> {
        Ok(DeferredPixels {
            layer: self.layer.resized(change, tiles)?,
        })
    }

    fn copy_part(&self, _width: u32, _height: u32, x: u32, y: u32, part: &mut [Pixel]) {
        self.layer.copy_part(x, y, part);
    }

    fn tile_color(&self, _width: u32, _height: u32, col: u32, row: u32) -> Option<Pixel> {
        self.layer.tile_color(col, row)
    }

    fn tile(
        &self,
        _width: u32,
        _height: u32,
        col: u32,
        row: u32,
        buffer: &mut [Pixel],
    ) -> Option<Pixel> {
        self.layer.read_tile(col, row, buffer)
    }

    fn pixel(&self, _width: u32, _height: u32, x: u32, y: u32) -> Pixel {
        self.layer.pixel(x, y)
    }

    fn laws() {}
}
