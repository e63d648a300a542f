//! Commands on the pixels of layers that are grids of tiles.

ghost use Rattle.std.specs.Prelude.{◌≡◌, ◌<◌, length};
ghost use Rattle.dp_paint.specs.Painting.{ChangesPixels, IsPainting};

use dp_blend::{Pixel, of_argb};
use dp_msg_draw::{Dab, Dabs, Draw};
use dp_paint::{DeferredGrid, paint_in_place};
use dp_shift::blank_grid;
use dp_steps::Steps;
use dp_tile::Grid;
use std::alloc::Global;
use std::marker::Brand;
use std::process::Abort;
use std::sync::ledger::{Blank, Ledger};

/// A fill from a place on.
fn fill(x: u32, y: u32, w: u32, h: u32, color: u32) -> Draw
    ensures { ChangesPixels result }
{
    Draw::FillRect {
        layer: 1,
        mode: 1,
        x,
        y,
        w,
        h,
        color,
    }
}

/// A move of one pixel.
fn move_of(from: (u32, u32), to: (i32, i32)) -> Draw
    ensures { ChangesPixels result }
{
    let (sx, sy) = from;
    let (tx, ty) = to;
    Draw::MoveRect {
        layer: 1,
        sx,
        sy,
        w: 1,
        h: 1,
        tx,
        ty,
    }
}

/// Two white square dabs, 127 pixels apart.
fn two_dabs(rt: &impl Abort, alloc: Global) -> Draw
    ensures { IsPainting result }
{
    let first = Dab {
        dx: 0,
        dy: 0,
        size: 4,
        opacity: 255,
    };
    let list = [first, Dab { dx: 127, ..first }];
    let list = Vec::from_slice(alloc, &list).expect(rt, "memory");
    Draw::DabsSquare {
        layer: 1,
        x: 20,
        y: 20,
        r: 255,
        g: 255,
        b: 255,
        mode: 1,
        dabs: Dabs::from_vec(list),
    }
}

/// Which tiles of a row of four are made.
fn made_tiles(rt: &impl Abort, grid: &Grid) -> [bool; 4] {
    assert!(rt; grid.cols() == 4);
    assert!(rt; grid.rows() == 1);
    [
        grid.tile(0, 0).is_some(),
        grid.tile(1, 0).is_some(),
        grid.tile(2, 0).is_some(),
        grid.tile(3, 0).is_some(),
    ]
}

/// Two square dabs, in the first and in the third tile of a canvas of 256 by 64, make no tile
/// between them.
fn check_stroke<T: Ledger>(rt: &impl Abort, alloc: Global, tiles: &mut Steps<T>) {
    let stroke = two_dabs(rt, alloc);
    let mut grid = blank_grid(alloc, 256, 64).expect(rt, "memory");
    paint_in_place(&mut grid, 256, 64, &stroke, tiles).expect(rt, "memory");
    assert!(rt; made_tiles(rt, &grid) == [true, false, true, false]);
    drop(stroke);
    drop(grid);
}

/// The pixels of a layer at (64, 0), (64, 1), (65, 1) and (69, 0), as its right tile is read.
fn read_right(layer: &DeferredGrid, pixels: &mut [Pixel]) -> [Pixel; 4]
    requires across { 64 < layer.now.width }
    requires down { 0 < layer.now.height }
    requires count { length pixels.old ≡ 4096 }
{
    match layer.read_tile(1, 0, pixels) {
        Some(color) => [color; 4],
        None => [pixels[0], pixels[64], pixels[65], pixels[5]],
    }
}

/// The right tile of a layer is read as these pixels.
fn check(rt: &impl Abort, layer: &DeferredGrid, pixels: &mut [Pixel], want: [Pixel; 4])
    requires across { 64 < layer.now.width }
    requires down { 0 < layer.now.height }
    requires count { length pixels.old ≡ 4096 }
{
    assert!(rt; read_right(layer, pixels) == want);
}

/// Draws a command, which leaves the layer's sides as they are.
fn draw<T: Ledger>(rt: &impl Abort, layer: &mut DeferredGrid, command: Draw, tiles: &mut Steps<T>)
    requires { ChangesPixels command }
    ensures width { layer.new.width ≡ layer.old.width }
    ensures height { layer.new.height ≡ layer.old.height }
{
    layer.draw(&command, tiles).expect(rt, "memory");
}

/// The pixels of a layer at the places that `read_right` reads, read one by one.
fn read_each(layer: &DeferredGrid) -> [Pixel; 4]
    requires across { 69 < layer.now.width }
    requires down { 1 < layer.now.height }
{
    [
        layer.pixel(64, 0),
        layer.pixel(64, 1),
        layer.pixel(65, 1),
        layer.pixel(69, 0),
    ]
}

/// A layer of 70 by 2 on which fills wait: a white one in both tiles, and over its right column a
/// black one, which goes past the canvas.
fn waiting_layer<T: Ledger>(rt: &impl Abort, alloc: Global, tiles: &mut Steps<T>) -> DeferredGrid
    ensures width { result.width ≡ 70 }
    ensures height { result.height ≡ 2 }
{
    let mut layer = DeferredGrid::blank(alloc, 70, 2).expect(rt, "memory");
    draw(rt, &mut layer, fill(63, 0, 2, 2, 0xffff_ffff), tiles);
    draw(rt, &mut layer, fill(64, 1, 2, 2, 0xff00_0000), tiles);
    layer
}

/// The right tile of the layer is read at first, after another fill in white, and after the pixel
/// at (64, 1) moved to (69, 0). Before the move its pixels are also read one by one.
fn check_waiting<T: Ledger>(rt: &impl Abort, alloc: Global, tiles: &mut Steps<T>) {
    let (white, black, clear) = (Pixel::WHITE, of_argb(0xff00_0000), Pixel::CLEAR);
    let mut pixels = vec![in alloc; clear; 4096].expect(rt, "memory");
    let mut layer = waiting_layer(rt, alloc, tiles);
    check(rt, &layer, &mut pixels, [white, black, black, clear]);
    draw(rt, &mut layer, fill(65, 1, 2, 2, 0xffff_ffff), tiles);
    check(rt, &layer, &mut pixels, [white, black, white, clear]);
    assert!(rt; read_each(&layer) == [white, black, white, clear]);
    draw(rt, &mut layer, move_of((64, 1), (69, 0)), tiles);
    check(rt, &layer, &mut pixels, [white, clear, white, black]);
    drop(layer);
}

/// Draws on layers with a counter over this blank.
fn check_layers<T: Ledger>(rt: &impl Abort, alloc: Global, blank: Blank)
    requires name { blank.name ≡ T.name }
    requires parts { blank.parts ≡ T.parts }
    requires some { 0 < blank.parts }
{
    let mut tiles = Steps::<T>::new(blank);
    check_stroke(rt, alloc, &mut tiles);
    check_waiting(rt, alloc, &mut tiles);
}

#[test]
fn commands_on_layers(rt: HostRuntime) {
    check_layers::<Brand>(&rt, rt.alloc(), Blank::new(1));
}
