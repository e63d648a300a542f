//! Worked pixels of the pixel commands, on plain lists of pixels.

ghost use Rattle.std.specs.Prelude.{◌≡◌, ◌<◌, true};
ghost use Rattle.dp_pixels.specs.Commands.{is_stamp};

use crate::colors::{BLUE, CLEAR, RED, pixel};
use dp_blend::{Pixel, of_argb};
use dp_msg_draw::{Colors, Dab, Dabs, Draw, TileContent, TilePixel, TilePixels};
use dp_pixels::{Region, covers, draw_pixels, draw_region, pixel_after};
use std::alloc::Global;
use std::process::Abort;

fn fill(mode: u8, at: (u32, u32, u32, u32), color: u32) -> Draw
    ensures { is_stamp result ≡ true }
{
    let (x, y, w, h) = at;
    Draw::FillRect {
        layer: 1,
        mode,
        x,
        y,
        w,
        h,
        color,
    }
}

/// Red dabs from a place on, each its differences, size and opacity.
fn red_dabs(rt: &impl Abort, alloc: Global, round: bool, at: (i32, i32), list: &[Dab]) -> Draw
    ensures { is_stamp result ≡ true }
{
    let (x, y) = at;
    let list = Vec::from_slice(alloc, list).expect(rt, "memory");
    assert!(rt; list.len() <= 16_380);
    let dabs = Dabs::from_vec(list);
    let (layer, r, g, b, mode) = (1, 255, 0, 0, 1);
    if round {
        Draw::DabsRound {
            layer,
            x,
            y,
            r,
            g,
            b,
            mode,
            dabs,
        }
    } else {
        Draw::DabsSquare {
            layer,
            x,
            y,
            r,
            g,
            b,
            mode,
            dabs,
        }
    }
}

fn move_of(sx: u32, w: u32, (tx, ty): (i32, i32)) -> Draw {
    Draw::MoveRect {
        layer: 1,
        sx,
        sy: 0,
        w,
        h: 1,
        tx,
        ty,
    }
}

fn put_tile(col: u16, row: u16, repeat: u16, content: TileContent) -> Draw {
    Draw::PutTile {
        layer: 1,
        col,
        row,
        repeat,
        content,
    }
}

fn dab(dx: i8, dy: i8, size: u8, opacity: u8) -> Dab {
    Dab {
        dx,
        dy,
        size,
        opacity,
    }
}

/// Draws a command on pixels of a canvas of four by four or less, and compares what it leaves.
fn drawn(
    rt: &impl Abort,
    alloc: Global,
    command: &Draw,
    width: u32,
    height: u32,
    before: &[Pixel],
    want: &[Pixel],
) {
    let mut pixels = Vec::from_slice(alloc, before).expect(rt, "memory");
    assert!(rt; width <= 4 && height <= 4);
    assert!(rt; pixels.len() == width as usize * height as usize);
    draw_pixels(alloc, command, width, height, &mut pixels).expect(rt, "memory");
    assert!(rt; are(&pixels, want));
}

/// Whether pixels are these.
fn are(pixels: &[Pixel], want: &[Pixel]) -> bool {
    pixels == want
}

/// The pixel of a letter: R for red, and B for blue.
fn pixel_of(letter: u8) -> Pixel {
    match letter {
        b'R' => of_argb(RED),
        b'B' => of_argb(BLUE),
        _ => CLEAR,
    }
}

/// The pixels of four letters.
fn pixels_of([a, b, c, d]: [u8; 4]) -> [Pixel; 4] {
    [pixel_of(a), pixel_of(b), pixel_of(c), pixel_of(d)]
}

/// Sizes of a dab, and the letters of the pixels that it leaves.
static DISCS: [(u8, [u8; 4]); 4] = [(1, *b"R..."), (2, *b"R..."), (3, *b"RRRR"), (4, *b"RRR.")];

/// A round dab of this size covers these of four pixels.
fn check_covers(rt: &impl Abort, command: &Draw, size: u8)
    requires { is_stamp command.now ≡ true }
{
    assert!(rt; covers(command, 0, 0));
    assert!(rt; covers(command, 1, 0) == (size > 2));
    assert!(rt; covers(command, 1, 1) == (size == 3));
}

/// A round dab leaves these letters of four pixels.
fn check_disc(rt: &impl Abort, alloc: Global, size: u8, letters: [u8; 4]) {
    let command = red_dabs(rt, alloc, true, (0, 0), &[dab(0, 0, size, 255)]);
    drawn(rt, alloc, &command, 2, 2, &[CLEAR; 4], &pixels_of(letters));
    check_covers(rt, &command, size);
    drop(command);
}

#[test]
fn round_dabs_cover_a_disc(rt: HostRuntime) {
    for (size, letters) in &DISCS {
        check_disc(&rt, rt.alloc(), *size, *letters);
    }
}

/// The columns and the rows of the pixels that aren't clear, each from the first to the last.
fn painted(pixels: &[Pixel], width: usize) -> (usize, usize, usize, usize)
    requires { 0 < width }
{
    let (mut left, mut right, mut top, mut bottom) = (width, 0, width, 0);
    for (k, pixel) in pixels.iter().enumerate() {
        if *pixel != CLEAR {
            left = left.min(k % width);
            right = right.max(k % width);
            top = top.min(k / width);
            bottom = bottom.max(k / width);
        }
    }
    (left, right, top, bottom)
}

/// Which of the five by five tiles of a canvas of 320 by 320 have a pixel that isn't clear.
fn painted_tiles(pixels: &[Pixel]) -> [[bool; 5]; 5] {
    let mut tiles = [[false; 5]; 5];
    for (k, pixel) in pixels.iter().enumerate() {
        if *pixel != CLEAR {
            tiles[k / 20480 % 5][k / 64 % 5] = true;
        }
    }
    tiles
}

/// A dab: whether it is round, and its place. Then the columns and rows that it paints.
type Dabbed = (bool, (i32, i32), (usize, usize, usize, usize));

static GREATEST: [Dabbed; 7] = [
    (true, (160, 160), (33, 287, 33, 287)),
    (false, (160, 160), (33, 287, 33, 287)),
    (true, (-100, 160), (0, 27, 81, 239)),
    (false, (-100, 400), (0, 27, 273, 319)),
    (false, (-127, -127), (0, 0, 0, 0)),
    (false, (-128, 0), (320, 0, 320, 0)),
    (true, (i32::MAX, i32::MIN), (320, 0, 320, 0)),
];

/// Tiles of five by five, without those at the corners.
const NO_CORNERS: [[bool; 5]; 5] = [
    [false, true, true, true, false],
    [true; 5],
    [true; 5],
    [true; 5],
    [false, true, true, true, false],
];

/// The pixels of a canvas of 320 by 320 after a command.
fn drawn_on_blank(rt: &impl Abort, alloc: Global, command: &Draw) -> Vec<Pixel> {
    let mut pixels = vec![in alloc; CLEAR; 102_400].expect(rt, "memory");
    draw_pixels(alloc, command, 320, 320, &mut pixels).expect(rt, "memory");
    pixels
}

/// The pixels that a dab of the greatest size leaves.
fn greatest(rt: &impl Abort, alloc: Global, round: bool, at: (i32, i32)) -> Vec<Pixel> {
    let command = red_dabs(rt, alloc, round, at, &[dab(0, 0, 255, 255)]);
    let pixels = drawn_on_blank(rt, alloc, &command);
    drop(command);
    pixels
}

/// The test ends if this doesn't hold of a row of a table.
fn check(rt: &impl Abort, holds: bool, table: &str, place: usize) {
    assert!(rt; holds, "{table}: {place}");
}

#[test]
fn dabs_of_the_greatest_size_are_clipped(rt: HostRuntime) {
    for (k, (round, at, want)) in GREATEST.iter().enumerate() {
        let pixels = greatest(&rt, rt.alloc(), *round, *at);
        check(&rt, painted(&pixels, 320) == *want, "greatest", k);
        let has_corners = painted_tiles(&pixels) != NO_CORNERS;
        drop(pixels);
        check(&rt, !(*round && at.0 == 160 && has_corners), "corners", k);
    }
}

#[test]
fn dabs_stand_by_the_sums_of_their_differences(rt: HostRuntime) {
    let red = of_argb(RED);
    let half = pixel(&rt, (16448, 0, 0, 16448));
    let list = [
        dab(1, 0, 1, 255),
        dab(2, 1, 1, 128),
        dab(-3, 0, 1, 255),
        dab(0, 0, 0, 255),
    ];
    let command = red_dabs(&rt, rt.alloc(), false, (0, 0), &list);
    let want = [CLEAR, red, CLEAR, CLEAR, red, CLEAR, CLEAR, half];
    drawn(&rt, rt.alloc(), &command, 4, 2, &[CLEAR; 8], &want);
    drop(command);
}

/// A move's column, its width and where to, and the letters of the three pixels after it.
static MOVES: [(u32, u32, (i32, i32), [u8; 4]); 7] = [
    (0, 2, (1, 0), *b".RB|"),
    (0, 2, (-1, 0), *b"B..|"),
    (0, 2, (0, 0), *b"RB.|"),
    (0, 2, (0, 1), *b"...|"),
    (1, 4_294_967_295, (0, 0), *b"B..|"),
    (3, 1, (0, 0), *b"RB.|"),
    (1, 1, (i32::MIN, i32::MAX), *b"R..|"),
];

#[test]
fn moves_blend_on_what_they_leave_clear(rt: HostRuntime) {
    let (red, blue) = (of_argb(RED), of_argb(BLUE));
    let before = [red, blue, CLEAR];
    for (sx, w, to, letters) in &MOVES {
        let want = pixels_of(*letters);
        let command = move_of(*sx, *w, *to);
        drawn(&rt, rt.alloc(), &command, 3, 1, &before, &want[..3]);
        drop(command);
    }
}

/// Where a tile is put, how often it is repeated, and which tiles it paints, of two by two.
static PUTS: [(u16, u16, u16, [bool; 4]); 6] = [
    (0, 0, 0, [true, false, false, false]),
    (0, 0, 1, [true, true, false, false]),
    (1, 0, 1, [false, true, true, false]),
    (1, 0, 65_535, [false, true, true, true]),
    (2, 0, 9, [false; 4]),
    (0, 2, 9, [false; 4]),
];

/// The tiles of a canvas of 65 by 128 that are painted are these.
fn paints_tiles(pixels: &[Pixel], put: Pixel, want: &[bool; 4]) -> bool {
    let mut same = true;
    for (k, pixel) in pixels.iter().enumerate() {
        let tile = k / 4160 % 2 * 2 + k % 65 / 64;
        same = same && (*pixel == put) == want[tile];
    }
    same
}

#[test]
fn tiles_are_put_row_by_row(rt: HostRuntime) {
    let content = TilePixel {
        r: 5,
        g: 0,
        b: 0,
        a: 7,
    };
    let put = pixel(&rt, (5, 0, 0, 7));
    for (k, (col, row, repeat, want)) in PUTS.iter().enumerate() {
        let command = put_tile(*col, *row, *repeat, TileContent::Solid(content));
        let pixels = drawn_on_strip(&rt, rt.alloc(), &command);
        drop(command);
        check(&rt, paints_tiles(&pixels, put, want), "puts", k);
    }
}

/// The pixels of a canvas of 65 by 128 after a command.
fn drawn_on_strip(rt: &impl Abort, alloc: Global, command: &Draw) -> Vec<Pixel> {
    let mut pixels = vec![in alloc; CLEAR; 8320].expect(rt, "memory");
    draw_pixels(alloc, command, 65, 128, &mut pixels).expect(rt, "memory");
    pixels
}

/// A tile with a pixel of 1, 2, 3, 4 at 65, one that is no pixel at 66, and clear ones elsewhere.
fn two_pixels(rt: &impl Abort, alloc: Global) -> TilePixels {
    let clear = TilePixel {
        r: 0,
        g: 0,
        b: 0,
        a: 0,
    };
    let mut tile = vec![in alloc; clear; 4096].expect(rt, "memory");
    tile[65] = TilePixel {
        r: 1,
        g: 2,
        b: 3,
        a: 4,
    };
    tile[66] = TilePixel {
        r: 5,
        g: 0,
        b: 0,
        a: 4,
    };
    TilePixels::from_vec(tile)
}

/// The pixels of a red canvas of 128 by 64 on which a tile of pixels is put twice.
fn put_twice(rt: &impl Abort, alloc: Global) -> Vec<Pixel> {
    let content = TileContent::Pixels(two_pixels(rt, alloc));
    let command = put_tile(0, 0, 1, content);
    let mut pixels = vec![in alloc; of_argb(RED); 8192].expect(rt, "memory");
    let drawn = draw_pixels(alloc, &command, 128, 64, &mut pixels);
    drop(command);
    drawn.expect(rt, "memory");
    pixels
}

#[test]
fn a_tile_of_pixels_is_put_again(rt: HostRuntime) {
    let put = pixel(&rt, (1, 2, 3, 4));
    let pixels = put_twice(&rt, rt.alloc());
    for (k, pixel) in pixels.iter().enumerate() {
        let want = match k {
            129 | 193 => put,
            130 | 194 => of_argb(RED),
            _ => CLEAR,
        };
        check(&rt, *pixel == want, "a tile", k);
    }
}

/// A fill's mode, where it is, and its colour.
type Fill = (u8, (u32, u32, u32, u32), u32);

/// A fill on four red pixels leaves these.
fn check_fill(rt: &impl Abort, alloc: Global, (mode, at, color): Fill, want: &[Pixel; 4]) {
    let command = fill(mode, at, color);
    drawn(rt, alloc, &command, 2, 2, &[of_argb(RED); 4], want);
    drop(command);
}

#[test]
fn fills_blend_where_they_cover(rt: HostRuntime) {
    let red = of_argb(RED);
    let half = pixel(&rt, (16320, 0, 0, 16320));
    let faded = [red, half, red, half];
    check_fill(&rt, rt.alloc(), (0, (1, 0, 1, 9), 0x8012_3456), &faded);
    let below = (1, (0, 1, 4_294_967_295, 4_294_967_295), BLUE);
    check_fill(&rt, rt.alloc(), below, &pixels_of(*b"RRBB"));
    check_fill(&rt, rt.alloc(), (3, (0, 0, 2, 2), BLUE), &[red; 4]);
    check_fill(&rt, rt.alloc(), (255, (2, 0, 1, 1), BLUE), &[red; 4]);
}

#[test]
fn images_blend_where_they_cover(rt: HostRuntime) {
    let colors = Vec::from_slice(rt.alloc(), &[BLUE, RED, 0, BLUE]).expect(&rt, "memory");
    let image = Draw::PutImage {
        layer: 1,
        mode: 1,
        x: 1,
        y: 0,
        w: 2,
        h: 2,
        colors: Colors::from_vec(colors),
    };
    let (before, want) = (pixels_of(*b"RRRR"), pixels_of(*b"RBRR"));
    drawn(&rt, rt.alloc(), &image, 2, 2, &before, &want);
    drop(image);
}

#[test]
fn a_window_is_drawn_within_its_stride(rt: HostRuntime) {
    let command = fill(1, (0, 2, 3, 9), RED);
    let red = of_argb(RED);
    let region = Region {
        x: 1,
        y: 1,
        width: 3,
        height: 2,
        canvas_width: 4,
        canvas_height: 4,
    };
    let mut pixels = [CLEAR; 10];
    draw_region(&command, &region, 4, &mut pixels);
    check_window(&rt, &command, red);
    drop(command);
    for (k, pixel) in pixels.iter().enumerate() {
        check(&rt, (*pixel == red) == (k == 4 || k == 5), "a window", k);
    }
}

/// What a fill in red covers, and leaves of single pixels.
fn check_window(rt: &impl Abort, command: &Draw, red: Pixel)
    requires { is_stamp command.now ≡ true }
{
    assert!(rt; pixel_after(command, 2, 2, CLEAR) == red);
    assert!(rt; pixel_after(command, 3, 2, CLEAR) == CLEAR);
    assert!(rt; covers(command, 0, 10));
    assert!(rt; !covers(command, -1, 2));
}
