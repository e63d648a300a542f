//! Worked pixels, each byte and mode there and back, and rows beside the plain loops.

ghost use Rattle.std.specs.Prelude.{◌≡◌, ◌<◌, ◌≤◌, ◌↔◌, All, true};

use crate::colors::pixel;
use dp_blend::{
    Mode, ONE, Pixel, blend, fade, from8, of_argb, rgb_on_white, row_blend, row_fill, row_merge,
    row_on_white, to8,
};
use std::process::Abort;

const MODES: [Mode; 6] = [
    Mode::Erase,
    Mode::Normal,
    Mode::Multiply,
    Mode::Add,
    Mode::Recolor,
    Mode::Replace,
];

/// Numbers of which some are at an end of their range.
const PARTS: [u16; 6] = [0, 1, 32767, 32768, 16448, 20001];

/// Channels and an alpha.
type Parts = (u16, u16, u16, u16);

/// What a half green gives over a half red in each mode.
static BLENDS: [(Mode, Parts); 6] = [
    (Mode::Erase, (12288, 0, 0, 12288)),
    (Mode::Normal, (12288, 8192, 0, 20480)),
    (Mode::Multiply, (12288, 4096, 0, 20480)),
    (Mode::Add, (16384, 8192, 0, 20480)),
    (Mode::Recolor, (12288, 4096, 0, 16384)),
    (Mode::Replace, (0, 8192, 0, 8192)),
];

/// The test ends if this doesn't hold in a mode, of so many pixels or at such a number.
fn check(rt: &impl Abort, holds: bool, mode: Mode, at: usize) {
    assert!(rt; holds, "{mode:?} at {at}");
}

#[test]
fn blends_in_each_mode(rt: HostRuntime) {
    let src = pixel(&rt, (0, 8192, 0, 8192));
    let dst = pixel(&rt, (16384, 0, 0, 16384));
    for (mode, want) in &BLENDS {
        check(&rt, blend(*mode, src, dst) == pixel(&rt, *want), *mode, 1);
    }
}

/// Colours with their channels and alphas.
static COLORS: [(u32, Parts); 4] = [
    (0x80ff_0000, (16448, 0, 0, 16448)),
    (0xffff_ffff, (32768, 32768, 32768, 32768)),
    (0x00ff_ffff, (0, 0, 0, 0)),
    (0xff01_0203, (129, 257, 386, 32768)),
];

/// The pixel has these bytes.
fn has_bytes(pixel: Pixel, bytes: (u8, u8, u8)) -> bool {
    (to8(pixel.r()), to8(pixel.g()), to8(pixel.b())) == bytes
}

#[test]
fn blends_a_half_red_on_white(rt: HostRuntime) {
    for (color, parts) in &COLORS {
        assert!(rt; of_argb(*color) == pixel(&rt, *parts));
    }
    let white = of_argb(0xffff_ffff);
    let shown = blend(Mode::Normal, of_argb(0x80ff_0000), white);
    assert!(rt; has_bytes(shown, (0xff, 0x7f, 0x7f)));
}

#[test]
fn clear_and_white(rt: HostRuntime) {
    assert!(rt; of_argb(0xffff_ffff) == Pixel::WHITE);
    assert!(rt; of_argb(0x00ff_ffff) == Pixel::default());
    assert!(rt; of_argb(0x00ff_ffff) == Pixel::CLEAR);
}

/// A row of five pixels: four are put at a time, and then the last one.
#[test]
fn puts_the_bytes_of_a_row_on_white(rt: HostRuntime) {
    let row = [
        of_argb(0x80ff_0000),
        Pixel::CLEAR,
        of_argb(0xff01_0203),
        Pixel::WHITE,
        of_argb(0x8000_0000),
    ];
    let mut bytes = [[0; 3]; 5];
    row_on_white(&row, &mut bytes);
    let want = [
        [0xff, 0x7f, 0x7f],
        [0xff, 0xff, 0xff],
        [1, 2, 3],
        [0xff, 0xff, 0xff],
        [0x7f, 0x7f, 0x7f],
    ];
    assert!(rt; bytes == want);
    assert!(rt; rgb_on_white(row[0]) == want[0]);
}

#[test]
fn takes_each_byte_to_a_channel_and_back(rt: HostRuntime) {
    for byte in 0..=255 {
        assert!(rt; to8(from8(byte)) == byte);
    }
    assert!(rt; (from8(0), from8(128), from8(255)) == (0, 16448, 32768));
}

/// The modes with their numbers.
static NUMBERED: [(u8, Mode); 6] = [
    (0, Mode::Erase),
    (1, Mode::Normal),
    (2, Mode::Multiply),
    (9, Mode::Add),
    (10, Mode::Recolor),
    (255, Mode::Replace),
];

/// Numbers of no mode.
static UNNUMBERED: [u8; 4] = [3, 8, 11, 254];

#[test]
fn numbers_the_modes(rt: HostRuntime) {
    for (number, mode) in &NUMBERED {
        assert!(rt; Mode::from_u8(*number) == Some(*mode));
        assert!(rt; mode.number() == *number);
    }
    for number in &UNNUMBERED {
        assert!(rt; Mode::from_u8(*number).is_none());
    }
}

/// Channels and an alpha, and whether they make a pixel.
static MADE: [(Parts, bool); 7] = [
    ((0, 0, 0, 0), true),
    ((32768, 0, 1, 32768), true),
    ((5, 4, 5, 5), true),
    ((6, 5, 5, 5), false),
    ((5, 6, 5, 5), false),
    ((5, 5, 6, 5), false),
    ((0, 0, 0, 32769), false),
];

#[test]
fn makes_pixels_within_their_alpha(rt: HostRuntime) {
    for ((r, g, b, a), want) in &MADE {
        assert!(rt; Pixel::new(*r, *g, *b, *a).is_some() == *want);
    }
}

#[test]
fn fades_a_pixel(rt: HostRuntime) {
    let made = pixel(&rt, (1, 2, 3, 4));
    assert!(rt; (made.r(), made.g(), made.b(), made.a()) == (1, 2, 3, 4));
    assert!(rt; fade(made, ONE) == made);
    assert!(rt; fade(made, ONE / 2) == pixel(&rt, (0, 1, 1, 2)));
}

/// What a half green gives over a half red through a whole mask and through a half one.
static MASKED: [(Mode, Parts, Parts); 2] = [
    (
        Mode::Normal,
        (12288, 8192, 0, 20480),
        (14328, 4112, 0, 18440),
    ),
    (Mode::Replace, (0, 8192, 0, 8192), (0, 4112, 0, 4112)),
];

#[test]
fn blends_a_row_through_a_mask(rt: HostRuntime) {
    let src = pixel(&rt, (0, 8192, 0, 8192));
    let dst = pixel(&rt, (16384, 0, 0, 16384));
    for (mode, whole, half) in &MASKED {
        let mut row = [dst; 3];
        row_blend(*mode, src, &[0, 32768, 16448], &mut row);
        let want = [dst, pixel(&rt, *whole), pixel(&rt, *half)];
        check(&rt, row == want, *mode, 3);
    }
}

/// A pixel of one of six alphas, whose channels are parts of it, none or all of it.
fn some_pixel(rt: &impl Abort, n: usize) -> Pixel {
    let a = PARTS[n % 6];
    pixel(rt, (a - a / 3, a / 2, if n % 4 < 2 { a } else { 0 }, a))
}

/// A row of some pixels, each of them `times` times.
fn some_row(rt: &impl Abort, times: usize) -> [Pixel; 70]
    requires { 0 < times }
{
    let mut row = [Pixel::CLEAR; 70];
    for n in 0..70 {
        row[n] = some_pixel(rt, n / times);
    }
    row
}

fn is_mask(mask: &[u16]) -> bool
    ensures { (result ≡ true) ↔ All (λ m. m ≤ 32768) mask.now }
{
    mask.iter().all(|m| *m <= 32768)
}

/// The rows have the same pixels.
fn is_same(row: &[Pixel; 70], want: &[Pixel; 70]) -> bool {
    row == want
}

/// Fills the prefix of a row, and a copy of it by the plain loop.
fn fill_both(rt: &impl Abort, mode: Mode, src: Pixel, len: usize)
    requires { len ≤ 70 }
{
    let mut row = some_row(rt, 1);
    let mut want = row;
    for n in 0..len {
        want[n] = blend(mode, src, want[n]);
    }
    row_fill(mode, src, &mut row[..len]);
    check(rt, is_same(&row, &want), mode, len);
}

#[test]
fn fills_rows_as_the_plain_loop_does(rt: HostRuntime) {
    for mode in MODES {
        for n in 0..24 {
            for len in 0..=70 {
                fill_both(&rt, mode, some_pixel(&rt, n), len);
            }
        }
    }
}

/// A mask that is one of six numbers throughout, or each of them six times in turn.
fn some_mask(kind: usize) -> [u16; 70] {
    let mut mask = [0; 70];
    for n in 0..70 {
        mask[n] = PARTS[if kind % 7 < 6 { kind % 7 } else { n / 6 % 6 }];
    }
    mask
}

/// The row whose prefix a pixel is blended on through the mask, by the plain loop.
fn plainly_blended(
    mode: Mode,
    src: Pixel,
    mask: &[u16; 70],
    row: [Pixel; 70],
    len: usize,
) -> [Pixel; 70]
    requires { len ≤ 70 }
{
    let mut want = row;
    for n in 0..len {
        if mask[n] > 0 && mask[n] <= ONE {
            want[n] = blend(mode, fade(src, mask[n]), want[n]);
        }
    }
    want
}

/// Blends the prefix of a row through a mask, and a copy of it by the plain loop.
fn blend_both(rt: &impl Abort, mode: Mode, kind: usize, len: usize)
    requires { len ≤ 70 }
{
    let src = some_pixel(rt, kind / 7);
    let mask = some_mask(kind);
    let mut row = some_row(rt, 1);
    let want = plainly_blended(mode, src, &mask, row, len);
    let mask = &mask[..len];
    assert!(rt; is_mask(mask));
    row_blend(mode, src, mask, &mut row[..len]);
    check(rt, is_same(&row, &want), mode, len);
}

#[test]
fn blends_rows_through_masks_as_the_plain_loop_does(rt: HostRuntime) {
    for mode in MODES {
        for kind in 0..42 {
            for len in 0..=70 {
                blend_both(&rt, mode, kind, len);
            }
        }
    }
}

/// Merges the prefix of two rows, and of copies by the plain loop.
fn merge_both(rt: &impl Abort, mode: Mode, by: u16, len: usize)
    requires opacity { by ≤ 32768 }
    requires len { len ≤ 70 }
{
    let sources = some_row(rt, 6);
    let mut row = some_row(rt, 1);
    let mut want = row;
    for n in 0..len {
        want[n] = blend(mode, fade(sources[n], by), want[n]);
    }
    row_merge(mode, by, &sources[..len], &mut row[..len]);
    check(rt, is_same(&row, &want), mode, len);
}

#[test]
fn merges_rows_as_the_plain_loop_does(rt: HostRuntime) {
    for mode in MODES {
        for by in PARTS {
            for len in 0..=70 {
                merge_both(&rt, mode, by.min(ONE), len);
            }
        }
    }
}
