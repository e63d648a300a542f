//! Worked pictures, with the bytes that they have to give.

ghost use Rattle.std.specs.Prelude.{◌≡◌, ◌<◌};

use dp_blend::to8;
use dp_board::Board;
use dp_flat::{flatten, write_p3, write_p6};
use dp_io::MemSink;
use dp_layered::PlainBoard;
use dp_msg_draw::{Draw, Title};
use dp_plain::BoardView;
use dp_shown::PictureEnd;
use dp_steps::Steps;
use std::alloc::Global;
use std::marker::Brand;
use std::process::Abort;
use std::sync::ledger::{Blank, Ledger};

const RED: u32 = 0xffff_0000;

const BLUE: u32 = 0xff00_00ff;

pub(crate) fn resize(right: i32, bottom: i32) -> Draw {
    Draw::CanvasResize {
        top: 0,
        right,
        bottom,
        left: 0,
    }
}

pub(crate) fn create(alloc: Global, id: u16, parent: u16, group: bool) -> Draw {
    Draw::LayerCreate {
        id,
        parent,
        group,
        title: Title::new(alloc),
    }
}

fn fill(layer: u16, color: u32) -> Draw {
    Draw::FillRect {
        layer,
        mode: 1,
        x: 0,
        y: 0,
        w: 1,
        h: 1,
        color,
    }
}

fn attr(id: u16, opacity: u8, mode: u8, hidden: bool) -> Draw {
    Draw::LayerAttr {
        id,
        opacity,
        mode,
        hidden,
    }
}

/// Draws a command on a board.
pub(crate) fn draw<D: Ledger, T: Ledger>(
    rt: &impl Abort,
    board: &mut PlainBoard,
    command: Draw,
    draws: &mut Steps<D>,
    tiles: &mut Steps<T>,
) {
    let drawn = board.draw(&command, draws, tiles);
    drop(command);
    drawn.expect(rt, "memory");
}

/// A board of these sides with a background.
fn board_of<D: Ledger, T: Ledger>(
    rt: &impl Abort,
    alloc: Global,
    (right, bottom, color): (i32, i32, u32),
    draws: &mut Steps<D>,
    tiles: &mut Steps<T>,
) -> PlainBoard {
    let mut board = PlainBoard::new(alloc);
    draw(rt, &mut board, resize(right, bottom), draws, tiles);
    draw(rt, &mut board, Draw::Background { color }, draws, tiles);
    board
}

/// A sink without faults, which takes so many bytes in pieces of this length.
pub(crate) fn sink_of(rt: &impl Abort, alloc: Global, room: usize, piece: usize) -> MemSink
    requires { 0 < piece }
{
    MemSink::new(alloc, room, piece, Vec::new(alloc)).expect(rt, "memory")
}

/// Opacities and modes of a group and of a red and a blue layer in it, and whether the group is
/// hidden. Then the colour of the picture's one pixel, over green.
type Group = ([u8; 3], [u8; 3], bool, [u8; 3]);

static GROUPS: [Group; 6] = [
    ([255, 255, 255], [1, 1, 1], false, [0, 0, 255]),
    ([255, 255, 255], [1, 1, 1], true, [0, 255, 0]),
    ([128, 255, 255], [1, 1, 1], false, [0, 127, 128]),
    ([255, 255, 128], [1, 1, 1], false, [127, 0, 128]),
    ([255, 255, 0], [1, 1, 255], false, [0, 255, 0]),
    ([0, 255, 255], [255, 1, 1], false, [255, 255, 255]),
];

/// The bytes of a board's one pixel.
fn only_pixel(rt: &impl Abort, board: &PlainBoard) -> [u8; 3] {
    assert!(rt; (board.width(), board.height()) == (1, 1));
    let pixel = flatten(board, 0, 0);
    [to8(pixel.r()), to8(pixel.g()), to8(pixel.b())]
}

/// Looks at a picture of one pixel.
fn check_pixel(rt: &impl Abort, alloc: Global, board: &PlainBoard, want: [u8; 3]) {
    assert!(rt; only_pixel(rt, board) == want);
    let mut sink = sink_of(rt, alloc, 40, 5);
    assert!(rt; write_p6(alloc, board, &mut sink) == Ok(()));
    assert!(rt; sink.as_slice().starts_with(b"P6\n1 1\n255\n"));
    assert!(rt; sink.as_slice().ends_with(&want));
    drop(sink);
}

/// Adds the rows of a group: the group, and in it a red and a blue layer.
fn add_rows<D: Ledger, T: Ledger>(
    rt: &impl Abort,
    alloc: Global,
    board: &mut PlainBoard,
    draws: &mut Steps<D>,
    tiles: &mut Steps<T>,
) {
    draw(rt, board, create(alloc, 1, 0, true), draws, tiles);
    draw(rt, board, create(alloc, 2, 1, false), draws, tiles);
    draw(rt, board, create(alloc, 3, 1, false), draws, tiles);
    draw(rt, board, fill(2, RED), draws, tiles);
    draw(rt, board, fill(3, BLUE), draws, tiles);
}

/// Sets the attributes of the rows of a group.
fn set_rows<D: Ledger, T: Ledger>(
    rt: &impl Abort,
    board: &mut PlainBoard,
    (opacity, mode, hidden, _): &Group,
    draws: &mut Steps<D>,
    tiles: &mut Steps<T>,
) {
    let group = attr(1, opacity[0], mode[0], *hidden);
    draw(rt, board, group, draws, tiles);
    let red = attr(2, opacity[1], mode[1], false);
    draw(rt, board, red, draws, tiles);
    let blue = attr(3, opacity[2], mode[2], false);
    draw(rt, board, blue, draws, tiles);
}

/// Groups over a background.
fn check_groups<D: Ledger, T: Ledger>(
    rt: &impl Abort,
    alloc: Global,
    draws: &mut Steps<D>,
    tiles: &mut Steps<T>,
) {
    for group in &GROUPS {
        let mut board = board_of(rt, alloc, (1, 1, 0xff00_ff00), draws, tiles);
        add_rows(rt, alloc, &mut board, draws, tiles);
        set_rows(rt, &mut board, group, draws, tiles);
        check_pixel(rt, alloc, &board, group.3);
        drop(board);
    }
}

/// A picture of lines.
fn check_lines<D: Ledger, T: Ledger>(
    rt: &impl Abort,
    alloc: Global,
    draws: &mut Steps<D>,
    tiles: &mut Steps<T>,
) {
    let board = board_of(rt, alloc, (2, 1, 0x80ff_0000), draws, tiles);
    let mut sink = sink_of(rt, alloc, 60, 7);
    let written = write_p3(alloc, &board, &mut sink);
    drop(board);
    assert!(rt; written == Ok(()));
    let lines = b"P3\n2 1\n255\n255 127 127\n255 127 127\n".as_slice();
    assert!(rt; sink.as_slice() == lines);
    drop(sink);
}

/// A picture whose sink fails at its second write. Rows of four pixels share a piece: the head and
/// 4094 rows are in the first.
fn check_failing<D: Ledger, T: Ledger>(
    rt: &impl Abort,
    alloc: Global,
    draws: &mut Steps<D>,
    tiles: &mut Steps<T>,
) {
    let board = board_of(rt, alloc, (4, 4096, 0xff01_0203), draws, tiles);
    let fails = Vec::from_slice(alloc, &[2]).expect(rt, "memory");
    let mut sink = MemSink::new(alloc, 60_000, 60_000, fails).expect(rt, "memory");
    let written = write_p6(alloc, &board, &mut sink);
    drop(board);
    assert!(rt; written == Err(PictureEnd::Failed));
    assert!(rt; sink.as_slice().len() == 14 + 4 * 3 * 4094);
    drop(sink);
}

/// Looks at pictures with counters over these blanks.
fn check_pictures<D: Ledger, T: Ledger>(
    rt: &impl Abort,
    alloc: Global,
    draw_blank: Blank,
    tile_blank: Blank,
)
    requires draws { (draw_blank.name ≡ D.name) × (draw_blank.parts ≡ D.parts)
        × (0 < draw_blank.parts) }
    requires tiles { (tile_blank.name ≡ T.name) × (tile_blank.parts ≡ T.parts)
        × (0 < tile_blank.parts) }
{
    let mut draws = Steps::<D>::new(draw_blank);
    let mut tiles = Steps::<T>::new(tile_blank);
    check_groups(rt, alloc, &mut draws, &mut tiles);
    check_lines(rt, alloc, &mut draws, &mut tiles);
    check_failing(rt, alloc, &mut draws, &mut tiles);
}

#[test]
fn pictures(rt: HostRuntime) {
    check_pictures::<Brand, Brand>(&rt, rt.alloc(), Blank::new(1), Blank::new(1));
}
