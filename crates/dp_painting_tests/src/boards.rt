//! The canvas, the board with fills that wait and the plain board, on the same commands.

ghost use Rattle.std.specs.Prelude.{◌≡◌, ◌<◌};

use dp_blend::Pixel;
use dp_board::Board;
use dp_canvas::{Canvas, DeferredBoard};
use dp_layered::PlainBoard;
use dp_msg_draw::{Draw, is_listed, read_draw};
use dp_par::Workers;
use dp_plain::BoardView;
use dp_steps::Steps;
use dp_wire::OpenGate;
use std::alloc::Global;
use std::marker::Brand;
use std::process::Abort;
use std::sync::ledger::{Blank, Ledger};
use std::thread::Threads;

/// A layer, a place on it, and the channels that are expected there.
type Place = (u16, u32, u32, Option<[u16; 4]>);

/// Commands, each a kind and its payload, and what they make of the empty board: its sides, its
/// background, each row's id and parent, and pixels of layers, each at a place.
struct Case {
    commands: &'static [&'static [u8]],
    sides: (u32, u32),
    background: u32,
    rows: &'static [(u16, u16)],
    pixels: &'static [Place],
}

const TWO_BY_ONE: &[u8] = b"\x81\0\0\0\0\0\0\0\x02\0\0\0\x01\0\0\0\0";

const LAYER: &[u8] = b"\x82\x01\x01\0\0\0";

const LAYER_2: &[u8] = b"\x82\x01\x02\0\0\0";

const GROUP: &[u8] = b"\x82\x02\x00\0\0\x01";

const RED_0: &[u8] = b"\x89\x01\x01\x01\0\0\0\0\0\0\0\0\0\0\0\x01\0\0\0\x01\xff\xff\0\0";

const BLUE_1: &[u8] = b"\x89\x01\x01\x01\0\0\0\x01\0\0\0\0\0\0\0\x01\0\0\0\x01\xff\0\0\xff";

const RED: Option<[u16; 4]> = Some([32768, 0, 0, 32768]);

const BLUE: Option<[u16; 4]> = Some([0, 0, 32768, 32768]);

const CLEAR: Option<[u16; 4]> = Some([0, 0, 0, 0]);

const GREEN: Option<[u16; 4]> = Some([0, 32768, 0, 32768]);

const WHITE: Option<[u16; 4]> = Some([32768; 4]);

/// A canvas of 66 by 3.
const STRIP: &[u8] = b"\x81\0\0\0\0\0\0\0B\0\0\0\x03\0\0\0\0";

/// A white pixel at (1, 1).
const DOT: &[u8] = b"\x89\x01\x01\x01\0\0\0\x01\0\0\0\x01\0\0\0\x01\0\0\0\x01\xff\xff\xff\xff";

/// A canvas of three tiles by two, the last of which are 2 wide and 6 high.
const SIX_TILES: &[u8] = b"\x81\0\0\0\0\0\0\0\x82\0\0\0F\0\0\0\0";

/// A red fill from (60, 60) on, 10 by 8, on four tiles.
const FILL_CORNERS: &[u8] = b"\x89\x01\x01\x01\0\0\0<\0\0\0<\0\0\0\x0a\0\0\0\x08\xff\xff\0\0";

/// Two square dabs in blue, 4 by 4, from (62, 62) and from (124, 62) on.
const DABS_ACROSS: &[u8] = b"\x96\x01\x01\0\0\0@\0\0\0@\0\0\xff\x01\0\0\x04\xff>\0\x04\xff";

/// A round dab in green: x from 127 to 129, y from -1 to 1.
const DAB_AT_THE_TOP: &[u8] = b"\x95\x01\x01\0\0\0\x80\0\0\0\0\0\xff\0\x01\0\0\x03\xff";

/// An image of 2 by 1 from (63, 0) on: red and blue.
const IMAGE_ACROSS: &[u8] =
    b"\x88\x01\x01\x01\0\0\0?\0\0\0\0\0\0\0\x02\0\0\0\x01\xff\xff\0\0\xff\0\0\xff";

/// A fill that erases (64, 0).
const ERASED: &[u8] = b"\x89\x01\x01\0\0\0\0@\0\0\0\0\0\0\0\x01\0\0\0\x01\xff\xff\0\0";

/// The pixels from (60, 60) on, 4 by 4, go to (66, 2).
const MOVED: &[u8] = b"\x98\x01\x01\0\0\0<\0\0\0<\0\0\0\x04\0\0\0\x04\0\0\0B\0\0\0\x02";

/// A white fill from (0, 63) on, 2 by 2.
const FILL_DOWN: &[u8] = b"\x89\x01\x01\x01\0\0\0\0\0\0\0?\0\0\0\x02\0\0\0\x02\xff\xff\xff\xff";

/// The last tile, in green.
const TILE: &[u8] = b"\x92\x01\x01\0\x02\0\x01\0\0\0\0\0\x80\0\0\0\x80\0";

/// A square dab that erases from (128, 64) on, 2 by 2.
const DAB_THAT_ERASES: &[u8] = b"\x96\x01\x01\0\0\0\x81\0\0\0A\0\0\0\0\0\0\x02\xff";

/// The pixels from (64, 64) on, 2 by 2, go to (-1, -1).
const MOVED_PAST: &[u8] =
    b"\x98\x01\x01\0\0\0@\0\0\0@\0\0\0\x02\0\0\0\x02\xff\xff\xff\xff\xff\xff\xff\xff";

/// Round dabs in red at (1, 63) and (1, 64).
const DABS_DOWN: &[u8] = b"\x95\x01\x01\0\0\0\x01\0\0\0?\xff\0\0\x01\0\0\x01\xff\0\x01\x01\xff";

/// A white pixel at (127, 64), by Replace.
const PIXEL: &[u8] = b"\x88\x01\x01\xff\0\0\0\x7f\0\0\0@\0\0\0\x01\0\0\0\x01\xff\xff\xff\xff";

/// A pixel of each of the tiles that is moved to its own place changes nothing. What waits on the
/// tile is painted before it.
const SETTLES_0: &[u8] = b"\x98\x01\x01\0\0\0\0\0\0\0\0\0\0\0\x01\0\0\0\x01\0\0\0\0\0\0\0\0";

const SETTLES_1: &[u8] = b"\x98\x01\x01\0\0\0@\0\0\0\0\0\0\0\x01\0\0\0\x01\0\0\0@\0\0\0\0";

const SETTLES_2: &[u8] = b"\x98\x01\x01\0\0\0\x80\0\0\0\0\0\0\0\x01\0\0\0\x01\0\0\0\x80\0\0\0\0";

const SETTLES_3: &[u8] = b"\x98\x01\x01\0\0\0\0\0\0\0@\0\0\0\x01\0\0\0\x01\0\0\0\0\0\0\0@";

const SETTLES_4: &[u8] = b"\x98\x01\x01\0\0\0@\0\0\0@\0\0\0\x01\0\0\0\x01\0\0\0@\0\0\0@";

const SETTLES_5: &[u8] = b"\x98\x01\x01\0\0\0\x80\0\0\0@\0\0\0\x01\0\0\0\x01\0\0\0\x80\0\0\0@";

/// Ten places after all of these.
const PLACES: &[Place] = &[
    (0x0101, 60, 60, CLEAR),
    (0x0101, 66, 2, RED),
    (0x0101, 69, 5, BLUE),
    (0x0101, 64, 0, CLEAR),
    (0x0101, 0, 0, BLUE),
    (0x0101, 66, 66, RED),
    (0x0101, 1, 64, RED),
    (0x0101, 127, 64, WHITE),
    (0x0101, 129, 0, GREEN),
    (0x0101, 128, 66, GREEN),
];

/// The channels of a pixel.
fn channels(pixel: Pixel) -> [u16; 4] {
    [pixel.r(), pixel.g(), pixel.b(), pixel.a()]
}

/// The command of a kind and a payload.
fn command(rt: &impl Abort, alloc: Global, bytes: &[u8]) -> Draw {
    let (kind, payload) = bytes.split_first().expect(rt, "a kind");
    assert!(rt; is_listed(*kind));
    read_draw(alloc, *kind, payload)
        .ok()
        .expect(rt, "a command")
}

/// Draws the commands of a case on a board, and looks at it.
fn draws<B: Board<Op = Draw> + BoardView, D: Ledger, T: Ledger>(
    rt: &impl Abort,
    alloc: Global,
    mut board: B,
    (number, case): (usize, &Case),
    draws: &mut Steps<D>,
    tiles: &mut Steps<T>,
) {
    for bytes in case.commands {
        let command = command(rt, alloc, bytes);
        check(rt, !B::apart(&command, &command), number, "a command", 0);
        let copy = B::copy_op(alloc, &command);
        drop(command);
        draw(rt, &mut board, copy.expect(rt, "memory"), draws, tiles);
    }
    let shared = board.share(draws, tiles).expect(rt, "memory");
    looks_so(rt, &shared, (number, case));
    drop(board);
    drop(shared);
}

/// Draws a command on a board.
fn draw<B: Board<Op = Draw>, D: Ledger, T: Ledger>(
    rt: &impl Abort,
    board: &mut B,
    command: Draw,
    draws: &mut Steps<D>,
    tiles: &mut Steps<T>,
) {
    let drawn = board.draw(&command, draws, tiles);
    drop(command);
    drawn.expect(rt, "memory");
}

/// The commands of a case.
fn commands_of(rt: &impl Abort, alloc: Global, case: &Case) -> Vec<Draw> {
    let mut commands = Vec::new(alloc);
    for bytes in case.commands {
        commands
            .push(command(rt, alloc, bytes))
            .expect(rt, "memory");
    }
    commands
}

/// Draws the commands of a case on a canvas as one batch, by `count` workers, and looks at it.
fn draws_batch<R: Threads + Sync + Abort, D: Ledger, T: Ledger>(
    rt: &R,
    alloc: Global,
    count: u32,
    (number, case): (usize, &Case),
    draws: &mut Steps<D>,
    tiles: &mut Steps<T>,
) {
    let batch = commands_of(rt, alloc, case);
    let gate = &OpenGate;
    let mut canvas = Canvas::new(alloc);
    let drawn = canvas.draw_batch(rt, &batch, &Workers { count, gate }, draws, tiles);
    drop(batch);
    drawn.expect(rt, "memory");
    looks_so(rt, &canvas, (number, case));
    drop(canvas);
}

/// The test ends if this doesn't hold of a place of the case with this number.
fn check(rt: &impl Abort, holds: bool, number: usize, what: &str, place: usize) {
    assert!(rt; holds, "{what} {place} of case {number}");
}

/// The board looks as the case of this number says.
fn looks_so<B: BoardView>(rt: &impl Abort, board: &B, (number, case): (usize, &Case)) {
    let has_sides = (board.width(), board.height()) == case.sides;
    check(
        rt,
        has_sides && board.background() == case.background,
        number,
        "sides",
        0,
    );
    has_rows(rt, board, case.rows, number);
    has_pixels(rt, board, case.pixels, number);
}

/// The board has rows of these ids and parents.
fn has_rows<B: BoardView>(rt: &impl Abort, board: &B, rows: &[(u16, u16)], number: usize) {
    check(
        rt,
        board.rows().len() == rows.len(),
        number,
        "rows",
        rows.len(),
    );
    for (k, (row, (id, parent))) in board.rows().iter().zip(rows).enumerate() {
        check(rt, row.id == *id && row.parent == *parent, number, "row", k);
    }
}

/// The board has these pixels.
fn has_pixels<B: BoardView>(rt: &impl Abort, board: &B, pixels: &[Place], number: usize) {
    for (k, (id, x, y, expected)) in pixels.iter().enumerate() {
        let is_so = board.pixel(*id, *x, *y).map(channels) == *expected;
        check(rt, is_so, number, "pixel", k);
    }
}

/// Rows of layers and groups, with commands on layers that have effect and that don't. Commands on
/// pixels, one of each kind, and several on tiles.
static CASES: [Case; 13] = [
    Case {
        commands: &[],
        sides: (0, 0),
        background: 0,
        rows: &[],
        pixels: &[(0x0101, 0, 0, None)],
    },
    // A second layer of the same id, and one below a layer, have no effect; a layer below a
    // group has.
    Case {
        commands: &[
            TWO_BY_ONE,
            GROUP,
            LAYER,
            LAYER,
            b"\x82\x01\x03\x01\x01\0",
            b"\x82\x01\x02\x02\0\0",
            RED_0,
        ],
        sides: (2, 1),
        background: 0,
        rows: &[(0x0200, 0), (0x0101, 0), (0x0102, 0x0200)],
        pixels: &[
            (0x0101, 0, 0, RED),
            (0x0101, 1, 0, CLEAR),
            (0x0101, 2, 0, None),
            (0x0102, 0, 0, CLEAR),
            (0x0200, 0, 0, None),
        ],
    },
    // A layer goes to the prefix of the list; the other goes into a group, and is resized with
    // it.
    Case {
        commands: &[
            TWO_BY_ONE,
            LAYER,
            LAYER_2,
            GROUP,
            RED_0,
            b"\x85\x01\x02\0\0\0\0",
            b"\x85\x01\x01\x02\0\x02\0",
            b"\x81\0\0\0\0\0\0\0\0\0\0\0\0\0\0\0\x01",
        ],
        sides: (3, 1),
        background: 0,
        rows: &[(0x0102, 0), (0x0200, 0), (0x0101, 0x0200)],
        pixels: &[
            (0x0101, 0, 0, CLEAR),
            (0x0101, 1, 0, RED),
            (0x0101, 2, 0, CLEAR),
        ],
    },
    // A group is deleted with what stands in it; a background is set.
    Case {
        commands: &[
            TWO_BY_ONE,
            GROUP,
            b"\x82\x01\x02\x02\0\0",
            LAYER,
            b"\x83\x01\x01\x80\x09\x01",
            b"\x84\x01\x01Hi",
            b"\x86\x02\0",
            b"\x93\xff\0\xff\0",
        ],
        sides: (2, 1),
        background: 0xff00_ff00,
        rows: &[(0x0101, 0)],
        pixels: &[(0x0102, 0, 0, None)],
    },
    // An image of two colours, and a tile of one pixel over all.
    Case {
        commands: &[
            TWO_BY_ONE,
            LAYER,
            LAYER_2,
            b"\x88\x01\x01\x01\0\0\0\0\0\0\0\0\0\0\0\x02\0\0\0\x01\xff\xff\0\0\xff\0\0\xff",
            b"\x92\x01\x02\0\0\0\0\0\0\0\x80\0\0\0\0\0\x80\0",
        ],
        sides: (2, 1),
        background: 0,
        rows: &[(0x0101, 0), (0x0102, 0)],
        pixels: &[
            (0x0101, 0, 0, RED),
            (0x0101, 1, 0, BLUE),
            (0x0102, 0, 0, RED),
            (0x0102, 1, 0, RED),
        ],
    },
    // Dabs of size 1: a round one at 0 and a square one at 1.
    Case {
        commands: &[
            TWO_BY_ONE,
            LAYER,
            b"\x95\x01\x01\0\0\0\0\0\0\0\0\xff\0\0\x01\0\0\x01\xff",
            b"\x96\x01\x01\0\0\0\0\0\0\0\0\0\0\xff\x01\x01\0\x01\xff",
        ],
        sides: (2, 1),
        background: 0,
        rows: &[(0x0101, 0)],
        pixels: &[(0x0101, 0, 0, RED), (0x0101, 1, 0, BLUE)],
    },
    // Red and blue move by one place.
    Case {
        commands: &[
            b"\x81\0\0\0\0\0\0\0\x03\0\0\0\x01\0\0\0\0",
            LAYER,
            RED_0,
            BLUE_1,
            b"\x98\x01\x01\0\0\0\0\0\0\0\0\0\0\0\x02\0\0\0\x01\0\0\0\x01\0\0\0\0",
        ],
        sides: (3, 1),
        background: 0,
        rows: &[(0x0101, 0)],
        pixels: &[
            (0x0101, 0, 0, CLEAR),
            (0x0101, 1, 0, RED),
            (0x0101, 2, 0, BLUE),
        ],
    },
    // A fill goes past the canvas.
    Case {
        commands: &[
            STRIP,
            LAYER,
            b"\x89\x01\x01\x01\0\0\0<\0\0\0\x01\0\0\0\x0a\0\0\0\x02\xff\xff\xff\xff",
        ],
        sides: (66, 3),
        background: 0,
        rows: &[(0x0101, 0)],
        pixels: &[
            (0x0101, 59, 1, CLEAR),
            (0x0101, 60, 1, WHITE),
            (0x0101, 65, 2, WHITE),
            (0x0101, 66, 2, None),
        ],
    },
    // A pixel moves to another tile.
    Case {
        commands: &[
            STRIP,
            LAYER,
            DOT,
            b"\x98\x01\x01\0\0\0\x01\0\0\0\x01\0\0\0\x01\0\0\0\x01\0\0\0A\0\0\0\x02",
        ],
        sides: (66, 3),
        background: 0,
        rows: &[(0x0101, 0)],
        pixels: &[
            (0x0101, 1, 1, CLEAR),
            (0x0101, 65, 2, WHITE),
            (0x0101, 64, 2, CLEAR),
        ],
    },
    // The canvas grows by a column of tiles on the left, and by 1 above.
    Case {
        commands: &[STRIP, LAYER, DOT, b"\x81\0\0\0\x01\0\0\0\0\0\0\0\0\0\0\0@"],
        sides: (130, 4),
        background: 0,
        rows: &[(0x0101, 0)],
        pixels: &[(0x0101, 1, 1, CLEAR), (0x0101, 65, 2, WHITE)],
    },
    // Twelve commands that meet several tiles, some of which wait. In three orders each tile is
    // painted by what waits there.
    // The tiles are painted at the end, one after the other.
    Case {
        commands: &[
            SIX_TILES,
            LAYER,
            FILL_CORNERS,
            DABS_ACROSS,
            DAB_AT_THE_TOP,
            IMAGE_ACROSS,
            ERASED,
            MOVED,
            FILL_DOWN,
            TILE,
            DAB_THAT_ERASES,
            MOVED_PAST,
            DABS_DOWN,
            PIXEL,
            SETTLES_0,
            SETTLES_1,
            SETTLES_2,
            SETTLES_3,
            SETTLES_4,
            SETTLES_5,
        ],
        sides: (130, 70),
        background: 0,
        rows: &[(0x0101, 0)],
        pixels: PLACES,
    },
    // The last tile is painted first.
    Case {
        commands: &[
            SIX_TILES,
            LAYER,
            FILL_CORNERS,
            DABS_ACROSS,
            DAB_AT_THE_TOP,
            IMAGE_ACROSS,
            ERASED,
            MOVED,
            FILL_DOWN,
            TILE,
            DAB_THAT_ERASES,
            MOVED_PAST,
            DABS_DOWN,
            PIXEL,
            SETTLES_5,
            SETTLES_4,
            SETTLES_3,
            SETTLES_2,
            SETTLES_1,
            SETTLES_0,
        ],
        sides: (130, 70),
        background: 0,
        rows: &[(0x0101, 0)],
        pixels: PLACES,
    },
    // Those of the middle column are painted half way, and the others at the end, by columns.
    Case {
        commands: &[
            SIX_TILES,
            LAYER,
            FILL_CORNERS,
            DABS_ACROSS,
            DAB_AT_THE_TOP,
            IMAGE_ACROSS,
            ERASED,
            MOVED,
            SETTLES_4,
            SETTLES_1,
            FILL_DOWN,
            TILE,
            DAB_THAT_ERASES,
            MOVED_PAST,
            DABS_DOWN,
            PIXEL,
            SETTLES_2,
            SETTLES_5,
            SETTLES_0,
            SETTLES_3,
        ],
        sides: (130, 70),
        background: 0,
        rows: &[(0x0101, 0)],
        pixels: PLACES,
    },
];

/// Pairs of commands, each a kind and its payload, and whether they are apart, in either order.
static PAIRS: [(&[u8], &[u8], bool); 10] = [
    // Touching by one pixel.
    (
        b"\x89\x01\x01\x01\0\0\0\0\0\0\0\0\0\0\0\x02\0\0\0\x01\xff\xff\0\0",
        b"\x89\x01\x01\x01\0\0\0\x01\0\0\0\0\0\0\0\x02\0\0\0\x01\xff\0\0\xff",
        false,
    ),
    // Side by side.
    (
        b"\x89\x01\x01\x01\0\0\0\0\0\0\0\0\0\0\0\x01\0\0\0\x01\xff\xff\0\0",
        b"\x89\x01\x01\x01\0\0\0\x01\0\0\0\0\0\0\0\x01\0\0\0\x01\xff\0\0\xff",
        true,
    ),
    // Fills at the same places of two layers.
    (
        b"\x89\x01\x01\x01\0\0\0\0\0\0\0\0\0\0\0\x03\0\0\0\x01\xff\xff\0\0",
        b"\x89\x01\x02\x01\0\0\0\0\0\0\0\0\0\0\0\x03\0\0\0\x01\xff\0\0\xff",
        true,
    ),
    // A MoveRect onto what the other fills.
    (
        b"\x98\x01\x01\0\0\0\0\0\0\0\0\0\0\0\x01\0\0\0\x01\0\0\0\x02\0\0\0\0",
        b"\x89\x01\x01\x01\0\0\0\x02\0\0\0\0\0\0\0\x01\0\0\0\x01\xff\0\0\xff",
        false,
    ),
    // A MoveRect from where the other fills.
    (
        b"\x98\x01\x01\0\0\0\0\0\0\0\0\0\0\0\x01\0\0\0\x01\0\0\0\x02\0\0\0\0",
        b"\x89\x01\x01\x01\0\0\0\0\0\0\0\0\0\0\0\x01\0\0\0\x01\xff\0\0\xff",
        false,
    ),
    // A MoveRect beside what the other fills.
    (
        b"\x98\x01\x01\0\0\0\0\0\0\0\0\0\0\0\x01\0\0\0\x01\0\0\0\x02\0\0\0\0",
        b"\x89\x01\x01\x01\0\0\0\x01\0\0\0\0\0\0\0\x01\0\0\0\x01\xff\0\0\xff",
        true,
    ),
    // Dabs around the pixel of the other.
    (
        b"\x96\x01\x01\0\0\0\0\0\0\0\0\0\0\xff\x01\0\0\x01\xff\x02\0\x01\xff",
        b"\x89\x01\x01\x01\0\0\0\x01\0\0\0\0\0\0\0\x01\0\0\0\x01\xff\xff\0\0",
        false,
    ),
    // A tile, and the pixel beside it.
    (
        b"\x92\x01\x01\0\0\0\0\0\0\0\0\0\0\0\0\0\x80\0",
        b"\x89\x01\x01\x01\0\0\0@\0\0\0\0\0\0\0\x01\0\0\0\x01\xff\xff\0\0",
        true,
    ),
    // Two tiles, and a pixel of the second.
    (
        b"\x92\x01\x01\0\0\0\0\0\x01\0\0\0\0\0\0\0\x80\0",
        b"\x89\x01\x01\x01\0\0\0@\0\0\0\0\0\0\0\x01\0\0\0\x01\xff\xff\0\0",
        false,
    ),
    // A layer that is made, and a fill of it.
    (
        LAYER,
        b"\x89\x01\x01\x01\0\0\0\0\0\0\0\0\0\0\0\x01\0\0\0\x01\xff\xff\0\0",
        false,
    ),
];

/// Draws the cases on each kind of board, and on a canvas in batches, with counters over these
/// blanks.
fn on_all_boards<R: Threads + Sync + Abort, D: Ledger, T: Ledger>(
    rt: &R,
    alloc: Global,
    draw_blank: Blank,
    tile_blank: Blank,
)
    requires draws { (draw_blank.name ≡ D.name) × (draw_blank.parts ≡ D.parts)
        × (0 < draw_blank.parts) }
    requires tiles { (tile_blank.name ≡ T.name) × (tile_blank.parts ≡ T.parts)
        × (0 < tile_blank.parts) }
{
    let mut drawn = Steps::<D>::new(draw_blank);
    let mut made = Steps::<T>::new(tile_blank);
    for case in CASES.iter().enumerate() {
        let plain = PlainBoard::new(alloc);
        draws(rt, alloc, plain, case, &mut drawn, &mut made);
        let canvas = Canvas::new(alloc);
        draws(rt, alloc, canvas, case, &mut drawn, &mut made);
        let deferred = DeferredBoard::new(alloc);
        draws(rt, alloc, deferred, case, &mut drawn, &mut made);
        draws_batch(rt, alloc, 1, case, &mut drawn, &mut made);
        draws_batch(rt, alloc, 7, case, &mut drawn, &mut made);
    }
}

#[test]
fn commands_on_all_boards(rt: HostRuntime) {
    on_all_boards::<HostRuntime, Brand, Brand>(&rt, rt.alloc(), Blank::new(1), Blank::new(1));
}

#[test]
fn pairs_are_apart(rt: HostRuntime) {
    let alloc = rt.alloc();
    for (k, (first, second, apart)) in PAIRS.iter().enumerate() {
        let (a, b) = (command(&rt, alloc, first), command(&rt, alloc, second));
        check(&rt, Canvas::apart(&a, &b) == *apart, k, "a pair", 0);
        check(&rt, Canvas::apart(&b, &a) == *apart, k, "a pair", 1);
        check(&rt, PlainBoard::apart(&a, &b) == *apart, k, "a pair", 2);
        drop(a);
        drop(b);
    }
}
