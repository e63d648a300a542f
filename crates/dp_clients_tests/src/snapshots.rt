//! Worked boards, with the snapshots that they have to give.

ghost use Rattle.std.specs.Prelude.{◌≡◌, ◌<◌};

use dp_board::Board;
use dp_canvas::Canvas;
use dp_layered::PlainBoard;
use dp_msg_draw::{Draw, TileContent, TilePixel, TilePixels, Title, same_draw};
use dp_snap::snapshot;
use dp_steps::Steps;
use std::alloc::Global;
use std::marker::Brand;
use std::process::Abort;
use std::sync::ledger::{Blank, Ledger};

const RED: u32 = 0xffff_0000;

const RED_PIXEL: TilePixel = TilePixel {
    r: 0x8000,
    g: 0,
    b: 0,
    a: 0x8000,
};

const CLEAR_PIXEL: TilePixel = TilePixel {
    r: 0,
    g: 0,
    b: 0,
    a: 0,
};

/// A command in short. A tile is put in red, or clear with one red pixel at this place.
#[derive(Clone, Copy)]
enum Command {
    Resize(i32, i32),
    Background(u32),
    /// The id, the parent, and whether it is a group.
    Create(u16, u16, bool),
    /// Fills a rectangle of a layer.
    Fill(u16, (u32, u32, u32, u32)),
    /// The id, the parent, and the row above which it comes to stand.
    Hang(u16, u16, u16),
    /// Hides a row that gets another mode.
    Hide(u16),
    RedTile(u16, u16, u16),
    Dotted(u16, u16, usize),
}

use Command::*;

/// A clear tile with one red pixel.
fn dotted(rt: &impl Abort, alloc: Global, place: usize) -> TileContent {
    assert!(rt; place < 4096);
    let mut pixels = vec![in alloc; CLEAR_PIXEL; 4096].expect(rt, "memory");
    pixels[place] = RED_PIXEL;
    TileContent::Pixels(TilePixels::from_vec(pixels))
}

/// Puts a tile on a layer.
fn put_tile(layer: u16, col: u16, row: u16, content: TileContent) -> Draw {
    Draw::PutTile {
        layer,
        col,
        row,
        repeat: 0,
        content,
    }
}

/// Fills a rectangle of a layer with red.
fn fill(layer: u16, (x, y, w, h): (u32, u32, u32, u32)) -> Draw {
    Draw::FillRect {
        layer,
        mode: 1,
        x,
        y,
        w,
        h,
        color: RED,
    }
}

/// The command.
fn draw_of(rt: &impl Abort, alloc: Global, command: Command) -> Draw {
    match command {
        Resize(right, bottom) => Draw::CanvasResize {
            top: 0,
            right,
            bottom,
            left: 0,
        },
        Background(color) => Draw::Background { color },
        Create(id, parent, group) => Draw::LayerCreate {
            id,
            parent,
            group,
            title: Title::new(alloc),
        },
        Fill(layer, rect) => fill(layer, rect),
        Hang(id, parent, above) => Draw::LayerMove { id, parent, above },
        Hide(id) => Draw::LayerAttr {
            id,
            opacity: 128,
            mode: 10,
            hidden: true,
        },
        RedTile(layer, col, row) => put_tile(layer, col, row, TileContent::Solid(RED_PIXEL)),
        Dotted(col, row, place) => put_tile(1, col, row, dotted(rt, alloc, place)),
    }
}

/// The test ends if this doesn't hold of a command of a snapshot.
fn check(rt: &impl Abort, holds: bool, case: usize, place: usize) {
    assert!(rt; holds, "command {place} of case {case}");
}

/// Whether a command is this one.
fn is_command(rt: &impl Abort, alloc: Global, given: &Draw, want: Command) -> bool {
    let want = draw_of(rt, alloc, want);
    let is_same = same_draw(given, &want);
    drop(want);
    is_same
}

/// The snapshot has these commands.
fn check_commands(
    rt: &impl Abort,
    alloc: Global,
    given: &[Draw],
    (case, want): (usize, &[Command]),
) {
    check(rt, given.len() == want.len(), case, want.len());
    for (k, (command, want)) in given.iter().zip(want).enumerate() {
        check(rt, is_command(rt, alloc, command, *want), case, k);
    }
}

/// Draws a command on a board.
fn draw_on<B: Board<Op = Draw>, D: Ledger, T: Ledger>(
    rt: &impl Abort,
    board: &mut B,
    command: &Draw,
    draws: &mut Steps<D>,
    tiles: &mut Steps<T>,
) {
    board.draw(command, draws, tiles).expect(rt, "memory");
}

/// The canvas that commands make.
fn canvas_of<D: Ledger, T: Ledger>(
    rt: &impl Abort,
    alloc: Global,
    commands: &[Command],
    draws: &mut Steps<D>,
    tiles: &mut Steps<T>,
) -> Canvas {
    let mut canvas = Canvas::new(alloc);
    for command in commands {
        let command = draw_of(rt, alloc, *command);
        draw_on(rt, &mut canvas, &command, draws, tiles);
        drop(command);
    }
    canvas
}

/// The plain board that a snapshot makes.
fn board_of<D: Ledger, T: Ledger>(
    rt: &impl Abort,
    alloc: Global,
    snapshot: &[Draw],
    draws: &mut Steps<D>,
    tiles: &mut Steps<T>,
) -> PlainBoard {
    let mut board = PlainBoard::new(alloc);
    for command in snapshot {
        draw_on(rt, &mut board, command, draws, tiles);
    }
    board
}

/// Commands on an empty canvas, and the snapshot of the board that they give.
static CASES: [(&[Command], &[Command]); 6] = [
    // An empty canvas.
    (&[], &[]),
    // One colour on a canvas, with a layer without any.
    (
        &[
            Resize(2, 1),
            Create(1, 0, false),
            Create(2, 0, false),
            Fill(2, (0, 0, 2, 1)),
            Background(0x80ff),
        ],
        &[
            Resize(2, 1),
            Background(0x80ff),
            Create(1, 0, false),
            Create(2, 0, false),
            RedTile(2, 0, 0),
        ],
    ),
    // Groups in groups, a row before its group, and a hidden row of another mode.
    (
        &[
            Resize(1, 1),
            Create(1, 0, true),
            Create(2, 1, true),
            Create(3, 2, false),
            Create(4, 0, false),
            Hang(4, 1, 0),
            Hide(3),
            Fill(3, (0, 0, 1, 1)),
        ],
        &[
            Resize(1, 1),
            Create(4, 0, false),
            Create(1, 0, true),
            Create(2, 0, true),
            Create(3, 0, false),
            Hang(4, 1, 0),
            Hang(2, 1, 1),
            Hang(3, 2, 2),
            Hide(3),
            RedTile(3, 0, 0),
        ],
    ),
    // One pixel of a canvas of two.
    (
        &[Resize(2, 1), Create(1, 0, false), Fill(1, (0, 0, 1, 1))],
        &[Resize(2, 1), Create(1, 0, false), Dotted(0, 0, 0)],
    ),
    // Four tiles, of which three have one column or one row: the last is filled.
    (
        &[Resize(65, 65), Create(1, 0, false), Fill(1, (64, 64, 1, 1))],
        &[Resize(65, 65), Create(1, 0, false), RedTile(1, 1, 1)],
    ),
    // Such tiles, of which the first has a clear pixel.
    (
        &[
            Resize(65, 65),
            Create(1, 0, false),
            Fill(1, (0, 64, 65, 1)),
            Fill(1, (64, 2, 1, 1)),
        ],
        &[
            Resize(65, 65),
            Create(1, 0, false),
            Dotted(1, 0, 128),
            RedTile(1, 0, 1),
            RedTile(1, 1, 1),
        ],
    ),
];

/// The commands on an empty canvas give a board of this snapshot, and so does that snapshot on an
/// empty plain board.
fn check_snapshot<D: Ledger, T: Ledger>(
    rt: &impl Abort,
    alloc: Global,
    commands: &[Command],
    want: (usize, &[Command]),
    draws: &mut Steps<D>,
    tiles: &mut Steps<T>,
) {
    let canvas = canvas_of(rt, alloc, commands, draws, tiles);
    let given = snapshot(alloc, &canvas).expect(rt, "memory");
    drop(canvas);
    check_commands(rt, alloc, given.as_slice(), want);
    let board = board_of(rt, alloc, given.as_slice(), draws, tiles);
    drop(given);
    let again = snapshot(alloc, &board).expect(rt, "memory");
    drop(board);
    check_commands(rt, alloc, again.as_slice(), want);
    drop(again);
}

/// Looks at snapshots with counters over these blanks.
fn check_snapshots<D: Ledger, T: Ledger>(
    rt: &impl Abort,
    alloc: Global,
    draw_blank: Blank,
    tile_blank: Blank,
)
    requires draws { (draw_blank.name ≡ D.name) × (draw_blank.parts ≡ D.parts)
        × (0 < draw_blank.parts) }
    requires tiles { (tile_blank.name ≡ T.name) × (tile_blank.parts ≡ T.parts)
        × (0 < tile_blank.parts) }
{
    let mut draws = Steps::<D>::new(draw_blank);
    let mut tiles = Steps::<T>::new(tile_blank);
    for (k, (commands, want)) in CASES.iter().enumerate() {
        check_snapshot(rt, alloc, commands, (k, *want), &mut draws, &mut tiles);
    }
}

#[test]
fn snapshots(rt: HostRuntime) {
    check_snapshots::<Brand, Brand>(&rt, rt.alloc(), Blank::new(1), Blank::new(1));
}
