//! A plain board that is shared, and the acts of a history.

ghost use Rattle.std.specs.Prelude.{◌≡◌, ◌<◌, true};
ghost use Rattle.dp_layers.specs.Layers.{is_paint_row};
ghost use Rattle.dp_layers.specs.Rows.{layers_of};

use dp_blend::{Pixel, of_argb};
use dp_board::{Act, Board};
use dp_layered::PlainBoard;
use dp_layers::rows_by_id;
use dp_messages::{Entry, Msg};
use dp_msg_draw::{Draw, Title};
use dp_plain::BoardView;
use dp_plain_replay::plain_replay;
use dp_replay::{act_of, is_command};
use dp_steps::Steps;
use std::alloc::Global;
use std::marker::Brand;
use std::process::Abort;
use std::sync::ledger::{Blank, Ledger};

const RED: u32 = 0xffff_0000;

/// How many commands make a canvas.
const COMMANDS: usize = 3;

/// The command at a place of those that make a canvas of 2 by 2 with a layer, whose upper left
/// pixel is red.
fn command_at(alloc: Global, place: usize) -> Draw {
    match place {
        0 => Draw::CanvasResize {
            top: 0,
            right: 2,
            bottom: 2,
            left: 0,
        },
        1 => Draw::LayerCreate {
            id: 1,
            parent: 0,
            group: false,
            title: Title::new(alloc),
        },
        _ => Draw::FillRect {
            layer: 1,
            mode: 1,
            x: 0,
            y: 0,
            w: 1,
            h: 1,
            color: RED,
        },
    }
}

/// Takes a counter at one.
fn is_one<L: Ledger>(_steps: &Steps<L>)
    requires { _steps.now ≡ 1 }
{}

/// The pixel's letter: R for red, a dot if it is clear.
fn letter(pixel: Pixel) -> char {
    match pixel {
        pixel if pixel == Pixel::CLEAR => '.',
        pixel if pixel == of_argb(RED) => 'R',
        _ => '?',
    }
}

/// The letters of the upper row of the pixels of a paint layer.
fn upper_row<B: BoardView>(rt: &impl Abort, alloc: Global, board: &B, id: u16) -> String
    requires paint { is_paint_row (layers_of (B.board board.now).rows) id ≡ true }
    requires high { 0 < (B.board board.now).height }
{
    let mut pixels = vec![in alloc; Pixel::CLEAR; board.width() as usize].expect(rt, "memory");
    board.copy_part(id, 0, 0, &mut pixels);
    let letters = pixels.iter().map(|pixel| letter(*pixel));
    letters.collect(alloc).expect(rt, "memory")
}

/// A board of one paint layer has these letters in the upper row of its pixels.
fn check_upper_row<B: BoardView>(rt: &impl Abort, alloc: Global, board: &B, want: &str) {
    rows_by_id();
    assert!(rt; board.height() > 0);
    let rows = board.rows();
    assert!(rt; rows.len() == 1);
    let row = &rows[0];
    assert!(rt; !row.group);
    assert!(rt; upper_row(rt, alloc, board, row.id).as_str() == want);
    assert!(rt; board.pixel(row.id, 0, 0).map(letter) == Some('R'));
    assert!(rt; board.pixel(row.id, 2, 0).is_none());
    assert!(rt; board.background() == 0);
}

/// Draws the commands on a board.
fn draw_all<B: Board<Op = Draw>, D: Ledger, T: Ledger>(
    rt: &impl Abort,
    alloc: Global,
    board: &mut B,
    draws: &mut Steps<D>,
    tiles: &mut Steps<T>,
) {
    for place in 0..COMMANDS {
        draw(rt, board, command_at(alloc, place), draws, tiles);
    }
}

/// A second board is equal, and stays as it is when the first one changes.
fn check_share<B: Board<Op = Draw> + BoardView, D: Ledger, T: Ledger>(
    rt: &impl Abort,
    alloc: Global,
    board: &mut B,
    draws: &mut Steps<D>,
    tiles: &mut Steps<T>,
) {
    draw_all(rt, alloc, board, draws, tiles);
    let other = board.share(draws, tiles).expect(rt, "memory");
    draw(rt, board, Draw::LayerDelete { id: 1 }, draws, tiles);
    check_upper_row(rt, alloc, &other, "R.");
    assert!(rt; board.rows().is_empty());
}

/// Draws a command on a board.
fn draw<B: Board<Op = Draw>, D: Ledger, T: Ledger>(
    rt: &impl Abort,
    board: &mut B,
    command: Draw,
    draws: &mut Steps<D>,
    tiles: &mut Steps<T>,
) {
    let drawn = board.draw(&command, draws, tiles);
    drop(command);
    drawn.expect(rt, "memory");
}

/// The entries of the commands.
fn entries_of(rt: &impl Abort, alloc: Global) -> Vec<Entry> {
    let mut entries = Vec::new(alloc);
    for place in 0..COMMANDS {
        let msg = Msg::Draw(command_at(alloc, place));
        entries.push(Entry { user: 1, msg }).expect(rt, "memory");
    }
    entries
}

/// The replay of the commands has a red pixel.
fn check_replay<D: Ledger, T: Ledger>(
    rt: &impl Abort,
    alloc: Global,
    draws: &mut Steps<D>,
    tiles: &mut Steps<T>,
) {
    let entries = entries_of(rt, alloc);
    let replayed = plain_replay(alloc, &entries, draws, tiles);
    drop(entries);
    check_upper_row(rt, alloc, &replayed.expect(rt, "memory"), "R.");
}

/// Draws on boards, and replays a history, with counters over these blanks.
fn check_boards<D: Ledger, T: Ledger>(rt: &impl Abort, alloc: Global, draws: Blank, tiles: Blank)
    requires draws_name { draws.name ≡ D.name }
    requires draws_parts { draws.parts ≡ D.parts }
    requires draws_some { 0 < draws.parts }
    requires tiles_name { tiles.name ≡ T.name }
    requires tiles_parts { tiles.parts ≡ T.parts }
    requires tiles_some { 0 < tiles.parts }
{
    let mut draws = Steps::<D>::new(draws);
    let mut tiles = Steps::<T>::new(tiles);
    let mut board = PlainBoard::new(alloc);
    let background = Draw::Background { color: 0 };
    let drawn = board.draw(&background, &mut draws, &mut tiles);
    drawn.expect(rt, "memory");
    is_one(&draws);
    check_share(rt, alloc, &mut board, &mut draws, &mut tiles);
    drop(board);
    check_replay(rt, alloc, &mut draws, &mut tiles);
}

#[test]
fn boards(rt: HostRuntime) {
    check_boards::<Brand, Brand>(&rt, rt.alloc(), Blank::new(1), Blank::new(1));
}

#[test]
fn acts(rt: HostRuntime) {
    let entry = Entry {
        user: 3,
        msg: Msg::Undo {
            target: 2,
            redo: false,
        },
    };
    let is_draw = is_command(&entry.msg);
    let act = act_of(&entry);
    drop(entry);
    assert!(rt; !is_draw);
    let act = act.expect(&rt, "memory");
    assert!(rt; matches!(&act, Act::Undo { who: 2 }));
    drop(act);
}
