//! Pictures whose rows of tiles are drawn by workers, and tiles that they paint.

ghost use Rattle.std.specs.Prelude.{◌≡◌, ◌<◌};

use crate::pictures::{create, draw, resize, sink_of};
use dp_blend::{Pixel, of_argb};
use dp_canvas::Canvas;
use dp_flat::{write_p6, write_p6_by};
use dp_layered::PlainBoard;
use dp_msg_draw::Draw;
use dp_par::Workers;
use dp_plain::BoardView;
use dp_steps::Steps;
use dp_wire::Gate;
use std::alloc::Global;
use std::marker::Brand;
use std::process::Abort;
use std::sync::atomic::{AtomicU64, Ordering};
use std::sync::ledger::{Blank, Ledger};
use std::thread;
use std::thread::Threads;

/// How often the first row of tiles looks whether the second one has passed before it gives up.
const TURNS: u32 = 200_000;

/// A gate that holds the first of the rows of tiles that are drawn together until the second one
/// has passed.
#[derive(Drop)]
struct Held {
    passed: AtomicU64,
    gave_up: AtomicU64,
}

impl Gate for Held {
    fn pass(&self, who: u32, _n: u64) {
        if who == 1 {
            self.passed.store(1, Ordering::SeqCst);
        }
        if who == 0 {
            for _ in 0..TURNS {
                if self.passed.load(Ordering::SeqCst) == 1 {
                    return;
                }
                thread::yield_now();
            }
            self.gave_up.store(1, Ordering::SeqCst);
        }
    }
}

/// A rectangle of a colour, on the layer 1.
fn fill(x: u32, y: u32, w: u32, h: u32, color: u32) -> Draw {
    Draw::FillRect {
        layer: 1,
        mode: 1,
        x,
        y,
        w,
        h,
        color,
    }
}

/// Has this number of workers draw a picture of these bytes. Says whether the gate gave up.
fn gives_up<R: Threads + Sync + Abort>(
    rt: &R,
    alloc: Global,
    board: &PlainBoard,
    workers: u32,
    want: &[u8],
) -> bool {
    let gate = new_gate();
    let mut sink = sink_of(rt, alloc, 60_000, 60_000);
    assert!(rt; write_p6_by(rt, alloc, workers, &gate, board, &mut sink) == Ok(()));
    assert!(rt; sink.as_slice() == want);
    drop(sink);
    gate.gave_up.load(Ordering::SeqCst) == 1
}

/// A gate at which nothing has passed.
fn new_gate() -> Held {
    Held {
        passed: AtomicU64::new(0),
        gave_up: AtomicU64::new(0),
    }
}

/// A board of two rows of tiles, the last one cut, with two fills.
fn two_rows<D: Ledger, T: Ledger>(
    rt: &impl Abort,
    alloc: Global,
    draws: &mut Steps<D>,
    tiles: &mut Steps<T>,
) -> PlainBoard {
    let mut board = PlainBoard::new(alloc);
    draw(rt, &mut board, resize(70, 120), draws, tiles);
    draw(rt, &mut board, create(alloc, 1, 0, false), draws, tiles);
    let first = fill(3, 5, 66, 70, 0xff12_3456);
    draw(rt, &mut board, first, draws, tiles);
    let second = fill(0, 100, 70, 29, 0x8065_4321);
    draw(rt, &mut board, second, draws, tiles);
    board
}

/// A picture of a board of 70 by 120, by some numbers of workers. Both rows of tiles are drawn at
/// the same time if there are two workers or more.
fn check_picture<R: Threads + Sync + Abort>(rt: &R, alloc: Global, board: &PlainBoard) {
    let mut sink = sink_of(rt, alloc, 60_000, 60_000);
    assert!(rt; write_p6(alloc, board, &mut sink) == Ok(()));
    let want = sink.as_slice();
    assert!(rt; want.len() == 14 + 70 * 120 * 3);
    assert!(rt; gives_up(rt, alloc, board, 0, want));
    assert!(rt; gives_up(rt, alloc, board, 1, want));
    assert!(rt; !gives_up(rt, alloc, board, 2, want));
    assert!(rt; !gives_up(rt, alloc, board, 7, want));
    drop(sink);
}

/// A picture of two rows of tiles, with counters over these blanks.
fn check_workers<R: Threads + Sync + Abort, D: Ledger, T: Ledger>(
    rt: &R,
    alloc: Global,
    draw_blank: Blank,
    tile_blank: Blank,
)
    requires draws { (draw_blank.name ≡ D.name) × (draw_blank.parts ≡ D.parts)
        × (0 < draw_blank.parts) }
    requires tiles { (tile_blank.name ≡ T.name) × (tile_blank.parts ≡ T.parts)
        × (0 < tile_blank.parts) }
{
    let mut draws = Steps::<D>::new(draw_blank);
    let mut tiles = Steps::<T>::new(tile_blank);
    let board = two_rows(rt, alloc, &mut draws, &mut tiles);
    check_picture(rt, alloc, &board);
    drop(board);
}

/// Has `count` workers paint two fills in a batch, each on a tile of its own. Says whether the gate
/// gave up.
fn paints_in_turn<R: Threads + Sync + Abort, D: Ledger, T: Ledger>(
    rt: &R,
    alloc: Global,
    count: u32,
    draws: &mut Steps<D>,
    tiles: &mut Steps<T>,
) -> bool {
    let gate = new_gate();
    let batch = two_fills(alloc);
    let workers = Workers { count, gate: &gate };
    let mut canvas = Canvas::new(alloc);
    let drawn = canvas.draw_batch(rt, &batch, &workers, draws, tiles);
    drop(batch);
    drawn.expect(rt, "memory");
    check_fills(rt, &canvas);
    drop(canvas);
    gate.gave_up.load(Ordering::SeqCst) == 1
}

/// A canvas of two tiles with a layer, and a fill on each tile.
fn two_fills(alloc: Global) -> [Draw; 4] {
    [
        resize(64, 128),
        create(alloc, 1, 0, false),
        fill(0, 0, 5, 6, 0xff12_3456),
        fill(0, 64, 7, 8, 0xffff_ffff),
    ]
}

/// Three pixels of the canvas after both fills.
fn check_fills(rt: &impl Abort, canvas: &Canvas) {
    assert!(rt; canvas.pixel(1, 4, 5) == Some(of_argb(0xff12_3456)));
    assert!(rt; canvas.pixel(1, 5, 5) == Some(Pixel::CLEAR));
    assert!(rt; canvas.pixel(1, 6, 71) == Some(Pixel::WHITE));
}

/// Two tiles of a batch are painted at the same time if there are two workers or more.
fn check_batches<R: Threads + Sync + Abort, D: Ledger, T: Ledger>(
    rt: &R,
    alloc: Global,
    draw_blank: Blank,
    tile_blank: Blank,
)
    requires draws { (draw_blank.name ≡ D.name) × (draw_blank.parts ≡ D.parts)
        × (0 < draw_blank.parts) }
    requires tiles { (tile_blank.name ≡ T.name) × (tile_blank.parts ≡ T.parts)
        × (0 < tile_blank.parts) }
{
    let mut draws = Steps::<D>::new(draw_blank);
    let mut tiles = Steps::<T>::new(tile_blank);
    assert!(rt; paints_in_turn(rt, alloc, 0, &mut draws, &mut tiles));
    assert!(rt; paints_in_turn(rt, alloc, 1, &mut draws, &mut tiles));
    assert!(rt; !paints_in_turn(rt, alloc, 2, &mut draws, &mut tiles));
    assert!(rt; !paints_in_turn(rt, alloc, 7, &mut draws, &mut tiles));
}

#[test]
fn batches_by_workers(rt: HostRuntime) {
    check_batches::<HostRuntime, Brand, Brand>(&rt, rt.alloc(), Blank::new(1), Blank::new(1));
}

#[test]
fn pictures_by_workers(rt: HostRuntime) {
    check_workers::<HostRuntime, Brand, Brand>(&rt, rt.alloc(), Blank::new(1), Blank::new(1));
}
