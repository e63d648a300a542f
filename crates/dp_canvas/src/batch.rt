//! Commands that are drawn on a canvas by workers.

ghost use Rattle.std.specs.Prelude.{◌≡◌, ◌+◌, ◌<◌, ◌≤◌, true, All, IfOk, IfSome, OnOk, OnErr};
ghost use Rattle.std.specs.Prelude.{length, take, sum_by};
ghost use Rattle.dp_board.specs.Counts.{CountsFew};
ghost use Rattle.dp_canvas.specs.Batches.{PaintsOn};
ghost use Rattle.dp_pixels.specs.Feet.{reach};
ghost use Rattle.dp_plain.specs.Commands.{draw_all};

use crate::canvas::Canvas;
use dp_board::Board;
use dp_msg_draw::Draw;
use dp_paint::paint;
use dp_par::Workers;
use dp_pixels::pixels_stay_pixels;
use dp_plain::{BoardView, known_commands, runs_change_one_layer};
use dp_steps::Steps;
use dp_wire::Gate;
use std::alloc::AllocError;
use std::sync::ledger::Ledger;
use std::thread::Threads;

/// How many of the first commands paint on one layer, and the layer.
#[derive(Clone, Copy)]
struct Run {
    layer: u16,
    count: usize,
}

/// The layer on whose pixels a command paints, each from the old one at its place.
fn layer_of(command: &Draw) -> Option<u16>
    ensures { IfSome result (λ layer. PaintsOn layer command.now) }
{
    match command {
        Draw::PutImage { layer, .. }
        | Draw::FillRect { layer, .. }
        | Draw::PutTile { layer, .. }
        | Draw::DabsRound { layer, .. }
        | Draw::DabsSquare { layer, .. } => Some(*layer),
        _ => None,
    }
}

/// Whether a command paints on the layer.
fn paints_on(command: &Draw, layer: u16) -> bool
    ensures { result ≡ true → PaintsOn layer command.now }
{
    match layer_of(command) {
        Some(other) => other == layer,
        None => false,
    }
}

/// How many of the first commands paint on the layer.
fn count_on(ops: &[Draw], layer: u16) -> usize
    ensures within { result ≤ length ops.now }
    ensures on { All (PaintsOn layer) (take result ops.now) }
{
    let mut count = 0;
    'commands: while count < ops.len() && paints_on(&ops[count], layer) {
        count += 1;
    }
    count
}

/// The first commands that paint on one layer: how many, and the layer.
fn first_run(ops: &[Draw]) -> Run
    requires { 0 < length ops.now }
    ensures within { result.count ≤ length ops.now }
    ensures on { All (PaintsOn result.layer) (take result.count ops.now) }
{
    match layer_of(&ops[0]) {
        Some(layer) => Run {
            layer,
            count: count_on(ops, layer),
        },
        None => Run { layer: 0, count: 0 },
    }
}

/// Counts `count` draws.
fn count_draws<D: Ledger>(draws: &mut Steps<D>, count: usize)
    ensures { draws.new ≡ draws.old + count }
{
    for _drawn in 0..count {
        draws.tick();
    }
}

/// Paints commands on the layer that they paint on, by workers.
fn paint_layer<R: Threads + Sync, G: Gate, T: Ledger>(
    rt: &R,
    canvas: &mut Canvas,
    layer: u16,
    run: &[Draw],
    workers: &Workers<'_, G>,
    tiles: &mut Steps<T>,
) -> Result<(), AllocError>
    requires on { All (PaintsOn layer) run.now }
    ensures board { OnOk result (canvas.new ≡ draw_all canvas.old run.now) }
    ensures tiles_rise { tiles.old ≤ tiles.new }
    ensures few_tiles { tiles.new ≤ tiles.old + sum_by reach run.now }
{
    runs_change_one_layer();
    pixels_stay_pixels();
    known_commands(run);
    canvas.known();
    canvas.known_pixels();
    let (width, height) = (canvas.width(), canvas.height());
    let Some(grid) = canvas.grid(layer) else {
        return Ok(());
    };
    let painted = paint(rt, grid, width, height, run, workers, tiles)?;
    canvas.put_grid(layer, painted);
    Ok(())
}

/// Draws the next command, or with it those after it that paint on the same layer. Gives how many.
fn draw_next<R: Threads + Sync, G: Gate, D: Ledger, T: Ledger>(
    rt: &R,
    canvas: &mut Canvas,
    ops: &[Draw],
    workers: &Workers<'_, G>,
    draws: &mut Steps<D>,
    tiles: &mut Steps<T>,
) -> Result<usize, AllocError>
    requires some { 0 < length ops.now }
    ensures within { IfOk result (λ count. (1 ≤ count) × (count ≤ length ops.now)) }
    ensures board { IfOk result (λ count. canvas.new ≡ draw_all canvas.old (take count ops.now)) }
    ensures draws { IfOk result (λ count. draws.new ≡ draws.old + count) }
    ensures err_draws { OnErr result (draws.new ≡ draws.old) }
    ensures tiles_rise { tiles.old ≤ tiles.new }
    ensures few_tiles { IfOk result (λ count.
        tiles.new ≤ tiles.old + sum_by reach (take count ops.now)) }
    ensures err_tiles { OnErr result (tiles.new ≤ tiles.old + sum_by reach ops.now) }
{
    let Run { layer, count } = first_run(ops);
    if count < 2 {
        canvas.draw(&ops[0], draws, tiles)?;
        return Ok(1);
    }
    paint_layer(rt, canvas, layer, &ops[..count], workers, tiles)?;
    count_draws(draws, count);
    Ok(count)
}

/// Draws commands in order.
///
/// # Errors
///
/// Some of them are drawn.
pub(crate) fn draw_in_order<R: Threads + Sync, G: Gate, D: Ledger, T: Ledger>(
    rt: &R,
    canvas: &mut Canvas,
    ops: &[Draw],
    workers: &Workers<'_, G>,
    draws: &mut Steps<D>,
    tiles: &mut Steps<T>,
) -> Result<(), AllocError>
    ensures board { OnOk result (canvas.new ≡ draw_all canvas.old ops.now) }
    ensures draws { OnOk result (draws.new ≡ draws.old + length ops.now) }
    ensures counts { CountsFew reach ops.now draws.old draws.new tiles.old tiles.new }
{
    let mut from = 0;
    'runs: while from < ops.len() {
        from += draw_next(rt, canvas, &ops[from..], workers, draws, tiles)?;
    }
    Ok(())
}
