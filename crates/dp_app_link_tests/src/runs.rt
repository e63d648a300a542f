//! Runs of the program on given wires, with new counters, a new store, and a gate that holds
//! nobody.

ghost use Rattle.std.specs.Prelude.{◌≡◌, ◌<◌};

use dp_app::drawpile;
use dp_io::{MemSink, MemSource};
use dp_keeper::{Rows, SureKeeper};
use dp_steps::Steps;
use dp_wire::{OpenGate, Wire};
use std::alloc::{AllocError, Global};
use std::marker::Brand;
use std::sync::Wait;
use std::sync::ledger::{Blank, Ledger};
use std::thread::Threads;

/// What a painter reads, and where the program prints and says things.
#[derive(Drop)]
pub(crate) struct Streams {
    pub input: MemSource,
    pub output: MemSink,
    pub diag: MemSink,
}

/// The words of a text.
pub(crate) fn words_of(alloc: Global, text: &str) -> Result<Vec<String>, AllocError> {
    let mut words = Vec::new(alloc);
    for word in text.split_whitespace() {
        words.push(String::from_str(alloc, word)?)?;
    }
    Ok(words)
}

/// Runs the program on these wires: its status.
pub(crate) fn status_of<R: Threads + Wait + Sync, W: Wire + Send + Drop>(
    rt: &R,
    alloc: Global,
    words: &[String],
    wires: Vec<W>,
    streams: &mut Streams,
) -> u8 {
    let (draws, tiles) = (Blank::new(1), Blank::new(1));
    counted::<R, W, Brand, Brand>(rt, alloc, words, wires, streams, draws, tiles)
}

/// Runs the program with counters over these blanks.
fn counted<R: Threads + Wait + Sync, W: Wire + Send + Drop, D: Ledger + Send, T: Ledger + Send>(
    rt: &R,
    alloc: Global,
    words: &[String],
    wires: Vec<W>,
    streams: &mut Streams,
    draws: Blank,
    tiles: Blank,
) -> u8
    requires draws { (draws.name ≡ D.name) × (draws.parts ≡ D.parts) × (0 < draws.parts) }
    requires tiles { (tiles.name ≡ T.name) × (tiles.parts ≡ T.parts) × (0 < tiles.parts) }
{
    let (status, wires, keeper) = drawpile(
        rt,
        alloc,
        words,
        &mut streams.input,
        &mut streams.output,
        &mut streams.diag,
        wires,
        SureKeeper::new(Rows::new(alloc)),
        &OpenGate,
        &mut Steps::<D>::new(draws),
        &mut Steps::<T>::new(tiles),
    )
    .into_parts();
    drop(wires);
    drop(keeper);
    status
}
