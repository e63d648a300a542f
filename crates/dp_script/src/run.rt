//! The run over the lines of a source.

use crate::held::do_piece;
use crate::rest::do_rest;
use dp_io::{Failed, Source};
use dp_line_machine::{LineMachine, LineRunner, ScriptEnd};
use dp_lines::{Lines, further_step, lines_seen, still_left};
use std::alloc::Global;

/// Reads a piece of at most 4096 bytes, and does each line that is whole then.
pub struct Script;

impl LineRunner for Script {
    fn run_lines<I: Source, O, D, T, M: LineMachine<O, D, T>>(
        alloc: Global,
        limit: usize,
        input: &mut I,
        machine: &mut M,
        output: &mut O,
        draws: &mut D,
        tiles: &mut T,
    ) -> ScriptEnd<M::End> {
        further_step::<M>();
        still_left();
        lines_seen();
        let mut lines = Lines::new(alloc);
        let mut buffer = [0; 4096];
        let mut room = limit;
        'reads: loop {
            let count = match input.read(&mut buffer) {
                Ok(count) => count,
                Err(Failed) => return ScriptEnd::ReadFault,
            };
            if count == 0 {
                if let Err(end) = do_rest(&mut lines, machine, output, draws, tiles) {
                    return end;
                }
                return ScriptEnd::Done;
            }
            let counted = count.min(room);
            let piece = &buffer[..counted];
            if let Err(end) = do_piece(&mut lines, machine, piece, output, draws, tiles) {
                return end;
            }
            if counted < count {
                return ScriptEnd::Long;
            }
            room -= counted;
        }
    }
}
