//! Trials of a row: its links with each damage in turn.

use crate::program::RunsRow;
use crate::running::{Tried, answer_to};
use dp_row_texts::{Answer, Row, put_answer, put_numbered, put_parts};
use dp_row_trials::{Trial, trials_of};
use std::alloc::{AllocError, Global};

/// Runs the trials of a row, if it has a table, in each length of pieces. Adds how many there are,
/// and what each gives that gives anything else than is due.
pub fn put_tried<P: RunsRow>(
    program: &P,
    alloc: Global,
    row: &Row,
    out: &mut Vec<u8>,
) -> Result<(), AllocError>
    requires { P.ready program.now }
{
    if row.table.is_empty() {
        return Ok(());
    }
    for piece in &row.pieces {
        put_tried_in(program, alloc, row, *piece, out)?;
    }
    Ok(())
}

/// The same in one length of pieces.
fn put_tried_in<P: RunsRow>(
    program: &P,
    alloc: Global,
    row: &Row,
    piece: u64,
    out: &mut Vec<u8>,
) -> Result<(), AllocError>
    requires { P.ready program.now }
{
    let trials = trials_of(alloc, row, piece as usize)?;
    put_trials(program, alloc, row, &trials, piece, out)
}

/// Runs trials, and adds how many they are.
fn put_trials<P: RunsRow>(
    program: &P,
    alloc: Global,
    row: &Row,
    trials: &[Trial],
    piece: u64,
    out: &mut Vec<u8>,
) -> Result<(), AllocError>
    requires { P.ready program.now }
{
    for trial in trials {
        put_trial(program, alloc, row, trial, piece, out)?;
    }
    put_numbered(b"tried ", trials.len() as u64, b" links", out)?;
    put_numbered(b" in pieces of ", piece, b"\n", out)
}

/// Runs a trial.
fn put_trial<P: RunsRow>(
    program: &P,
    alloc: Global,
    row: &Row,
    trial: &Trial,
    piece: u64,
    out: &mut Vec<u8>,
) -> Result<(), AllocError>
    requires { P.ready program.now }
{
    let more = None;
    let answer = answer_to(program, alloc, Tried { row, piece, more }, &trial.wires)?;
    put_difference(trial, &answer, out)
}

/// Adds what a trial gives, if it is anything else than is due.
fn put_difference(trial: &Trial, answer: &Answer, out: &mut Vec<u8>) -> Result<(), AllocError> {
    if answer.same(&trial.due) {
        return Ok(());
    }
    put_parts(&[b"differs at ", &trial.name, b"\n"], out)?;
    put_answer(answer, out)?;
    put_parts(&[b"due\n"], out)?;
    put_answer(&trial.due, out)
}
