//! Runs of rows over memory. A function that holds much has one end, so that what it lets go of is
//! proved once.

ghost use Rattle.std.specs.Prelude.{◌≤◌};

use crate::program::{RowLeft, RowRun, RowStreams, RunsRow};
use dp_io::MemSink;
use dp_keeper::MemKeeper;
use dp_row_texts::{Answer, Coming, Fail, Object, Row, put_parts};
use dp_row_wires::{
    LinkFails, RowGate, RowSource, RowWires, Sent, keeper_of, put_gate, put_kept, put_sent_on,
    wires_of,
};
use std::alloc::{AllocError, Global};

/// What is tried: a row in pieces of this length, with one more call that fails.
#[derive(Clone, Copy)]
pub struct Tried<'a> {
    pub row: &'a Row,
    pub piece: u64,
    pub more: Option<Fail>,
}

/// Runs a row over these links.
pub fn answer_to<P: RunsRow>(
    program: &P,
    alloc: Global,
    tried: Tried<'_>,
    links: &[Vec<Coming>],
) -> Result<Answer, AllocError>
    requires { P.ready program.now }
{
    let mut answer = Answer::new(alloc);
    put_answer_to(program, alloc, tried, links, &mut answer)?;
    Ok(answer)
}

/// Runs a row over these links, and puts what that gives into an answer.
fn put_answer_to<P: RunsRow>(
    program: &P,
    alloc: Global,
    tried: Tried<'_>,
    links: &[Vec<Coming>],
    answer: &mut Answer,
) -> Result<(), AllocError>
    requires { P.ready program.now }
{
    let streams = streams_of(alloc, tried)?;
    let keeper = store_of(alloc, tried)?;
    let wires = wires_over(alloc, tried, links)?;
    put_run(program, alloc, tried.row, streams, wires, keeper, answer)
}

/// Runs a row over these, and puts what that gives into an answer.
fn put_run<P: RunsRow>(
    program: &P,
    alloc: Global,
    row: &Row,
    mut streams: RowStreams<'_>,
    wires: RowWires,
    keeper: MemKeeper,
    answer: &mut Answer,
) -> Result<(), AllocError>
    requires { P.ready program.now }
{
    let RowWires { wires, sent } = wires;
    let gate = RowGate::new(row.hold);
    let run = RowRun {
        words: &row.words,
        wires,
        keeper,
        gate: &gate,
    };
    let left = program.run(alloc, run, &mut streams);
    answer.status = left.status;
    put_left(program, alloc, &left, &streams, &gate, &sent, answer)
}

/// Puts what a run left into an answer, also of the gate. Then a line if a pause was given up.
fn put_left<P: RunsRow>(
    program: &P,
    alloc: Global,
    left: &RowLeft<P::Reports>,
    streams: &RowStreams<'_>,
    gate: &RowGate,
    sent: &Sent,
    answer: &mut Answer,
) -> Result<(), AllocError> {
    answer.output.extend_from_slice(streams.output.as_slice())?;
    answer.said.extend_from_slice(streams.diag.as_slice())?;
    put_sent_on(&left.wires, &mut answer.sent)?;
    program.put_reports(alloc, &left.reports, &mut answer.left)?;
    put_kept(&left.keeper, &mut answer.left)?;
    put_gate(gate, &mut answer.left)?;
    if sent.gave_up() > 0 {
        put_parts(&[b"a pause was given up\n"], &mut answer.left)?;
    }
    Ok(())
}

/// How many bytes a piece has, at least one.
fn piece_of(tried: Tried<'_>) -> usize
    ensures { 1 ≤ result }
{
    (tried.piece as usize).max(1)
}

/// The numbers of the calls of an object that fail.
fn calls_of(alloc: Global, tried: Tried<'_>, object: Object) -> Result<Vec<u64>, AllocError> {
    let mut calls = Vec::new(alloc);
    for fail in &tried.row.fails {
        if fail.object == object {
            calls.push(fail.call)?;
        }
    }
    match tried.more {
        Some(fail) if fail.object == object => calls.push(fail.call)?,
        _ => {}
    }
    Ok(calls)
}

/// What a row reads and writes.
fn streams_of<'a>(alloc: Global, tried: Tried<'a>) -> Result<RowStreams<'a>, AllocError> {
    let output = sink_of(alloc, tried, Object::Output, tried.row.room as usize)?;
    let diag = sink_of(alloc, tried, Object::Diag, 1000)?;
    let calls = calls_of(alloc, tried, Object::Input)?;
    let input = RowSource::new(&tried.row.input, piece_of(tried), calls);
    Ok(RowStreams {
        input,
        output,
        diag,
    })
}

/// A sink of a row, which takes `room` bytes.
fn sink_of(
    alloc: Global,
    tried: Tried<'_>,
    object: Object,
    room: usize,
) -> Result<MemSink, AllocError> {
    let calls = calls_of(alloc, tried, object)?;
    MemSink::new(alloc, room, piece_of(tried), calls)
}

/// The store of a row.
fn store_of(alloc: Global, tried: Tried<'_>) -> Result<MemKeeper, AllocError> {
    let puts = calls_of(alloc, tried, Object::Put)?;
    let reads = calls_of(alloc, tried, Object::Rows)?;
    keeper_of(alloc, &tried.row.kept, reads, &puts)
}

/// The wires of a row over these links.
fn wires_over(
    alloc: Global,
    tried: Tried<'_>,
    links: &[Vec<Coming>],
) -> Result<RowWires, AllocError> {
    let fails = link_fails(alloc, tried)?;
    wires_of(alloc, links, piece_of(tried), &fails)
}

/// The calls that fail on wires and links.
fn link_fails(alloc: Global, tried: Tried<'_>) -> Result<LinkFails, AllocError> {
    let dials = calls_of(alloc, tried, Object::Dial)?;
    let reads = calls_of(alloc, tried, Object::Receive)?;
    let writes = calls_of(alloc, tried, Object::Send)?;
    Ok(LinkFails {
        dials,
        reads,
        writes,
    })
}
