//! What each row gives.

use crate::each::{Each, put_each};
use crate::program::RunsRow;
use crate::running::{Tried, answer_to};
use crate::tried::put_tried;
use dp_row_texts::{
    Answer, Row, Rows, put_answer, put_bad_row, put_numbered, put_parts, read_rows,
};
use std::alloc::{AllocError, Global};

/// Runs the rows of a text, and answers the program's status.
pub fn run<P: RunsRow>(program: &P, alloc: Global, text: &str, out: &mut Vec<u8>) -> u8
    requires { P.ready program.now }
{
    let done = match read_rows(alloc, text) {
        Ok(Rows::Read(rows)) => put_rows(program, alloc, &rows, out).map(|()| 0),
        Ok(Rows::Bad(line)) => put_bad_row(line, out).map(|()| 2),
        Err(error) => Err(error),
    };
    done.unwrap_or(7)
}

/// Adds what each row gives.
fn put_rows<P: RunsRow>(
    program: &P,
    alloc: Global,
    rows: &[Row],
    out: &mut Vec<u8>,
) -> Result<(), AllocError>
    requires { P.ready program.now }
{
    for row in rows {
        put_row(program, alloc, row, out)?;
    }
    Ok(())
}

/// Adds what a row gives.
fn put_row<P: RunsRow>(
    program: &P,
    alloc: Global,
    row: &Row,
    out: &mut Vec<u8>,
) -> Result<(), AllocError>
    requires { P.ready program.now }
{
    let piece = row.pieces.first().copied().unwrap_or(1);
    let more = None;
    let answer = answer_to(program, alloc, Tried { row, piece, more }, &row.wires)?;
    put_given(program, alloc, row, &answer, out)?;
    drop(answer);
    put_tried(program, alloc, row, out)
}

/// Adds what a row gives in pieces of the first length. Then what is different in pieces of another
/// length, and what each failing call gives.
fn put_given<P: RunsRow>(
    program: &P,
    alloc: Global,
    row: &Row,
    whole: &Answer,
    out: &mut Vec<u8>,
) -> Result<(), AllocError>
    requires { P.ready program.now }
{
    put_parts(&[b"> ", row.head.as_bytes(), b"\n"], out)?;
    put_answer(whole, out)?;
    for piece in row.pieces.iter().skip(1) {
        put_again(program, alloc, row, *piece, whole, out)?;
    }
    let piece = row.pieces.first().copied().unwrap_or(1);
    put_all_each(program, alloc, row, piece, whole, out)
}

/// Adds what each failing call gives.
fn put_all_each<P: RunsRow>(
    program: &P,
    alloc: Global,
    row: &Row,
    piece: u64,
    whole: &Answer,
    out: &mut Vec<u8>,
) -> Result<(), AllocError>
    requires { P.ready program.now }
{
    for object in &row.each {
        let object = *object;
        let each = Each {
            row,
            piece,
            object,
            whole,
        };
        put_each(program, alloc, each, out)?;
    }
    Ok(())
}

/// Adds what a row gives in pieces of another length, if that is different.
fn put_again<P: RunsRow>(
    program: &P,
    alloc: Global,
    row: &Row,
    piece: u64,
    whole: &Answer,
    out: &mut Vec<u8>,
) -> Result<(), AllocError>
    requires { P.ready program.now }
{
    let more = None;
    let again = answer_to(program, alloc, Tried { row, piece, more }, &row.wires)?;
    put_if_other(&again, whole, piece, out)
}

/// Adds what a run gave in pieces of this length, if it is different.
fn put_if_other(
    again: &Answer,
    whole: &Answer,
    piece: u64,
    out: &mut Vec<u8>,
) -> Result<(), AllocError> {
    if again.same(whole) {
        return Ok(());
    }
    put_numbered(b"differs in pieces of ", piece, b"\n", out)?;
    put_answer(again, out)
}
