//! Runs of a row with each call of an object failing in turn.

use crate::program::RunsRow;
use crate::running::{Tried, answer_to};
use dp_row_texts::{Answer, Fail, Object, Row, put_numbered, put_parts, put_text};
use std::alloc::{AllocError, Global};

/// A row in pieces of this length, of which each call of an object fails in turn, and what it gives
/// if none fails.
#[derive(Clone, Copy)]
pub struct Each<'a> {
    pub row: &'a Row,
    pub piece: u64,
    pub object: Object,
    pub whole: &'a Answer,
}

impl<'a> Each<'a> {
    /// The run with this call failing.
    fn tried(self, call: u64) -> Tried<'a> {
        let object = self.object;
        Tried {
            row: self.row,
            piece: self.piece,
            more: Some(Fail { object, call }),
        }
    }
}

/// Has the first call of an object fail, then the second, until one isn't made. Adds how many were
/// made, with the status and the line on diag. Adds a line for each that gives another, or that
/// wrote or sent what isn't a prefix.
pub fn put_each<P: RunsRow>(
    program: &P,
    alloc: Global,
    each: Each<'_>,
    out: &mut Vec<u8>,
) -> Result<(), AllocError>
    requires { P.ready program.now }
{
    let first = answer_to(program, alloc, each.tried(1), &each.row.wires)?;
    put_calls(program, alloc, each, &first, out)
}

/// The same, if the first call gives this.
fn put_calls<P: RunsRow>(
    program: &P,
    alloc: Global,
    each: Each<'_>,
    first: &Answer,
    out: &mut Vec<u8>,
) -> Result<(), AllocError>
    requires { P.ready program.now }
{
    let mut made = 0;
    for call in 1..1_000_000u64 {
        if !put_call(program, alloc, each, call, first, out)? {
            break;
        }
        made = call;
    }
    put_parts(&[b"each ", each.object.name().as_bytes()], out)?;
    put_numbered(b": ", made, b" calls", out)?;
    if made == 0 {
        return put_parts(&[b"\n"], out);
    }
    put_numbered(b", status ", u64::from(first.status), b" ", out)?;
    put_text(b"! ", &first.said, out)
}

/// Has the call of this number fail, and answers whether it is made. Adds a line if it gives
/// another than the first, or if what it wrote or sent isn't a prefix.
fn put_call<P: RunsRow>(
    program: &P,
    alloc: Global,
    each: Each<'_>,
    call: u64,
    first: &Answer,
    out: &mut Vec<u8>,
) -> Result<bool, AllocError>
    requires { P.ready program.now }
{
    let answer = answer_to(program, alloc, each.tried(call), &each.row.wires)?;
    let is_made = !answer.same(each.whole);
    let is_due = answer.status == first.status
        && answer.said.as_slice() == first.said.as_slice()
        && answer.is_cut_from(each.whole);
    drop(answer);
    if is_made && !is_due {
        put_parts(&[b"differs with ", each.object.name().as_bytes()], out)?;
        put_numbered(b" ", call, b"\n", out)?;
    }
    Ok(is_made)
}
