//! What a server leaves.

use crate::gate::RowGate;
use dp_keeper::{MemKeeper, Row, RowBytes, Rows};
use dp_lines::put_hex;
use dp_row_texts::{both, filled, put_numbered, put_parts, put_passes};
use std::alloc::{AllocError, Global};
use std::fmt::Debug;

/// What is told of a link: its worker, its number, its connection, and how both its ends ended.
#[derive(Clone, Copy)]
pub struct Told<U, D> {
    pub worker: u32,
    pub link: u32,
    pub conn: Option<u32>,
    pub up: U,
    pub down: D,
}

/// Adds the line of a link.
pub fn put_told<U: Debug, D: Debug>(
    alloc: Global,
    told: &Told<U, D>,
    out: &mut Vec<u8>,
) -> Result<(), AllocError> {
    put_numbered(b"link ", u64::from(told.worker), b" ", out)?;
    put_numbered(b"", u64::from(told.link), b"", out)?;
    if let Some(conn) = told.conn {
        put_numbered(b" conn ", u64::from(conn), b"", out)?;
    }
    put_ends(alloc, &told.up, &told.down, out)
}

/// Adds how both ends of a link ended.
fn put_ends<U: Debug, D: Debug>(
    alloc: Global,
    up: &U,
    down: &D,
    out: &mut Vec<u8>,
) -> Result<(), AllocError> {
    let ends = format!(in alloc; " up {up:?} down {down:?}\n")?;
    let end = out.extend_from_slice(ends.as_bytes());
    drop(ends);
    end
}

/// Adds a line for each row that a store holds.
pub fn put_kept(keeper: &MemKeeper, out: &mut Vec<u8>) -> Result<(), AllocError> {
    for row in keeper.held().as_slice() {
        out.extend_from_slice(b"kept ")?;
        put_hex(row.bytes.as_slice(), out)?;
        out.push(b'\n')?;
    }
    Ok(())
}

/// Adds how often the gate was passed, if it was, and a line if it held a job in vain.
pub fn put_gate(gate: &RowGate, out: &mut Vec<u8>) -> Result<(), AllocError> {
    put_passes(gate.passes(), out)?;
    if gate.gave_up() {
        put_parts(&[b"a job was held in vain\n"], out)?;
    }
    Ok(())
}

/// A store of rows of these bytes. The calls of `rows` and of `put` with these numbers fail, and a
/// put that fails loses its row.
pub fn keeper_of(
    alloc: Global,
    kept: &[Vec<u8>],
    reads: Vec<u64>,
    puts: &[u64],
) -> Result<MemKeeper, AllocError> {
    let (reads, lost) = both(reads, lost_puts(alloc, puts))?;
    let ((reads, lost), rows) = both((reads, lost), rows_of(alloc, kept))?;
    Ok(MemKeeper::new(rows, lost, reads))
}

/// Rows of these bytes.
fn rows_of(alloc: Global, kept: &[Vec<u8>]) -> Result<Rows, AllocError> {
    let mut rows = Rows::new(alloc);
    let end = put_rows(alloc, kept, &mut rows);
    filled(rows, end)
}

/// Adds rows of these bytes.
fn put_rows(alloc: Global, kept: &[Vec<u8>], rows: &mut Rows) -> Result<(), AllocError> {
    for (n, bytes) in kept.iter().enumerate() {
        rows.push(row_of(alloc, n as u64, bytes)?)?;
    }
    Ok(())
}

/// The row of a number, of these bytes.
fn row_of(alloc: Global, n: u64, bytes: &[u8]) -> Result<Row, AllocError> {
    let bytes = RowBytes::from_vec(Vec::from_slice(alloc, bytes)?);
    Ok(Row { n, bytes })
}

/// The puts that fail and lose their rows.
fn lost_puts(alloc: Global, puts: &[u64]) -> Result<Vec<(u64, bool)>, AllocError> {
    let mut lost = Vec::new(alloc);
    let end = put_lost(puts, &mut lost);
    filled(lost, end)
}

/// Adds puts that lose their rows.
fn put_lost(puts: &[u64], lost: &mut Vec<(u64, bool)>) -> Result<(), AllocError> {
    for put in puts {
        lost.push((*put, false))?;
    }
    Ok(())
}
