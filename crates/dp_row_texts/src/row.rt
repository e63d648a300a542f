//! A row.

use crate::fails::{Fail, Object};
use crate::links::Coming;
use crate::tables::Table;
use std::alloc::{AllocError, Global};

/// Bytes that stand in an input so often.
#[derive(Drop)]
pub struct Part {
    pub times: u64,
    pub bytes: Vec<u8>,
}

/// A run of the program over memory.
#[derive(Drop)]
pub struct Row {
    /// Its first line.
    pub head: String,
    pub words: Vec<String>,
    /// The lengths of pieces.
    pub pieces: Vec<u64>,
    /// How many bytes the output takes.
    pub room: u64,
    /// The job that has to pass the gate before job 0 does, if there is one.
    pub hold: Option<u32>,
    pub fails: Vec<Fail>,
    /// The objects of which each call is to fail in turn.
    pub each: Vec<Object>,
    pub input: Vec<Part>,
    /// The links of each wire.
    pub wires: Vec<Vec<Coming>>,
    /// The bytes of the rows that the store has.
    pub kept: Vec<Vec<u8>>,
    /// What damaged links are to give.
    pub table: Table,
}

impl Row {
    /// A row that begins with this line, before its words were read.
    pub fn new(alloc: Global, head: &str) -> Result<Row, AllocError> {
        Ok(Row {
            head: String::from_str(alloc, head)?,
            words: Vec::new(alloc),
            pieces: Vec::new(alloc),
            room: 20_000,
            hold: None,
            fails: Vec::new(alloc),
            each: Vec::new(alloc),
            input: Vec::new(alloc),
            wires: Vec::new(alloc),
            kept: Vec::new(alloc),
            table: Table::new(alloc),
        })
    }
}
