//! What runs the program, and what it runs it over.

use dp_io::MemSink;
use dp_keeper::MemKeeper;
use dp_row_wires::{RowGate, RowSource, RowWire};
use std::alloc::{AllocError, Global};

/// What a run of a row reads and writes.
#[derive(Drop)]
pub struct RowStreams<'a> {
    pub input: RowSource<'a>,
    pub output: MemSink,
    pub diag: MemSink,
}

/// The words of a run, its wires, its store and its gate.
#[derive(Drop)]
pub struct RowRun<'a> {
    pub words: &'a [String],
    pub wires: Vec<RowWire>,
    pub keeper: MemKeeper,
    pub gate: &'a RowGate,
}

/// What a run leaves: the program's status, the wires, the store, and the reports of a server's
/// links.
#[derive(Drop)]
pub struct RowLeft<L> {
    pub status: u8,
    pub wires: Vec<RowWire>,
    pub keeper: MemKeeper,
    pub reports: L,
}

/// The program, as rows run it.
pub trait RunsRow {
    /// The reports of a server's links.
    type Reports: Drop;

    /// What it needs to run.
    ghost ready: { Self → Type 0 };

    /// Runs the program on these words, over these streams, wires and this store.
    fn run(
        &self,
        alloc: Global,
        run: RowRun<'_>,
        streams: &mut RowStreams<'_>,
    ) -> RowLeft<Self::Reports>
        requires { ready self.now };

    /// Adds a line for each report.
    fn put_reports(
        &self,
        alloc: Global,
        reports: &Self::Reports,
        text: &mut Vec<u8>,
    ) -> Result<(), AllocError>;
}
