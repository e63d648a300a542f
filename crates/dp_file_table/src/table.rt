//! The table of a file.

use crate::trees;
use dp_keeper::{KeepError, Rows};
use sqlite_std_file::{File, OpenError, Unknown};
use sqlite_store::FileStore;
use std::alloc::Global;
use std::hash::{BuildHasher, RandomState};
use std::io;

/// The table `journal` of a file that sqlite3 reads. Each row that is added is a transaction of its
/// own: when that is answered `Ok`, the row is on the disk. No clause says what a file holds.
pub struct FileTable {
    store: FileStore<File>,
    alloc: Global,
}

// It is written out, so that it is only called where a table is let go.
impl Drop for FileTable {
    fn drop(self) {
        let FileTable { store, alloc: _ } = self;
        trees::let_go(store);
    }
}

/// Why no file was opened.
fn refusal(error: OpenError) -> KeepError {
    match error {
        OpenError::OutOfMemory => KeepError::Memory,
        OpenError::Io(error) => io_refusal(error),
        OpenError::Busy | OpenError::HotJournal => KeepError::Failed,
    }
}

/// The same of a call of the system.
fn io_refusal(error: io::Error) -> KeepError {
    match error.kind() {
        io::ErrorKind::OutOfMemory => KeepError::Memory,
        _ => KeepError::Failed,
    }
}

impl FileTable {
    /// The table of the file at this path. Both are made if they aren't there.
    ///
    /// # Errors
    ///
    /// `Failed` if the file can't be opened, holds anything else or is in use, and `Memory` if
    /// memory ran out.
    pub fn open(rt: &HostRuntime, path: &str) -> Result<FileTable, KeepError> {
        let seed = match RandomState::new(rt) {
            Ok(state) => state.hash_one(&0u8),
            Err(error) => return Err(io_refusal(error)),
        };
        let files = match sqlite_std_file::open(rt, path, Unknown) {
            Ok(files) => files,
            Err(error) => return Err(refusal(error)),
        };
        let alloc = rt.alloc();
        let store = trees::open(alloc, files, seed)?;
        Ok(FileTable { store, alloc })
    }

    /// Adds a row.
    ///
    /// # Errors
    ///
    /// `Failed` if the number is there already or if the file failed, and `Memory` if memory ran
    /// out.
    pub fn add(&mut self, n: i64, bytes: &[u8]) -> Result<(), KeepError> {
        match trees::add(&mut self.store, self.alloc, n, bytes) {
            Ok(()) => Ok(()),
            Err(error) => Err(trees::refusal(error)),
        }
    }

    /// The rows from a number on, in order, at most `max`. A number below 0 is no row's, and is
    /// read as the greatest number.
    ///
    /// # Errors
    ///
    /// `Failed` if the file failed, and `Memory` if memory ran out.
    pub fn find(&mut self, from: i64, max: u32) -> Result<Rows, KeepError> {
        match trees::find(&mut self.store, self.alloc, from, max) {
            Ok(rows) => Ok(rows),
            Err(error) => Err(trees::refusal(error)),
        }
    }

    /// Copies the log into the file, and closes both.
    ///
    /// # Errors
    ///
    /// The rows are in the file and its log all the same.
    pub fn close(self) -> Result<(), KeepError> {
        let FileTable { store, alloc: _ } = self;
        match trees::close(store) {
            Ok(()) => Ok(()),
            Err(error) => Err(trees::refusal(error)),
        }
    }
}
