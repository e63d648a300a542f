//! The store of a run.

ghost use Rattle.std.specs.Prelude.{◌≡◌, [], false, IfOk, is_some};
ghost use Rattle.dp_program.specs.declared.store.Store.TheVariants.{Memory};
ghost use Rattle.dp_program.specs.Stores.{is_file, store_held, store_put_faults, store_read_faults};

use dp_keeper::{KeepError, Keeper, Row, Rows, SureKeeper};
use dp_keeper_sql::SqlKeeper;
use dp_words::Word;

/// The store of a run: the rows of a server's file, or rows in memory.
pub enum Store {
    File(SqlKeeper),
    Memory(SureKeeper),
}

impl Store {
    /// The rows of the file at this path, which is made if there is none. Without a path it has no
    /// rows, and is in memory.
    ///
    /// # Errors
    ///
    /// `Failed` if the file can't be opened, is no database or is in use, and `Memory` if memory
    /// ran out.
    pub fn open(rt: &HostRuntime, path: Option<&Word>) -> Result<Store, KeepError>
        ensures file { IfOk result (λ store. is_file store ≡ is_some path.entry) }
        ensures memory { IfOk result (λ store. is_file store ≡ false → store ≡ Memory []) }
    {
        match path {
            Some(path) => Ok(Store::File(SqlKeeper::new(rt, path.as_str())?)),
            None => Ok(Store::Memory(SureKeeper::new(Rows::new(rt.alloc())))),
        }
    }

    /// Closes the file, if there is one. What the rows are doesn't depend on it.
    pub fn close(self) {
        match self {
            Store::File(keeper) => {
                let _ = keeper.close();
            }
            Store::Memory(keeper) => drop(keeper),
        }
    }
}

impl Keeper for Store {
    ghost held = { store_held };

    ghost put_faults = { store_put_faults };

    ghost read_faults = { store_read_faults };

    fn put(&mut self, row: &Row) -> Result<(), KeepError> {
        match self {
            Store::File(keeper) => keeper.put(row),
            Store::Memory(keeper) => keeper.put(row),
        }
    }

    fn rows(&mut self, from: u64, max: u32) -> Result<Rows, KeepError> {
        match self {
            Store::File(keeper) => keeper.rows(from, max),
            Store::Memory(keeper) => keeper.rows(from, max),
        }
    }

    fn count(&self) -> u64 {
        match self {
            Store::File(keeper) => keeper.count(),
            Store::Memory(keeper) => keeper.count(),
        }
    }
}
