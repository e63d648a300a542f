//! Sessions that go on from where the rows of a store lead.
//!
//! The rule: docs/protocol.md, "Kept rows".

ghost use Rattle.std.specs.Prelude.{◌≡◌, [], IfOk, OnOk, IfErr, IfSome};
ghost use Rattle.dp_epochs.specs.Resumed.{AreRowsOf};
ghost use Rattle.dp_session.specs.Resuming.{resumed, IsBad, CountsFault, CountsRead};
ghost use Rattle.dp_session.specs.Resuming.{ReadsRow, ReadsPage, HasFirst, HasAll, ReadsNext};
ghost use Rattle.dp_session.specs.declared.resume.ResumeFault.TheVariants.{Memory as OutOfMemory};

use crate::session::Session;
use dp_epochs::rows_go_on;
use dp_keeper::{KeepError, Keeper, Row};
use dp_tables::Tables;
use std::alloc::{AllocError, Global};

/// How many rows are read at once.
const PAGE: u32 = 512;

/// Why a session can't be resumed.
#[derive(Debug, Drop)]
pub enum ResumeFault {
    /// The store failed.
    StoreFault,
    /// This row, at this place of the store, may not stand there.
    BadRow { n: u64, row: Row },
    /// Memory ran out.
    Memory,
}

impl From<AllocError> for ResumeFault {
    ghost from_gives = { λ _ why. why ≡ OutOfMemory };

    fn from(_error: AllocError) -> ResumeFault {
        ResumeFault::Memory
    }
}

/// Why a session can't be resumed, and the store.
#[derive(Debug, Drop)]
pub struct ResumeError<K> {
    pub keeper: K,
    pub why: ResumeFault,
}

/// Keeps the event of a row, if the row may stand next.
fn read_one(tables: &mut Tables, row: &Row) -> Result<(), ResumeFault>
    requires { tables.old.shut ≡ [] }
    ensures { ReadsRow tables.old row.now result tables.new }
{
    if tables.replay(row)? {
        return Ok(());
    }
    let row = row.clone()?;
    Err(ResumeFault::BadRow {
        n: tables.events(),
        row,
    })
}

/// Keeps the events of a page of rows.
fn read_page(tables: &mut Tables, page: &[Row]) -> Result<(), ResumeFault>
    requires { tables.old.shut ≡ [] }
    ensures { ReadsPage tables.old page.now result tables.new }
{
    rows_go_on();
    for row in page {
        read_one(tables, row)?;
    }
    Ok(())
}

/// Keeps the events of the store's next rows. It answers whether there were any.
fn read_on<K: Keeper>(keeper: &mut K, tables: &mut Tables) -> Result<bool, ResumeFault>
    requires { HasFirst (K.held keeper.old) tables.old }
    ensures rows { ReadsNext (K.held keeper.old) tables.old result tables.new }
    ensures held { K.held keeper.new ≡ K.held keeper.old }
    ensures count { CountsRead (K.read_faults keeper.old) result (K.read_faults keeper.new) }
    ensures puts { K.put_faults keeper.new ≡ K.put_faults keeper.old }
{
    rows_go_on();
    let page = match keeper.rows(tables.events(), PAGE) {
        Ok(page) => page,
        Err(KeepError::Failed) => return Err(ResumeFault::StoreFault),
        Err(KeepError::Memory) => return Err(ResumeFault::Memory),
    };
    let rows = page.as_slice();
    if rows.is_empty() {
        return Ok(false);
    }
    read_page(tables, rows)?;
    Ok(true)
}

/// Keeps the events of all rows of the store.
fn read_all<K: Keeper>(keeper: &mut K, tables: &mut Tables) -> Result<(), ResumeFault>
    requires { HasFirst (K.held keeper.old) tables.old }
    ensures rows { OnOk result (HasAll (K.held keeper.old) tables.new) }
    ensures bad { IfErr result (λ why. IsBad (K.held keeper.old) why) }
    ensures held { K.held keeper.new ≡ K.held keeper.old }
    ensures count { CountsRead (K.read_faults keeper.old) result (K.read_faults keeper.new) }
    ensures puts { K.put_faults keeper.new ≡ K.put_faults keeper.old }
{
    'pages: loop {
        if !read_on(keeper, tables)? {
            return Ok(());
        }
    }
}

impl<K: Keeper> Session<K> {
    /// The session to which the events of the store's rows have come.
    ///
    /// # Errors
    ///
    /// The first row that may not stand, unless the store fails or memory runs out before it is
    /// met. The store comes back with its rows as they were.
    pub fn resume(alloc: Global, keeper: K) -> Result<Session<K>, ResumeError<K>>
        // Nothing was refused so far, and no put has failed.
        ensures session { IfOk result (λ session. session ≡ resumed session.journal
            (K.held keeper) (K.put_faults keeper) (K.read_faults keeper)) }
        ensures rows { IfOk result (λ session. IfSome (K.held keeper)
            (λ rows. AreRowsOf rows session.journal)) }
        ensures bad { IfErr result (λ error. IsBad (K.held keeper) error.why) }
        ensures held { IfErr result (λ error. K.held error.keeper ≡ K.held keeper) }
        ensures cause { IfErr result (λ error. CountsFault (K.read_faults keeper) error.why
            (K.read_faults error.keeper)) }
        ensures puts { IfErr result (λ error. K.put_faults error.keeper ≡ K.put_faults keeper) }
    {
        let mut keeper = keeper;
        let mut tables = match Tables::new(alloc) {
            Ok(tables) => tables,
            Err(AllocError) => {
                let why = ResumeFault::Memory;
                return Err(ResumeError { keeper, why });
            }
        };
        match read_all(&mut keeper, &mut tables) {
            Ok(()) => {
                tables.write_frames();
                Ok(Session {
                    keeper,
                    tables,
                    first_fault: None,
                })
            }
            Err(why) => Err(ResumeError { keeper, why }),
        }
    }
}
