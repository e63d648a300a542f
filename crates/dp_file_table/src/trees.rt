//! What is done with the table of the rows, in the files of any disk.
//!
//! Functions here are for any disk: a check writes out how the files that are named are one. No
//! clause says what the files hold, so that no caller's proof carries what the store says of them.

ghost use Rattle.std.specs.Prelude.{◌≡◌, IsTrue, IsSome, IfOk, IfErr};
ghost use Rattle.sqlite_pager.specs.Pager.{files};
ghost use Rattle.sqlite_store.specs.Unopened.{AreUsable, files_of};
ghost use Rattle.sqlite_store.specs.FileStore.{view};
ghost use Rattle.sqlite_trees.specs.Tree.{rowid};
ghost use Rattle.sqlite_trees.specs.View.{IsClean, IsRowidKey, is_int};

use dp_keeper::{KeepError, Row, RowBytes, Rows};
use sqlite_disk::{Disk, Files};
use sqlite_pager::{Options, Pager};
use sqlite_store::{FileStore, OpenError, Unopened};
use sqlite_trees::error::StoreError;
use sqlite_trees::schema::Object;
use sqlite_trees::store::{Direction, Shape, Store};
use sqlite_value::row as record;
use sqlite_value::value::ValueRef;
use sqlite_wal::PageSize;
use std::alloc::{AllocError, AllocFailed, Global};

/// The bytes of a page.
const PAGE: usize = 4096;

/// The number of the table, which is the only one.
const TABLE: u32 = 0;

/// The number of the cursor that readings use.
const CURSOR: u16 = 0;

/// The text by which a file lists the table.
const TEXT: &str = "CREATE TABLE journal (n INTEGER PRIMARY KEY, bytes BLOB NOT NULL) STRICT";

/// The same in files of this program until December 2026.
const OLDER_TEXT: &str =
    "CREATE TABLE IF NOT EXISTS journal (n INTEGER PRIMARY KEY, bytes BLOB NOT NULL) STRICT";

/// Why nothing was done, by what the store said.
pub(crate) fn refusal(error: StoreError) -> KeepError {
    match error {
        StoreError::OutOfMemory => KeepError::Memory,
        _ => KeepError::Failed,
    }
}

/// What this pager reads, which is to hold the table alone.
fn listed<D: Disk + Drop>(
    alloc: Global,
    pager: Pager<D>,
    text: &str,
) -> Result<Unopened<D>, AllocError>
    ensures { IfOk result (λ it. files_of it ≡ files pager) }
{
    let journal = Object {
        shape: Shape::Table,
        kind: "table",
        name: "journal",
        table: "journal",
        reals: 0,
        sql: Some(text),
    };
    match Unopened::new(alloc, pager, &[journal]) {
        Ok(it) => Ok(it),
        Err(AllocFailed { value }) => {
            drop(value.close());
            Err(AllocError)
        }
    }
}

/// These files, which are to hold the table alone.
fn unopened<D: Disk + Drop>(
    alloc: Global,
    files: Files<D>,
    seed: u64,
    text: &str,
) -> Result<Unopened<D>, AllocError>
    requires log { IsTrue (D.Disk.is_usable files.log) }
    requires db { IsTrue (D.Disk.is_usable files.db) }
    ensures { IfOk result AreUsable }
{
    let size = PageSize::new(PAGE).unwrap();
    match Pager::new(alloc, files, size, Options::new(seed)) {
        Ok(pager) => listed(alloc, pager, text),
        Err(AllocFailed { value }) => {
            drop(value);
            Err(AllocError)
        }
    }
}

/// The files that weren't opened, if they may be used.
fn files_left<D: Disk + Drop>(left: Unopened<D>) -> Result<Files<D>, KeepError>
    ensures log { IfOk result (λ files. IsTrue (D.Disk.is_usable files.log)) }
    ensures db { IfOk result (λ files. IsTrue (D.Disk.is_usable files.db)) }
{
    let files = left.close();
    if files.may_be_used() {
        Ok(files)
    } else {
        Err(KeepError::Failed)
    }
}

/// Closes the files, and says why they weren't opened.
fn refuse<D: Disk + Drop>(error: OpenError, left: Unopened<D>) -> KeepError {
    drop(left.close());
    match error {
        OpenError::OutOfMemory => KeepError::Memory,
        _ => KeepError::Failed,
    }
}

/// Opens files that list the table by this text. It gives other files back.
fn open_by<D: Disk + Drop>(
    alloc: Global,
    files: Files<D>,
    seed: u64,
    text: &str,
) -> Result<Result<FileStore<D>, Files<D>>, KeepError>
    requires log { IsTrue (D.Disk.is_usable files.log) }
    requires db { IsTrue (D.Disk.is_usable files.db) }
    ensures log { IfOk result (λ it. IfErr it (λ files. IsTrue (D.Disk.is_usable files.log))) }
    ensures db { IfOk result (λ it. IfErr it (λ files. IsTrue (D.Disk.is_usable files.db))) }
{
    match unopened(alloc, files, seed, text)?.open() {
        Ok(store) => Ok(Ok(store)),
        Err((OpenError::Refused, left)) => Ok(Err(files_left(left)?)),
        Err((error, left)) => Err(refuse(error, left)),
    }
}

/// Makes the table in files that hold nothing.
fn create<D: Disk + Drop>(
    alloc: Global,
    files: Files<D>,
    seed: u64,
) -> Result<FileStore<D>, KeepError>
    requires log { IsTrue (D.Disk.is_usable files.log) }
    requires db { IsTrue (D.Disk.is_usable files.db) }
{
    match unopened(alloc, files, seed, TEXT)?.create() {
        Ok(store) => Ok(store),
        Err((error, left)) => Err(refuse(error, left)),
    }
}

/// Opens files that hold the table, or makes it where there is nothing.
pub(crate) fn open<D: Disk + Drop>(
    alloc: Global,
    files: Files<D>,
    seed: u64,
) -> Result<FileStore<D>, KeepError>
    requires log { IsTrue (D.Disk.is_usable files.log) }
    requires db { IsTrue (D.Disk.is_usable files.db) }
{
    let files = match open_by(alloc, files, seed, TEXT)? {
        Ok(store) => return Ok(store),
        Err(files) => files,
    };
    match open_by(alloc, files, seed, OLDER_TEXT)? {
        Ok(store) => Ok(store),
        Err(files) => create(alloc, files, seed),
    }
}

/// The record of a row. The store keeps the number apart from the other columns.
fn record_of(alloc: Global, n: i64, bytes: &[u8]) -> Result<record::Row, AllocError>
    ensures { IfOk result (λ row. IsTrue (is_int (rowid row))) }
{
    let mut row = record::Row::new(alloc);
    row.push(ValueRef::Int(n))?;
    row.push(ValueRef::Null)?;
    row.push(ValueRef::Blob(bytes))?;
    Ok(row)
}

/// The key of a number.
fn key_of(alloc: Global, n: i64) -> Result<record::Row, AllocError>
    ensures { IfOk result IsRowidKey }
{
    let mut key = record::Row::new(alloc);
    key.push(ValueRef::Int(n))?;
    Ok(key)
}

/// The row of a record. A number below 0 is no row's, and is read as the greatest number.
fn row_of(alloc: Global, found: &record::Row) -> Result<Row, StoreError> {
    match (found.get(0), found.get(2)) {
        (ValueRef::Int(n), ValueRef::Blob(bytes)) => Ok(Row {
            n: u64::try_from(n).unwrap_or(u64::MAX),
            bytes: RowBytes::from_vec(bytes.to_vec(alloc)?),
        }),
        _ => Err(StoreError::Corrupt),
    }
}

/// Writes a row, and commits it.
fn write<D: Disk>(store: &mut FileStore<D>, row: &record::Row) -> Result<(), StoreError>
    requires table { IsClean (view store.old) → (view store.old).shape TABLE ≡ Shape.Table }
    requires keyed { IsTrue (is_int (rowid row.now)) }
{
    match store.put(TABLE, row) {
        Ok(()) => store.commit(),
        Err(error) => {
            store.rollback();
            Err(error)
        }
    }
}

/// Adds a row, if there is none of its number.
pub(crate) fn add<D: Disk>(
    store: &mut FileStore<D>,
    alloc: Global,
    n: i64,
    bytes: &[u8],
) -> Result<(), StoreError> {
    let mut row = record_of(alloc, n, bytes)?;
    let Shape::Table = store.shape(TABLE) else {
        return Err(StoreError::Corrupt);
    };
    if store.get(TABLE, n, &mut record::Row::new(alloc))? {
        return Err(StoreError::Unstorable);
    }
    write(store, &row)
}

/// The rows at the cursor, at most that many.
fn rows_at<D: Disk>(store: &mut FileStore<D>, alloc: Global, max: u32) -> Result<Rows, StoreError>
    requires { IsSome ((view store.old).cursors CURSOR) }
{
    let mut found = record::Row::new(alloc);
    let mut rows = Rows::new(alloc);
    for _ in 0..max {
        if !store.next(CURSOR, &mut found)? {
            break;
        }
        rows.push(row_of(alloc, &found)?)?;
    }
    Ok(rows)
}

/// The rows from a number on, at most that many.
pub(crate) fn find<D: Disk>(
    store: &mut FileStore<D>,
    alloc: Global,
    from: i64,
    max: u32,
) -> Result<Rows, StoreError> {
    let key = key_of(alloc, from)?;
    store.seek(CURSOR, TABLE, &key, Direction::Forward)?;
    rows_at(store, alloc, max)
}

/// Copies the log into the file, and closes both.
pub(crate) fn close<D: Disk + Drop>(mut store: FileStore<D>) -> Result<(), StoreError> {
    let copied = store.checkpoint();
    drop(store.close());
    copied
}

/// Closes the files. The log isn't copied.
pub(crate) fn let_go<D: Disk + Drop>(store: FileStore<D>) {
    drop(store.close());
}
