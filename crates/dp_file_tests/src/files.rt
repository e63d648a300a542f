//! Rows in a file.

use dp_keeper::{KeepError, Keeper, Row, RowBytes};
use dp_keeper_sql::{SqlKeeper, stores_cross_threads};
use std::alloc::Global;
use std::fs;
use std::process::Abort;

/// Puts the row of a number, which has that number as its only byte.
fn put(rt: &impl Abort, alloc: Global, store: &mut SqlKeeper, number: u8) -> Result<(), KeepError> {
    let bytes = RowBytes::from_vec(vec![in alloc; number].expect(rt, "memory"));
    let n = u64::from(number);
    store.put(&Row { n, bytes })
}

/// Reads the rows from a number on, and checks them and how many they are.
fn read(rt: &impl Abort, store: &mut SqlKeeper, from: u8, max: u32, count: usize) {
    let page = store.rows(u64::from(from), max).expect(rt, "a page");
    assert!(rt; page.as_slice().len() == count);
    for (row, number) in page.as_slice().iter().zip(from..) {
        assert!(rt; row.n == u64::from(number));
        assert!(rt; row.bytes.as_slice() == [number].as_slice());
    }
}

// Put and read in pages, put with a number that is there already, and left without closing it.
#[test]
fn rows_in_a_file(rt: HostRuntime) {
    stores_cross_threads();
    let path = "rows_in_a_file/rows.db";
    let _ = fs::remove_dir_all(&rt, "rows_in_a_file");
    fs::create_dir(&rt, "rows_in_a_file").expect(&rt, "a folder");
    let mut store = SqlKeeper::new(&rt, path).expect(&rt, "a new file");
    for number in 0..3 {
        assert!(rt; put(&rt, rt.alloc(), &mut store, number) == Ok(()));
    }
    for (from, max, count) in [(0, 9, 3), (1, 1, 1), (2, 0, 0), (3, 4, 0)] {
        read(&rt, &mut store, from, max, count);
    }
    assert!(rt; SqlKeeper::new(&rt, path).err() == Some(KeepError::Failed));
    assert!(rt; put(&rt, rt.alloc(), &mut store, 1) == Err(KeepError::Failed));
    assert!(rt; store.count() == 1);
}

// A file that is closed and opened again, three times.
#[test]
fn a_file_that_is_opened_again(rt: HostRuntime) {
    let path = "a_file_that_is_opened_again/rows.db";
    let _ = fs::remove_dir_all(&rt, "a_file_that_is_opened_again");
    fs::create_dir(&rt, "a_file_that_is_opened_again").expect(&rt, "a folder");
    let mut store = SqlKeeper::new(&rt, path).expect(&rt, "a new file");
    for number in 0..3 {
        assert!(rt; put(&rt, rt.alloc(), &mut store, number) == Ok(()));
        read(&rt, &mut store, 0, 9, usize::from(number) + 1);
        assert!(rt; store.close() == Ok(()));
        store = SqlKeeper::new(&rt, path).expect(&rt, "the file");
    }
    read(&rt, &mut store, 0, 9, 3);
}
