//! Rows in pages, and a store whose listed calls fail.

use crate::checks::{are, check};
use dp_keeper::{KeepError, Keeper, MemKeeper, Row, RowBytes, Rows, SureKeeper};
use std::alloc::Global;
use std::process::Abort;

/// The row of a number, which has one byte.
fn row(rt: &impl Abort, alloc: Global, number: u8) -> Row {
    let bytes = RowBytes::from_vec(vec![in alloc; number].expect(rt, "memory"));
    let n = u64::from(number);
    Row { n, bytes }
}

/// Whether rows have these numbers.
fn are_numbered(rows: &Rows, numbers: &[u8]) -> bool {
    for (row, number) in rows.as_slice().iter().zip(numbers) {
        if row.n != u64::from(*number) || !are(row.bytes.as_slice(), &[*number]) {
            return false;
        }
    }
    rows.as_slice().len() == numbers.len()
}

/// Puts the row of this number, of which this comes.
fn check_put<K: Keeper>(
    rt: &impl Abort,
    alloc: Global,
    keeper: &mut K,
    number: u8,
    want: Result<(), KeepError>,
) {
    let row = row(rt, alloc, number);
    let outcome = keeper.put(&row);
    drop(row);
    check(rt, outcome == want, "rows put", usize::from(number));
}

/// From which row on a page is read, how many rows at most, and the numbers of those that it has.
static PAGES: [(u64, u32, &[u8]); 4] = [(0, 9, &[0, 1, 2]), (1, 1, &[1]), (2, 0, &[]), (3, 4, &[])];

/// Puts three rows, and reads pages of them.
fn put_and_read<K: Keeper>(rt: &impl Abort, alloc: Global, keeper: &mut K) {
    for n in 0..3 {
        check_put(rt, alloc, keeper, n, Ok(()));
    }
    for (k, (from, max, numbers)) in PAGES.iter().enumerate() {
        let page = keeper.rows(*from, *max).expect(rt, "a page");
        check(rt, are_numbered(&page, numbers), "pages", k);
    }
    assert!(rt; keeper.count() == 0);
}

#[test]
fn rows_in_pages(rt: HostRuntime) {
    let alloc = rt.alloc();
    put_and_read(&rt, alloc, &mut SureKeeper::new(Rows::new(alloc)));
    let fails = Vec::new(alloc);
    let mut keeper = MemKeeper::new(Rows::new(alloc), fails, Vec::new(alloc));
    put_and_read(&rt, alloc, &mut keeper);
}

#[test]
fn listed_calls_fail(rt: HostRuntime) {
    let alloc = rt.alloc();
    let fails = vec![in alloc; (2, false), (3, true)].expect(&rt, "memory");
    let asks = vec![in alloc; 1].expect(&rt, "memory");
    let mut keeper = MemKeeper::new(Rows::new(alloc), fails, asks);
    check_put(&rt, alloc, &mut keeper, 0, Ok(()));
    check_put(&rt, alloc, &mut keeper, 1, Err(KeepError::Failed));
    check_put(&rt, alloc, &mut keeper, 2, Err(KeepError::Failed));
    check_put(&rt, alloc, &mut keeper, 3, Ok(()));
    assert!(rt; keeper.rows(0, 1).err() == Some(KeepError::Failed));
    assert!(rt; keeper.count() == 2);
    assert!(rt; are_numbered(keeper.held(), &[0, 2, 3]));
}
