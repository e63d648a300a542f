//! Rows, one after another in one list of bytes.

ghost use Rattle.std.specs.Prelude.{◌≡◌, ◌+◌, ◌<◌, ◌^◌, ◌∷◌, ◌++◌, [], length, take, drop};
ghost use Rattle.std.specs.Prelude.{OnOk, OnErr, IfOk};
ghost use Rattle.dp_keeper.specs.Log.{row_at, rows_from, log_end};

use crate::numbers::Numbers;
use crate::row::{Row, RowBytes, Rows};
use dp_lists::{prefix_of, rest_of};
use std::alloc::{AllocError, Global};
use std::marker::Model;

/// Rows whose bytes lie one after another. Contracts see the rows.
#[derive(Debug, Drop)]
pub(crate) struct RowLog {
    bytes: Vec<u8>,
    /// Where the bytes of each row end.
    ends: Vec<usize>,
    numbers: Numbers,
}

impl Model for RowLog {
    ghost use Rattle.std.specs.Prelude.{◌≡◌, List, length};
    ghost use Rattle.dp_keeper.specs.declared.row.Row.{Row as Kept};
    ghost use Rattle.dp_keeper.specs.Log.{rows_from, RiseTo};

    ghost Value = { List Kept };

    ghost view = { λ log. rows_from log.bytes.items log.numbers 0 0 log.ends.items };

    ghost invariant = { λ log. RiseTo (length log.bytes.items) 0 log.ends.items
        × (length log.ends.items ≡ length log.numbers) };
}

/// Where the last of these rows ends.
fn log_end(ends: &[usize]) -> usize
    ensures { result ≡ log_end 0 ends.now }
{
    match ends.last() {
        Some(end) => *end,
        None => 0,
    }
}

/// A copy of the row of a number whose bytes lie between two places.
fn row_at(alloc: Global, bytes: &[u8], start: usize, end: usize, n: u64) -> Result<Row, AllocError>
    ensures { IfOk result (λ row. row ≡ row_at bytes.now start end n) }
{
    let bytes = prefix_of(rest_of(bytes, start), end.saturating_sub(start));
    Ok(Row {
        n,
        bytes: RowBytes::from_vec(bytes.to_vec(alloc)?),
    })
}

/// Adds copies of the rows that end at these places, the first of which begins at a place, to a
/// page. Their numbers are those from an index on.
fn put_rows(
    alloc: Global,
    bytes: &[u8],
    numbers: &Numbers,
    from: usize,
    at: usize,
    ends: &[usize],
    page: &mut Rows,
) -> Result<(), AllocError>
    requires { from + length ends.now < 2 ^ 64 }
    ensures { OnOk result (page.new
        ≡ page.old ++ rows_from bytes.now numbers.now from at ends.now) }
{
    let mut index = from;
    let mut start = at;
    for end in ends {
        page.push(row_at(alloc, bytes, start, *end, numbers.at(index))?)?;
        start = *end;
        index += 1;
    }
    Ok(())
}

impl RowLog {
    /// No rows. They take least memory if their numbers follow one another from this one on.
    pub(crate) fn new(alloc: Global, first: u64) -> RowLog
        ensures { result ≡ [] }
    {
        RowLog {
            bytes: Vec::new(alloc),
            ends: Vec::new(alloc),
            numbers: Numbers::new(alloc, first),
        }
    }

    /// Adds a row.
    ///
    /// # Errors
    ///
    /// The rows are those that there were.
    pub(crate) fn push(&mut self, row: &Row) -> Result<(), AllocError>
        ensures ok { OnOk result (self.new ≡ self.old ++ row.now ∷ []) }
        ensures err { OnErr result (self.new ≡ self.old) }
    {
        let bytes = row.bytes.as_slice();
        self.bytes.reserve(bytes.len())?;
        self.ends.reserve(1)?;
        self.numbers.push(row.n)?;
        self.bytes.extend_from_slice(bytes)?;
        self.ends.push_reserved(self.bytes.len());
        Ok(())
    }

    /// Adds copies of the rows from a place on, at most that many, to a page.
    pub(crate) fn put_page(
        &self,
        from: usize,
        most: usize,
        page: &mut Rows,
    ) -> Result<(), AllocError>
        ensures { OnOk result (page.new ≡ page.old ++ take most (drop from self.now)) }
    {
        let alloc = *self.bytes.allocator();
        let start = log_end(prefix_of(&self.ends, from));
        let ends = prefix_of(rest_of(&self.ends, from), most);
        put_rows(alloc, &self.bytes, &self.numbers, from, start, ends, page)
    }
}
