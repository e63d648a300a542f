//! Rows.

ghost use Rattle.std.specs.Prelude.{◌≡◌, take, drop, IfOk};

use dp_lists::{Listed, prefix_of, rest_of};
use std::alloc::AllocError;

/// The bytes of a row.
pub type RowBytes = Listed<u8>;

/// A row of a store.
#[derive(Debug)]
pub struct Row {
    /// Its number, from 0.
    pub n: u64,
    pub bytes: RowBytes,
}

impl Drop for Row {
    fn drop(self) {
        let Row { n: _, bytes } = self;
        drop(bytes);
    }
}

impl Clone for Row {
    ghost is_clone = { λ a b. b ≡ a };

    fn clone(&self) -> Result<Row, AllocError> {
        Ok(Row {
            n: self.n,
            bytes: self.bytes.copy()?,
        })
    }
}

/// Rows, in order.
pub type Rows = Listed<Row>;

/// Copies of the rows from a place on, at most `max` of them.
pub(crate) fn page(rows: &Rows, from: u64, max: u32) -> Result<Rows, AllocError>
    ensures { IfOk result (λ page. page ≡ take max (drop from rows.now)) }
{
    let page = prefix_of(rest_of(rows.as_slice(), from as usize), max as usize);
    Ok(Listed::from_vec(page.to_vec(rows.allocator())?))
}
