//! A list of bytes.

use dp_lists::Listed;

/// A list of bytes.
pub type Octets = Listed<u8>;
