//! What a function holds while it makes something else.

use std::alloc::AllocError;

/// Both, if the other one was made. Else the first is let go.
pub fn both<T: Drop, U>(first: T, other: Result<U, AllocError>) -> Result<(T, U), AllocError> {
    match other {
        Ok(other) => Ok((first, other)),
        Err(error) => {
            drop(first);
            Err(error)
        }
    }
}

/// What was filled, if filling it ended well. Else it is let go.
pub fn filled<T: Drop>(made: T, end: Result<(), AllocError>) -> Result<T, AllocError> {
    match end {
        Ok(()) => Ok(made),
        Err(error) => {
            drop(made);
            Err(error)
        }
    }
}
