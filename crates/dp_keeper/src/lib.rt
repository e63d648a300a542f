//! Stores of rows: what keeps the events of a session.
#![tactic(auto)]

mod keeper;
mod log;
mod memory;
mod numbers;
mod row;
mod sure;

pub use keeper::{KeepError, Keeper};
pub use memory::MemKeeper;
pub use row::{Row, RowBytes, Rows};
pub use sure::SureKeeper;
