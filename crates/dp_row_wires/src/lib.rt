//! What a row of `dp_rows` runs over: its input, its wires with their links, its gate and its
//! store. Then what is printed of these.
#![tactic(auto)]

mod ends;
mod gate;
mod left;
mod source;
mod wires;

pub use ends::{RowRx, RowTx, Sent};
pub use gate::RowGate;
pub use left::{Told, keeper_of, put_gate, put_kept, put_told};
pub use source::RowSource;
pub use wires::{LinkFails, RowWire, RowWires, put_sent_on, wires_of};
