//! What can be shown of a client, the text that is due for it, and a law of the boards that it
//! draws.
//!
//! The rule: docs/protocol.md, "Showing a client".
#![tactic(auto)]

mod laws;
mod showing;

pub use laws::clients_show;
pub use showing::Shown;
