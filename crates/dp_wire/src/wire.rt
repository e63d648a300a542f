//! Wires: what hands out links.

ghost use Rattle.std.specs.Prelude.{◌≡◌, ◌≤◌, ℕ, Option, Err, IfOk, OnOk, OnSome};
ghost use Rattle.dp_io.specs.Faults.{HasCause};
ghost use Rattle.dp_wire.specs.Links.{Links, Accepts, Dials, GivesBack};
ghost use Rattle.dp_wire.specs.Causes.{is_wire_fault};
ghost use Rattle.dp_wire.specs.declared.wire.WireError.{WireError as Errors};

use dp_io::{Sink, Source};
use std::alloc::AllocError;

/// Why a wire gave no link.
#[derive(Clone, Copy, Debug, PartialEq, Eq)]
pub enum WireError {
    /// The wire failed, and counted it.
    Failed,
    /// Memory ran out, and no link was taken.
    Memory,
}

impl From<AllocError> for WireError {
    ghost from_gives = { λ _ error. error ≡ Errors.Memory };

    fn from(_: AllocError) -> WireError {
        WireError::Memory
    }
}

/// What hands out links, one after another, and takes them back. A link is a source of what its
/// peer sends and a sink for what the peer is sent.
///
/// A link handed back stands at the end of those that came back before. So if links come back in
/// the order in which they were handed out, the two states of one link stand at the same place.
pub trait Wire {
    type Rx: Source + Send + Drop;

    type Tx: Sink + Send + Drop;

    /// The links, if they are known.
    ghost links: { Self → Option (Links Self.Rx Self.Tx) };

    /// How often the wire has failed; the count stops at the greatest `u64`.
    ghost faults: { Self → ℕ };

    /// How many links may be handed back before one is handed out again.
    ghost room: { Self → ℕ };

    /// The next link that a peer opens, or `None` exactly if none is to come. It may wait for
    /// one.
    ///
    /// # Errors
    ///
    /// `Failed` comes only if the count of faults rose in this call, and `Memory` if memory
    /// ran out. The links stay. `Ok` and `Memory` leave the count.
    fn accept(&mut self) -> Result<Option<(Self::Rx, Self::Tx)>, WireError>
        ensures links { Accepts (links self.old) result (links self.new) }
        ensures room { IfOk result (λ link. OnSome link (1 ≤ room self.new)) }
        ensures cause { HasCause is_wire_fault (faults self.old) (faults self.new) result }
        ensures memory { result ≡ Err WireError.Memory → faults self.new ≡ faults self.old };

    /// A link to the server.
    ///
    /// # Errors
    ///
    /// As at `accept`.
    fn dial(&mut self) -> Result<(Self::Rx, Self::Tx), WireError>
        ensures links { Dials (links self.old) result (links self.new) }
        ensures room { OnOk result (1 ≤ room self.new) }
        ensures cause { HasCause is_wire_fault (faults self.old) (faults self.new) result }
        ensures memory { result ≡ Err WireError.Memory → faults self.new ≡ faults self.old };

    /// Takes back a link that is finished. It takes no memory: the call that handed out a link made
    /// the room.
    fn done(&mut self, rx: Self::Rx, tx: Self::Tx)
        requires { 1 ≤ room self.old }
        ensures links { GivesBack (links self.old) rx tx (links self.new) }
        ensures count { faults self.new ≡ faults self.old };
}
