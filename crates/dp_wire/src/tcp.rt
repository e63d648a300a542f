//! Wires over TCP. No clause says what a socket gives or takes: links, waiting and closing are only
//! tested.

ghost use Rattle.std.specs.Prelude.{◌≡◌, ◌≤◌, true, false, None, Ok, Err, IfOk, OnErr};
ghost use Rattle.std.specs.Prelude.{IsFalse, All, vec_len};
ghost use Rattle.dp_io.specs.Faults.{HasCause, one_more};
ghost use Rattle.dp_wire.specs.Causes.{is_wire_fault};

mod halves;

use crate::{Wire, WireError};
use halves::{close, link_of};
pub use halves::{TcpRx, TcpTx};
use std::alloc::{AllocError, Global};
use std::io;
use std::io::ErrorKind;
use std::marker::Model;
use std::net::{Net, TcpListener, TcpStream};

/// Where the links of a wire come from.
enum Place {
    Listening(TcpListener),
    Dialing(String),
}

impl Drop for Place {
    fn drop(self) {
        match self {
            Place::Listening(listener) => drop(listener),
            Place::Dialing(addr) => drop(addr),
        }
    }
}

/// A wire over TCP. It listens at an address and accepts the links that peers open, or it dials an
/// address. Its links are not known to contracts.
pub struct TcpWire<N> {
    net: N,
    place: Place,
    faults: u64,
}

impl<N: Drop> Drop for TcpWire<N> {
    fn drop(self) {
        let TcpWire {
            net,
            place,
            faults: _,
        } = self;
        drop(net);
        drop(place);
    }
}

impl<N> Model for TcpWire<N> {
    ghost use Rattle.dp_wire.specs.Sockets.{TcpState, listens};

    ghost Value = { TcpState };

    ghost view = { λ w. record { is_listening = listens w.place; faults = w.faults } };
}

impl<N: Net<Listener = TcpListener, Stream = TcpStream> + Copy> TcpWire<N> {
    /// Wires that listen at an address, such as `127.0.0.1:7000`, all with one listener: each link
    /// goes to one of them. The system chooses a port in place of port 0 (`port`).
    ///
    /// # Errors
    ///
    /// `Failed` if the system refused to listen there, and `Memory` if memory ran out.
    pub fn listen(
        net: &N,
        alloc: Global,
        addr: &str,
        wires: u32,
    ) -> Result<Vec<TcpWire<N>>, WireError>
        ensures count { IfOk result (λ list. vec_len list ≡ wires) }
        ensures each { IfOk result (λ list.
            All (λ wire. wire ≡ record { is_listening = true; faults = 0 }) list.items) }
    {
        let Ok(listener) = TcpListener::bind(net, addr) else {
            return Err(WireError::Failed);
        };
        let mut list = Vec::new(alloc);
        for _ in 0..wires {
            let Ok(listener) = listener.try_clone() else {
                return Err(WireError::Failed);
            };
            let wire = TcpWire::at(*net, Place::Listening(listener));
            if list.push(wire).is_err() {
                return Err(WireError::Memory);
            }
        }
        Ok(list)
    }

    /// A wire that dials an address, anew for each link.
    ///
    /// # Errors
    ///
    /// If memory runs out.
    pub fn dialer(net: &N, alloc: Global, addr: &str) -> Result<TcpWire<N>, AllocError>
        ensures { IfOk result (λ wire. wire ≡ record { is_listening = false; faults = 0 }) }
    {
        let addr = String::from_str(alloc, addr)?;
        Ok(TcpWire::at(*net, Place::Dialing(addr)))
    }

    /// The port that it listens at. `None` if it dials, or if the system does not say.
    pub fn port(&self) -> Option<u16>
        ensures { IsFalse self.now.is_listening → result ≡ None }
    {
        match &self.place {
            Place::Listening(listener) => Some(listener.local_addr().ok()?.port()),
            Place::Dialing(_) => None,
        }
    }
}

impl<N> TcpWire<N> {
    ghost use Rattle.dp_wire.specs.Sockets.{listens};

    /// A wire with no fault so far.
    fn at(net: N, place: Place) -> TcpWire<N>
        ensures { result ≡ record { is_listening = listens place; faults = 0 } }
    {
        TcpWire {
            net,
            place,
            faults: 0,
        }
    }

    /// Counts a fault.
    fn count_fault(&mut self)
        ensures counted { self.new ≡ record self.old { faults = one_more self.old.faults } }
        ensures later { self.old.faults ≤ self.new.faults }
    {
        self.faults = self.faults.saturating_add(1);
    }
}

impl<N: Net<Listener = TcpListener, Stream = TcpStream> + Drop> Wire for TcpWire<N> {
    type Rx = TcpRx;

    type Tx = TcpTx;

    ghost links = { λ _. None };

    ghost faults = { λ w. w.faults };

    ghost room = { λ _. 1 };

    /// Waits until a peer opens a link. A wire that dials has none to come.
    fn accept(&mut self) -> Result<Option<(TcpRx, TcpTx)>, WireError>
        ensures cause { HasCause is_wire_fault self.old.faults self.new.faults result }
        ensures memory { result ≡ Err WireError.Memory → self.new.faults ≡ self.old.faults }

        // Each error is counted once, and a wire that dials has none and gives none.
        ensures counted { OnErr result (self.new.faults ≡ one_more self.old.faults) }
        ensures place { self.new.is_listening ≡ self.old.is_listening }
        ensures dialing { IsFalse self.old.is_listening → result ≡ Ok None }
    {
        let link = match &self.place {
            Place::Listening(listener) => next_link(listener),
            Place::Dialing(_) => return Ok(None),
        };
        match link {
            Ok(link) => Ok(Some(link)),
            Err(_) => {
                self.count_fault();
                Err(WireError::Failed)
            }
        }
    }

    /// Waits until the peer answers. A wire that listens can't dial, which is a fault.
    fn dial(&mut self) -> Result<(TcpRx, TcpTx), WireError>
        ensures cause { HasCause is_wire_fault self.old.faults self.new.faults result }
        ensures memory { result ≡ Err WireError.Memory → self.new.faults ≡ self.old.faults }

        // Each error is counted once.
        ensures counted { OnErr result (self.new.faults ≡ one_more self.old.faults) }
        ensures place { self.new.is_listening ≡ self.old.is_listening }
        ensures listening { self.old.is_listening ≡ true → result ≡ Err WireError.Failed }
    {
        let link = match &self.place {
            Place::Listening(_) => {
                self.count_fault();
                return Err(WireError::Failed);
            }
            Place::Dialing(addr) => dialed(&self.net, addr.as_str()),
        };
        match link {
            Ok(link) => Ok(link),
            Err(_) => {
                self.count_fault();
                Err(WireError::Failed)
            }
        }
    }

    /// Closes the link so that the last bytes arrive.
    fn done(&mut self, rx: TcpRx, tx: TcpTx)
        ensures { self.new ≡ self.old }
    {
        close(rx, tx);
    }
}

/// The numbers by which the system tells, in place of a link, that one was lost before it was
/// given: EPERM, ENONET, EPROTO, ENOPROTOOPT, EOPNOTSUPP, ENETDOWN, ENETUNREACH, ECONNABORTED,
/// ECONNRESET, ETIMEDOUT, EHOSTDOWN and EHOSTUNREACH.
const LOST: [i32; 12] = [1, 64, 71, 92, 95, 100, 101, 103, 104, 110, 112, 113];

/// The next link of a listener. One that was lost before it was given is passed over, and so is one
/// whose socket takes no option or has no second handle: the peer finds it closed.
fn next_link(listener: &TcpListener) -> io::Result<(TcpRx, TcpTx)> {
    for _ in 0..u64::MAX {
        match listener.accept() {
            Ok((stream, _)) => {
                if let Ok(link) = link_of(stream) {
                    return Ok(link);
                }
            }
            Err(error) if is_lost(&error) => {}
            Err(error) => return Err(error),
        }
    }
    Err(ErrorKind::ConnectionAborted.into())
}

/// Whether an error tells that a link was lost before it was given.
fn is_lost(error: &io::Error) -> bool {
    match error.raw_os_error() {
        Some(number) => LOST.contains(&number),
        None => false,
    }
}

/// A link to this address.
fn dialed<N: Net<Stream = TcpStream>>(net: &N, addr: &str) -> io::Result<(TcpRx, TcpTx)> {
    link_of(TcpStream::connect(net, addr)?)
}
