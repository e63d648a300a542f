//! Wires over TCP for a command.

ghost use Rattle.std.specs.Prelude.{map, string_bytes, IfOk};
ghost use Rattle.dp_words.specs.declared.devices.Devices.{Devices};
ghost use Rattle.dp_sockets.specs.Wires.{AreFor, WordsWant};

use dp_wire::{TcpWire, WireError};
use dp_words::{Devices, wanted};
use std::alloc::{AllocError, Global};
use std::net::{Net, TcpListener, TcpStream};

/// The wires that the words want: one that dials the server of `join`, one that listens for each
/// worker of a server, and none for other words. There are none if the system refuses to listen.
pub fn wires_for<N: Net<Listener = TcpListener, Stream = TcpStream> + Copy + Drop>(
    net: &N,
    alloc: Global,
    words: &[String],
) -> Result<Vec<TcpWire<N>>, AllocError>
    ensures { IfOk result (λ wires. WordsWant (map string_bytes words.now) wires.items) }
{
    wires_of(net, alloc, &wanted(alloc, words)?)
}

/// The wires of a command's devices.
fn wires_of<N: Net<Listener = TcpListener, Stream = TcpStream> + Copy + Drop>(
    net: &N,
    alloc: Global,
    devices: &Devices,
) -> Result<Vec<TcpWire<N>>, AllocError>
    ensures { IfOk result (λ wires. AreFor devices.now wires.items) }
{
    let mut wires = Vec::new(alloc);
    match devices {
        Devices::Nothing => {}
        Devices::Dial { addr } => wires.push(TcpWire::dialer(net, alloc, addr.as_str())?)?,
        Devices::Listen {
            addr,
            workers,
            journal: _,
        } => {
            match TcpWire::listen(net, alloc, addr.as_str(), *workers) {
                Ok(listening) => return Ok(listening),
                Err(WireError::Failed) => {}
                Err(WireError::Memory) => return Err(AllocError),
            }
        }
    }
    Ok(wires)
}
