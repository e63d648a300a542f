//! Running a server.

ghost use Rattle.std.specs.Prelude.{◌≡◌, ◌≢◌, ◌≤◌, length};
ghost use Rattle.dp_commands.specs.Effects.{Streams, Untouched, effects, kept, stores, wire_seen};
ghost use Rattle.dp_commands.specs.Servers.{EndsServer, end_of_fault, server_end};

use crate::ran::{Ran, Resources};
use dp_any_session::AnySession;
use dp_endings::Ending;
use dp_keeper::Keeper;
use dp_lines::RunEnd;
use dp_serve::{Served, serve};
use dp_session::{ResumeError, ResumeFault, Session};
use dp_wire::{Gate, Wire};
use std::alloc::Global;
use std::sync::Wait;
use std::thread::Threads;

/// Serves the session of the store's rows with a worker for each wire, if there are as many as
/// it takes.
pub fn run_server<R: Threads + Wait + Sync, W: Wire + Send, K: Keeper + Send, G: Gate>(
    rt: &R,
    alloc: Global,
    wires: Vec<W>,
    keeper: K,
    workers: u32,
    conns: Option<u32>,
    gate: &G,
) -> Ran<W, K>
    requires { workers ≤ 64 }
    ensures ends { (s : Streams) → Untouched s → EndsServer
        (wire_seen W.links W.faults W.Rx.left W.Rx.faults W.Tx.held W.Tx.faults) workers conns
        (effects s wires.items result.wires.items
        (stores K.held K.put_faults K.read_faults keeper result.keeper)
        (kept result.journal result.shut result.reports)) result.ending }
    ensures keeper { length wires.items ≢ workers → result.keeper ≡ keeper }
{
    if wires.len() != workers as usize {
        return Ran::without(alloc, Ending::NoLink, Resources { wires, keeper });
    }
    let session = match Session::resume(alloc, keeper) {
        Ok(session) => session,
        Err(ResumeError { keeper, why }) => {
            return Ran::without(alloc, end_of_fault(why), Resources { wires, keeper });
        }
    };
    let session = AnySession::new(session);
    let Served {
        wires,
        keeper,
        journal,
        shut,
        reports,
        memory,
        store,
        wire,
    } = serve(rt, alloc, session, wires, conns, gate);
    Ran {
        ending: server_end(memory, store, wire),
        wires,
        keeper,
        journal,
        shut,
        reports,
    }
}

/// How the program ends if a session can't be resumed for that.
fn end_of_fault(why: ResumeFault) -> Ending
    ensures { result ≡ end_of_fault why }
{
    match why {
        ResumeFault::StoreFault => Ending::StoreFault,
        ResumeFault::BadRow { n, row } => Ending::BadRow { n, row },
        ResumeFault::Memory => Ending::Run(RunEnd::Memory),
    }
}

/// How a server ends, by whether memory ran out, the store failed, and a wire failed.
fn server_end(memory: bool, store: bool, wire: bool) -> Ending
    ensures { result ≡ server_end memory store wire }
{
    match (memory, store, wire) {
        (true, _, _) => Ending::Run(RunEnd::Memory),
        (false, true, _) => Ending::StoreFault,
        (false, false, true) => Ending::Run(RunEnd::LinkFault),
        (false, false, false) => Ending::Run(RunEnd::Done),
    }
}
