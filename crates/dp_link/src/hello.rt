//! A painter is greeted.

ghost use Rattle.std.specs.Prelude.{◌≡◌, ◌≢◌, ◌+◌, ◌≤◌, [], false, None, Ok, Err, IfOk, OnOk};
ghost use Rattle.std.specs.Prelude.{ℕ, List, length};
ghost use Rattle.std.specs.Io.KnownBytes.{IsAtEnd};
ghost use Rattle.dp_hall.specs.Calls.{IsOf};
ghost use Rattle.dp_io.specs.Limits.{stream_limit};
ghost use Rattle.dp_link.specs.Acts.{ActsOnce, SeatView, last_outcome};
ghost use Rattle.dp_link.specs.Answers.{reason_of, OpensWith};
ghost use Rattle.dp_link.specs.Hello.{Greets, FaultMatchesHello, Answers, ReadsName};
ghost use Rattle.dp_link.specs.Hello.{NameOf, Welcomes, RefusesBy, FaultMatchesRefusal};
ghost use Rattle.dp_link.specs.Hello.{FaultMatchesWelcome};

use crate::acting::{Worker, act_once};
use crate::answers::{put_goodbye, put_welcome, reason_of};
use crate::reading::{greet_end_of, reader_of};
use crate::{GreetEnd, Greeting};
use dp_any_session::{AnySession, SessionCore};
use dp_epochs::{Event, Reply};
use dp_frame::Octets;
use dp_hall::{Seat, calls_add_up};
use dp_io::{Failed, Sink, Source};
use dp_messages::{Entry, Msg, one_answer};
use dp_msg_meta::Control;
use dp_split::Splitter;
use dp_wire::Gate;
use std::alloc::{AllocError, Global};
use std::mem::replace;
use std::sync::Wait;

/// Reads the Hello of a link, acts an Open by its name, and answers with a Welcome, or with a
/// Disconnect if the session refuses. It reads pieces of at most 4096 bytes. What was read after
/// the Hello is held.
///
/// # Errors
///
/// The link is done with then. `ReadFault`, `End` and `BadMessage` come before any act, and nothing
/// is written. `Refused` carries the answer to the Open. After `WriteFault` a painter who had
/// joined has left again, and a prefix of the answer was written. `Memory` comes before the Open,
/// or if the Open was refused for it, and nothing is written.
pub fn greet<W: Wait, C: SessionCore, R: Source, S: Sink, G: Gate>(
    worker: &Worker<'_, W, C, G>,
    seat: &mut Seat<AnySession<C>>,
    rx: &mut R,
    tx: &mut S,
    split: &mut Splitter,
) -> Result<Greeting, GreetEnd>
    requires of { IsOf worker.now.hall.now seat.old }
    requires fresh { split.old ≡ record { held = []; at = 0 } }
    ensures of { IsOf worker.now.hall.now seat.new }
    ensures greets { Greets seat.old.view seat.new.view (R.left rx.old) (R.left rx.new)
        (S.held tx.old) (S.held tx.new) split.new result }
    ensures within { OnOk result (split.new.at + length split.new.held ≤ stream_limit) }
    ensures at_end { result ≡ Err GreetEnd.End → IsAtEnd (R.left rx.new) }
    ensures fault { FaultMatchesHello result (R.faults rx.old) (R.faults rx.new)
        (S.faults tx.old) (S.faults tx.new) }
{
    run_greet(worker, seat, rx, tx, split).end
}

/// How greeting ended, and what came of its last act, if there was one.
#[derive(Clone, Copy)]
pub struct GreetRun {
    pub end: Result<Greeting, GreetEnd>,
    pub last: Option<Result<Reply, AllocError>>,
}

/// Greets as `greet` does, and also gives what came of the last act.
pub fn run_greet<W: Wait, C: SessionCore, R: Source, S: Sink, G: Gate>(
    worker: &Worker<'_, W, C, G>,
    seat: &mut Seat<AnySession<C>>,
    rx: &mut R,
    tx: &mut S,
    split: &mut Splitter,
) -> GreetRun
    requires of { IsOf worker.now.hall.now seat.old }
    requires fresh { split.old ≡ record { held = []; at = 0 } }
    ensures of { IsOf worker.now.hall.now seat.new }
    ensures greets { (h : Greets seat.old.view seat.new.view (R.left rx.old) (R.left rx.new)
        (S.held tx.old) (S.held tx.new) split.new result.end)
        × (last_outcome h.acts ≡ result.last) }
    ensures within { OnOk result.end (split.new.at + length split.new.held ≤ stream_limit) }
    ensures at_end { result.end ≡ Err GreetEnd.End → IsAtEnd (R.left rx.new) }
    ensures fault { FaultMatchesHello result.end (R.faults rx.old) (R.faults rx.new)
        (S.faults tx.old) (S.faults tx.new) }
{
    calls_add_up::<Event, Result<Reply, AllocError>, AnySession<C>>();
    match read_name(worker.alloc, rx, split) {
        Ok(name) => answer(worker, seat, tx, name),
        Err(end) => GreetRun {
            end: Err(end),
            last: None,
        },
    }
}

/// Reads the first message of a link, and gives the name of the Hello that it is. What was read
/// after it is held.
fn read_name<R: Source>(alloc: Global, rx: &mut R, split: &mut Splitter) -> Result<Octets, GreetEnd>
    requires fresh { split.old ≡ record { held = []; at = 0 } }
    ensures reads { ReadsName (R.left rx.old) (R.left rx.new) split.new result }
    ensures within { OnOk result (split.new.at + length split.new.held ≤ stream_limit) }
    ensures at_end { result ≡ Err GreetEnd.End → IsAtEnd (R.left rx.new) }
    ensures fault { FaultMatchesHello result (R.faults rx.old) (R.faults rx.new) 0 0 }
{
    one_answer();
    let mut link = reader_of(alloc, split);
    match link.next(alloc, rx) {
        Ok(Some(entry)) => {
            drop(replace(split, link.into_splitter()));
            name_in(alloc, entry)
        }
        Ok(None) => {
            drop(link);
            Err(GreetEnd::End)
        }
        Err(end) => {
            drop(link);
            Err(greet_end_of(&end))
        }
    }
}

/// The name of the Hello that the first entry of a link is.
fn name_in(alloc: Global, entry: Entry) -> Result<Octets, GreetEnd>
    ensures { NameOf result entry.msg }
{
    let name = name_of(alloc, &entry.msg);
    drop(entry);
    name
}

/// The name in a message, if it is a Hello.
fn name_of(alloc: Global, msg: &Msg) -> Result<Octets, GreetEnd>
    ensures { NameOf result msg.now }
{
    let Msg::Control(Control::Hello { name }) = msg else {
        return Err(GreetEnd::BadMessage { at: 0 });
    };
    let mut bytes = Octets::new(alloc);
    match bytes.append(name.as_slice()) {
        Ok(()) => Ok(bytes),
        Err(AllocError) => {
            drop(bytes);
            Err(GreetEnd::Memory)
        }
    }
}

/// Acts an Open by the name, and writes the answer.
fn answer<W: Wait, C: SessionCore, S: Sink, G: Gate>(
    worker: &Worker<'_, W, C, G>,
    seat: &mut Seat<AnySession<C>>,
    tx: &mut S,
    name: Octets,
) -> GreetRun
    requires { IsOf worker.now.hall.now seat.old }
    ensures of { IsOf worker.now.hall.now seat.new }
    ensures answers { (h : Answers seat.old.view seat.new.view (S.held tx.old) (S.held tx.new)
        name result.end) × (last_outcome h.acts ≡ result.last) }
    ensures fault { FaultMatchesHello result.end 0 0 (S.faults tx.old) (S.faults tx.new) }
{
    match open(worker, seat, name) {
        Ok(reply) => answer_reply(worker, seat, tx, reply),
        Err(error) => GreetRun {
            end: Err(GreetEnd::Memory),
            last: Some(Err(error)),
        },
    }
}

/// Writes the answer to an Open that had this reply.
fn answer_reply<W: Wait, C: SessionCore, S: Sink, G: Gate>(
    worker: &Worker<'_, W, C, G>,
    seat: &mut Seat<AnySession<C>>,
    tx: &mut S,
    reply: Reply,
) -> GreetRun
    requires of { IsOf worker.now.hall.now seat.old }
    requires reply { OpensWith reply }
    ensures of { IsOf worker.now.hall.now seat.new }
    ensures answers { (before : SeatView) (name : List ℕ)
        → ActsOnce before (Event.Open name false) (Ok reply) seat.old.view
        → (h : Answers before seat.new.view (S.held tx.old) (S.held tx.new) name result.end)
        × (last_outcome h.acts ≡ result.last) }
    ensures fault { FaultMatchesHello result.end 0 0 (S.faults tx.old) (S.faults tx.new) }
{
    calls_add_up::<Event, Result<Reply, AllocError>, AnySession<C>>();
    let last = Some(Ok(reply));
    match reply {
        Reply::Opened {
            conn,
            user,
            epoch,
            at,
        } => {
            let greeting = Greeting {
                conn,
                user,
                epoch,
                at,
            };
            match welcome(worker, seat, tx, &greeting) {
                Ok(()) => GreetRun {
                    end: Ok(greeting),
                    last,
                },
                Err(close) => GreetRun {
                    end: Err(GreetEnd::WriteFault),
                    last: Some(close),
                },
            }
        }
        other => GreetRun {
            end: Err(refuse(tx, other)),
            last,
        },
    }
}

/// Acts an Open by the name.
fn open<W: Wait, C: SessionCore, G: Gate>(
    worker: &Worker<'_, W, C, G>,
    seat: &mut Seat<AnySession<C>>,
    name: Octets,
) -> Result<Reply, AllocError>
    requires { IsOf worker.now.hall.now seat.old }
    ensures of { IsOf worker.now.hall.now seat.new }
    ensures acts { ActsOnce seat.old.view (Event.Open name false) result seat.new.view }
    ensures answer { IfOk result OpensWith }
{
    let event = Event::Open {
        name,
        registered: false,
    };
    let outcome = act_once(worker, seat, &event, 1);
    drop(event);
    outcome
}

/// Writes the Welcome. If that fails the connection is closed, and the error is what came of the
/// Close.
fn welcome<W: Wait, C: SessionCore, S: Sink, G: Gate>(
    worker: &Worker<'_, W, C, G>,
    seat: &mut Seat<AnySession<C>>,
    tx: &mut S,
    greeting: &Greeting,
) -> Result<(), Result<Reply, AllocError>>
    requires { IsOf worker.now.hall.now seat.old }
    ensures of { IsOf worker.now.hall.now seat.new }
    ensures welcomes { Welcomes seat.old.view seat.new.view (S.held tx.old) (S.held tx.new)
        greeting.now result }
    ensures fault { FaultMatchesWelcome result (S.faults tx.old) (S.faults tx.new) }
{
    calls_add_up::<Event, Result<Reply, AllocError>, AnySession<C>>();
    match put_welcome(tx, greeting) {
        Ok(()) => Ok(()),
        Err(Failed) => {
            let event = Event::Close {
                conn: greeting.conn,
            };
            let outcome = act_once(worker, seat, &event, 2);
            drop(event);
            Err(outcome)
        }
    }
}

/// Writes the Disconnect after an Open that was refused.
fn refuse<S: Sink>(tx: &mut S, reply: Reply) -> GreetEnd
    requires { reason_of reply ≢ None }
    ensures refuses { RefusesBy result reply (S.held tx.old) (S.held tx.new) }
    ensures fault { FaultMatchesRefusal result (S.faults tx.old) (S.faults tx.new) }
{
    let Some(reason) = reason_of(&reply) else {
        unreachable!()
    };
    match put_goodbye(tx, reason) {
        Ok(()) => GreetEnd::Refused(reply),
        Err(Failed) => GreetEnd::WriteFault,
    }
}
