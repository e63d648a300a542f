//! What a painter says is acted on the hall of the session.

ghost use Rattle.std.specs.Prelude.{◌≡◌, ◌≢◌, ◌+◌, ◌<◌, ◌≤◌, ℕ, List, [], ◌∷◌, ◌++◌, length};
ghost use Rattle.std.specs.Prelude.{Err, IfOk, IfErr, OnOk, OnErr};
ghost use Rattle.std.specs.declared.option.Option.{Option};
ghost use Rattle.std.specs.Io.KnownBytes.{IsAtEnd};
ghost use Rattle.dp_hall.specs.Calls.{IsOf};
ghost use Rattle.dp_split.specs.Stream.{Stream};
ghost use Rattle.dp_frame.specs.Frames.{HoldsNoFrame};
ghost use Rattle.dp_messages.specs.declared.message.Entry.{Entry as Item};
ghost use Rattle.dp_messages.specs.Properties.{is_disconnect};
ghost use Rattle.dp_entries.specs.Anywhere.{StandsAnywhere};
ghost use Rattle.dp_entries.specs.Onward.{ReadOn};
ghost use Rattle.dp_entries.specs.Reader.{HoldsWithin};
ghost use Rattle.dp_link.specs.Acts.{SeatView};
ghost use Rattle.dp_link.specs.Hearing.{HeardOne, HeardMore, HeardEnd, HeardToEnd};
ghost use Rattle.dp_link.specs.Hearing.{EndsHearing, ActsSays, end_by};
ghost use Rattle.dp_session_laws.specs.Journals.{is_kept};
ghost use Rattle.dp_session_laws.specs.Logs.{ReplyOrMemory as Came};
ghost use Rattle.dp_io.specs.Limits.{stream_limit};
ghost use Rattle.dp_link.specs.Saying.{SaysAll, SaysNext, SaidSoFar, SaidToEnd};
ghost use Rattle.dp_link.specs.Saying.{FaultMatchesSay, FaultMatchesUp, messages_of};

use crate::UpEnd;
use crate::acting::{Worker, act_once};
use crate::reading::{reader_of, up_end_of};
use dp_any_session::{AnySession, SessionCore};
use dp_entries::{Anywhere, EntryReader};
use dp_epochs::{Event, Reply};
use dp_hall::{Acted, Listener, Seat, calls_add_up};
use dp_io::Source;
use dp_messages::{Entry, one_answer};
use dp_split::Splitter;
use dp_wire::Gate;
use std::alloc::{AllocError, Global};
use std::sync::Wait;

/// How the messages of a link ended, and what the Close was answered.
#[derive(Clone, Copy, Debug)]
pub struct UpRun {
    pub end: UpEnd,
    pub close: Result<Reply, AllocError>,
}

/// Acts a Say for each message of a link, and in the end a Close, whatever the end. The link begins
/// with what the splitter holds. Pieces of at most 4096 bytes are read, and only if no whole
/// frame is held. Of a link the first 2^30 bytes count.
pub fn pump_up<W: Wait, C: SessionCore, R: Source, G: Gate>(
    worker: &Worker<'_, W, C, G>,
    seat: &mut Seat<AnySession<C>>,
    rx: &mut R,
    split: &mut Splitter,
    conn: u32,
) -> UpEnd
    requires of { IsOf worker.now.hall.now seat.old }
    requires within { split.old.at + length split.old.held ≤ stream_limit }
    ensures of { IsOf worker.now.hall.now seat.new }
    ensures says { (outcome : Came) × SaysAll seat.old.view seat.new.view
        (R.left rx.old) (R.left rx.new) split.old conn result outcome }
    ensures at_end { result ≡ UpEnd.End → IsAtEnd (R.left rx.new) }
    ensures fault { FaultMatchesUp result (R.faults rx.old) (R.faults rx.new) }
{
    run_up(worker, seat, rx, split, conn).end
}

/// Pumps as `pump_up` does, and also gives what the Close was answered.
pub fn run_up<W: Wait, C: SessionCore, R: Source, G: Gate>(
    worker: &Worker<'_, W, C, G>,
    seat: &mut Seat<AnySession<C>>,
    rx: &mut R,
    split: &mut Splitter,
    conn: u32,
) -> UpRun
    requires of { IsOf worker.now.hall.now seat.old }
    requires within { split.old.at + length split.old.held ≤ stream_limit }
    ensures of { IsOf worker.now.hall.now seat.new }
    ensures says { SaysAll seat.old.view seat.new.view
        (R.left rx.old) (R.left rx.new) split.old conn result.end result.close }
    ensures at_end { result.end ≡ UpEnd.End → IsAtEnd (R.left rx.new) }
    ensures fault { FaultMatchesUp result.end (R.faults rx.old) (R.faults rx.new) }
{
    calls_add_up::<Event, Result<Reply, AllocError>, AnySession<C>>();
    let mut speaker = Speaker {
        conn,
        acts: 1,
        says: Vec::new(worker.alloc),
    };
    let end = say_all(worker, seat, rx, split, &mut speaker);
    let n = next_act(&mut speaker.acts);
    drop(speaker);
    let event = Event::Close { conn };
    let close = act_once(worker, seat, &event, n);
    drop(event);
    UpRun { end, close }
}

/// Who speaks over a link: its connection, the number of its last act, and the Says that were heard
/// last.
#[derive(Drop)]
struct Speaker {
    conn: u32,
    acts: u64,
    says: Vec<Event>,
}

/// The number of the next act of a link.
fn next_act(acts: &mut u64) -> u64 {
    *acts = acts.saturating_add(1);
    *acts
}

/// Counts `count` acts of a link. After each of them the worker passes the gate.
fn pass_acts<G: Gate>(gate: &G, who: u32, acts: &mut u64, count: usize) {
    for _act in 0..count {
        let n = next_act(acts);
        gate.pass(who, n);
    }
}

/// Says the messages of a link to its end.
fn say_all<W: Wait, C: SessionCore, R: Source, G: Gate>(
    worker: &Worker<'_, W, C, G>,
    seat: &mut Seat<AnySession<C>>,
    rx: &mut R,
    split: &mut Splitter,
    speaker: &mut Speaker,
) -> UpEnd
    requires of { IsOf worker.now.hall.now seat.old }
    requires within { split.old.at + length split.old.held ≤ stream_limit }
    ensures of { IsOf worker.now.hall.now seat.new }
    ensures says { SaidToEnd seat.old.view seat.new.view
        (R.left rx.old) (R.left rx.new) split.old speaker.old.conn result }
    ensures at_end { result ≡ UpEnd.End → IsAtEnd (R.left rx.new) }
    ensures fault { FaultMatchesUp result (R.faults rx.old) (R.faults rx.new) }
{
    calls_add_up::<Event, Result<Reply, AllocError>, AnySession<C>>();
    let mut link = reader_of(worker.alloc, split);
    'messages: loop {
        match say_next(worker, seat, rx, &mut link, speaker) {
            Ok(()) => {}
            Err(end) => {
                drop(link);
                return end;
            }
        }
    }
}

/// Says the next messages of a link: those that it holds whole, and if it holds none those of the
/// next pieces.
fn say_next<W: Wait, C: SessionCore, R: Source, G: Gate>(
    worker: &Worker<'_, W, C, G>,
    seat: &mut Seat<AnySession<C>>,
    rx: &mut R,
    link: &mut EntryReader<Anywhere>,
    speaker: &mut Speaker,
) -> Result<(), UpEnd>
    requires of { IsOf worker.now.hall.now seat.old }
    requires limit { link.old.limit ≡ stream_limit }
    ensures of { IsOf worker.now.hall.now seat.new }
    ensures says { (v : SeatView) (left : Option (List ℕ)) (start : Stream)
        → SaidSoFar v seat.old.view left (R.left rx.old) start link.old speaker.old.conn
        → SaysNext result v seat.new.view left (R.left rx.new) start link.new speaker.old.conn }
    ensures conn { speaker.new.conn ≡ speaker.old.conn }
    ensures further { OnOk result (link.old.stream.at < link.new.stream.at) }
    ensures within { HoldsWithin link.new }
    ensures limit { link.new.limit ≡ stream_limit }
    ensures at_end { result ≡ Err UpEnd.End → IsAtEnd (R.left rx.new) }
    ensures fault { FaultMatchesSay result (R.faults rx.old) (R.faults rx.new) }
{
    one_answer();
    match link.fill(rx) {
        Ok(true) => say_held(worker, seat, link, speaker),
        Ok(false) => Err(UpEnd::End),
        Err(end) => Err(up_end_of(&end)),
    }
}

/// Says the messages that a link holds whole, up to a Disconnect. They are heard before the turn.
fn say_held<W: Wait, C: SessionCore, G: Gate>(
    worker: &Worker<'_, W, C, G>,
    seat: &mut Seat<AnySession<C>>,
    link: &mut EntryReader<Anywhere>,
    speaker: &mut Speaker,
) -> Result<(), UpEnd>
    requires of { IsOf worker.now.hall.now seat.old }
    requires limit { link.old.limit ≡ stream_limit }
    requires held { ¬ HoldsNoFrame link.old.stream.held }
    ensures of { IsOf worker.now.hall.now seat.new }
    ensures says { (v : SeatView) (left unread : Option (List ℕ)) (start : Stream)
        → SaidSoFar v seat.old.view left unread start link.old speaker.old.conn
        → SaysNext result v seat.new.view left unread start link.new speaker.old.conn }
    ensures conn { speaker.new.conn ≡ speaker.old.conn }
    ensures further { OnOk result (link.old.stream.at < link.new.stream.at) }
    ensures within { HoldsWithin link.new }
    ensures limit { link.new.limit ≡ stream_limit }
    ensures not_end { result ≢ Err UpEnd.End }
    ensures fault { (n : ℕ) → FaultMatchesSay result n n }
{
    calls_add_up::<Event, Result<Reply, AllocError>, AnySession<C>>();
    let heard = hear(worker.alloc, link, speaker.conn, &mut speaker.says);
    let stop = say(worker, seat, speaker);
    end_by(stop, heard)
}

/// Hears the messages that a link holds whole, up to a Disconnect, and makes a Say of each. Whether
/// the last one is a Disconnect.
fn hear(
    alloc: Global,
    link: &mut EntryReader<Anywhere>,
    conn: u32,
    says: &mut Vec<Event>,
) -> Result<bool, UpEnd>
    requires limit { link.old.limit ≡ stream_limit }
    requires held { ¬ HoldsNoFrame link.old.stream.held }
    ensures more { IfOk result (λ leaves.
        (left unread : Option (List ℕ)) (start : Stream) (entries : List Item)
        → ReadOn StandsAnywhere left unread start entries link.old
        → HeardMore left unread start entries conn says.new.items leaves link.new) }
    ensures ended { IfErr result (λ end.
        (left unread : Option (List ℕ)) (start : Stream) (entries : List Item)
        → ReadOn StandsAnywhere left unread start entries link.old
        → HeardToEnd left unread start entries conn says.new.items end) }
    ensures ends { IfErr result EndsHearing }
    ensures further { OnOk result (link.old.stream.at < link.new.stream.at) }
    ensures within { HoldsWithin link.new }
    ensures limit { link.new.limit ≡ stream_limit }
{
    says.clear();
    'messages: loop {
        match hear_one(alloc, link, conn, says) {
            Ok(true) => return Ok(true),
            Ok(false) => {
                if !link.holds_frame() {
                    return Ok(false);
                }
            }
            Err(end) => return Err(end),
        }
    }
}

/// Hears the first message that a link holds, and puts a Say of it after the others. Whether it is
/// a Disconnect.
fn hear_one(
    alloc: Global,
    link: &mut EntryReader<Anywhere>,
    conn: u32,
    says: &mut Vec<Event>,
) -> Result<bool, UpEnd>
    requires limit { link.old.limit ≡ stream_limit }
    requires held { ¬ HoldsNoFrame link.old.stream.held }
    ensures more { IfOk result (λ leaves.
        (left unread : Option (List ℕ)) (start : Stream) (entries : List Item)
        → ReadOn StandsAnywhere left unread start entries link.old
        → HeardOne left unread start entries conn says.old.items says.new.items leaves link.new) }
    ensures ended { IfErr result (λ end.
        (left unread : Option (List ℕ)) (start : Stream) (entries : List Item)
        → ReadOn StandsAnywhere left unread start entries link.old
        → HeardEnd left unread start (messages_of entries) end) }
    ensures same { OnErr result (says.new.items ≡ says.old.items) }
    ensures ends { IfErr result EndsHearing }
    ensures further { OnOk result (link.old.stream.at < link.new.stream.at) }
    ensures within { HoldsWithin link.new }
    ensures limit { link.new.limit ≡ stream_limit }
{
    one_answer();
    match link.take(alloc) {
        Ok(entry) => match note(entry, conn, says) {
            Ok(leaves) => Ok(leaves),
            Err(AllocError) => Err(UpEnd::Memory),
        },
        Err(end) => Err(up_end_of(&end)),
    }
}

/// Puts a Say of the entry's message after the others. Whether it is a Disconnect.
fn note(entry: Entry, conn: u32, says: &mut Vec<Event>) -> Result<bool, AllocError>
    ensures said { OnOk result
        (says.new.items ≡ says.old.items ++ Event.Say conn entry.msg ∷ []) }
    ensures leaves { IfOk result (λ leaves. leaves ≡ is_disconnect entry.msg) }
    ensures err { OnErr result (says.new.items ≡ says.old.items) }
{
    let Entry { msg, user: _ } = entry;
    let leaves = msg.is_disconnect();
    says.push(Event::Say { conn, msg })?;
    Ok(leaves)
}

/// Acts the Says that were heard in one turn, up to one after which nothing is said, and gives what
/// came of that one. It wakes those who wait for entries before it passes the gate.
fn say<W: Wait, C: SessionCore, G: Gate>(
    worker: &Worker<'_, W, C, G>,
    seat: &mut Seat<AnySession<C>>,
    speaker: &mut Speaker,
) -> Option<Result<Reply, AllocError>>
    requires { IsOf worker.now.hall.now seat.old }
    ensures of { IsOf worker.now.hall.now seat.new }
    ensures conn { speaker.new.conn ≡ speaker.old.conn }
    ensures acts { ActsSays seat.old.view speaker.old.says.items result seat.new.view }
{
    calls_add_up::<Event, Result<Reply, AllocError>, AnySession<C>>();
    let mut answers = Answers { placed: false };
    let Acted { count, stop } = worker
        .hall
        .act_each(worker.rt, seat, speaker.says.as_slice(), &mut answers);
    if answers.placed {
        worker.hall.wake();
    }
    pass_acts(worker.gate, worker.who, &mut speaker.acts, count);
    stop
}

/// What hears the answers to Says, and whether one of them placed an entry.
#[derive(Drop)]
struct Answers {
    placed: bool,
}

impl<C: SessionCore> Listener<AnySession<C>> for Answers {
    ghost follows = { is_kept };

    fn hear(&mut self, outcome: &Result<Reply, AllocError>) -> bool {
        match outcome {
            Ok(Reply::Ended | Reply::StoreFault { .. }) | Err(AllocError) => false,
            Ok(Reply::Opened { .. } | Reply::Placed { .. } | Reply::Filtered { .. }) => {
                self.placed = true;
                true
            }
            Ok(Reply::Noted | Reply::Ignored | Reply::NameRefused | Reply::Full) => true,
        }
    }
}

/// How a link ends by what came of saying and of hearing, if it does.
fn end_by(stop: Option<Result<Reply, AllocError>>, heard: Result<bool, UpEnd>) -> Result<(), UpEnd>
    ensures { result ≡ end_by stop heard }
{
    match stop {
        Some(Ok(reply)) => Err(UpEnd::Refused(reply)),
        Some(Err(AllocError)) => Err(UpEnd::Memory),
        None => match heard {
            Ok(true) => Err(UpEnd::Left),
            Ok(false) => Ok(()),
            Err(end) => Err(end),
        },
    }
}
