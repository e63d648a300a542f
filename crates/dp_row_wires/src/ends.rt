//! The two ends of a row's link.

ghost use Rattle.std.specs.Prelude.{◌≡◌, ◌≤◌, None, length};

use crate::wires::LinkFails;
use dp_io::{Failed, FaultPlan, MemSink, Sink, Source};
use dp_row_texts::{Coming, Pause, both, filled};
use std::alloc::{AllocError, Global};
use std::sync::Arc;
use std::sync::atomic::{AtomicU64, Ordering};
use std::thread;

/// How many turns a pause waits.
const TURNS: u64 = 1_000_000;

/// How many bytes a link may be sent.
const ROOM: usize = 20_000;

/// How many bytes each link of a row was sent, and how many pauses were given up.
#[derive(Drop)]
pub struct Sent {
    counts: Vec<AtomicU64>,
    gave_up: AtomicU64,
}

impl Sent {
    /// Nothing was sent so far on `links` links.
    pub fn new(alloc: Global, links: usize) -> Result<Arc<Sent>, AllocError> {
        let mut counts = Vec::new(alloc);
        let end = put_counts(links, &mut counts);
        let counts = filled(counts, end)?;
        let gave_up = AtomicU64::new(0);
        Ok(Arc::new(alloc, Sent { counts, gave_up })?)
    }

    /// How many pauses were given up.
    pub fn gave_up(&self) -> u64 {
        self.gave_up.load(Ordering::SeqCst)
    }

    /// Notes that a link was sent `sent` bytes so far.
    fn note(&self, link: usize, sent: usize) {
        if let Some(count) = self.counts.get(link) {
            count.store(sent as u64, Ordering::SeqCst);
        }
    }

    /// Whether the link of a pause was sent as many bytes as the pause says.
    fn is_over(&self, pause: Pause) -> bool {
        match self.counts.get(pause.link) {
            Some(count) => count.load(Ordering::SeqCst) >= pause.sent as u64,
            None => false,
        }
    }

    /// Lets others run until a pause is over, or gives it up.
    fn wait(&self, pause: Pause) {
        for _ in 0..TURNS {
            if self.is_over(pause) {
                return;
            }
            thread::yield_now();
        }
        self.gave_up.store(1, Ordering::SeqCst);
    }
}

/// Adds the counts of `links` links.
fn put_counts(links: usize, counts: &mut Vec<AtomicU64>) -> Result<(), AllocError> {
    for _ in 0..links {
        counts.push(AtomicU64::new(0))?;
    }
    Ok(())
}

/// What the peer of a row's link sends. It tells none of its bytes.
#[derive(Drop)]
pub struct RowRx {
    bytes: Vec<u8>,
    at: usize,
    piece: usize,
    pauses: Vec<Pause>,
    sent: Arc<Sent>,
    plan: FaultPlan,
}

impl RowRx {
    /// Adds the bytes of a link, and its pauses.
    fn fill(&mut self, coming: &Coming) -> Result<(), AllocError> {
        self.bytes.extend_from_slice(&coming.bytes)?;
        self.pauses.extend_from_slice(&coming.pauses)
    }

    /// Waits for the pauses at its place.
    fn pause(&self) {
        for pause in &self.pauses {
            if pause.at == self.at {
                self.sent.wait(*pause);
            }
        }
    }

    /// Where the next pause is, or the end.
    fn next_stop(&self) -> usize {
        let mut stop = self.bytes.len();
        for pause in &self.pauses {
            if pause.at > self.at {
                stop = stop.min(pause.at);
            }
        }
        stop
    }

    /// The next bytes, at most `most`, up to the next pause.
    fn next_bytes(&self, most: usize) -> &[u8]
        ensures { length result.now ≤ most }
    {
        let stop = self.next_stop().min(self.bytes.len());
        let left = &self.bytes[self.at.min(stop)..stop];
        let count = left.len().min(most);
        &left[..count]
    }
}

impl Source for RowRx {
    ghost left = { λ _. None };

    ghost faults = { λ s. s.plan.faults };

    fn read(&mut self, buf: &mut [u8]) -> Result<usize, Failed> {
        self.pause();
        if self.plan.next_fails() {
            return Err(self.plan.fail());
        }
        let most = buf.len().min(self.piece);
        let bytes = self.next_bytes(most);
        let count = bytes.len();
        buf[..count].copy_from_slice(bytes);
        self.at = self.at.saturating_add(count);
        Ok(count)
    }
}

/// What the peer of a row's link is sent.
#[derive(Drop)]
pub struct RowTx {
    sink: MemSink,
    link: usize,
    sent: Arc<Sent>,
}

impl RowTx {
    /// What it was sent.
    pub fn as_slice(&self) -> &[u8] {
        self.sink.as_slice()
    }
}

impl Sink for RowTx {
    ghost held = { λ _. None };

    ghost faults = { λ s. s.sink.plan.faults };

    fn write(&mut self, bytes: &[u8]) -> Result<usize, Failed> {
        let answer = self.sink.write(bytes);
        self.sent.note(self.link, self.sink.as_slice().len());
        answer
    }
}

/// The two ends of the link of this number, in pieces of this length. Calls fail on it that the
/// link itself names, and these.
pub fn ends_of(
    alloc: Global,
    coming: &Coming,
    fails: &LinkFails,
    link: usize,
    piece: usize,
    sent: &Arc<Sent>,
) -> Result<(RowRx, RowTx), AllocError>
    requires { 1 ≤ piece }
{
    let tx = tx_of(alloc, coming, &fails.writes, link, piece, sent)?;
    let (tx, rx) = both(tx, rx_of(alloc, coming, &fails.reads, piece, sent))?;
    Ok((rx, tx))
}

/// The end that is read, on which these reads fail, too.
fn rx_of(
    alloc: Global,
    coming: &Coming,
    fails: &[u64],
    piece: usize,
    sent: &Arc<Sent>,
) -> Result<RowRx, AllocError> {
    let reads = calls_of(alloc, &coming.reads, fails)?;
    let (reads, sent) = both(reads, sent.clone())?;
    let mut rx = RowRx {
        bytes: Vec::new(alloc),
        at: 0,
        piece,
        pauses: Vec::new(alloc),
        sent,
        plan: FaultPlan::new(reads),
    };
    let end = rx.fill(coming);
    filled(rx, end)
}

/// The end that is written, on which these writes fail, too.
fn tx_of(
    alloc: Global,
    coming: &Coming,
    fails: &[u64],
    link: usize,
    piece: usize,
    sent: &Arc<Sent>,
) -> Result<RowTx, AllocError>
    requires { 1 ≤ piece }
{
    let writes = calls_of(alloc, &coming.writes, fails)?;
    let sink = MemSink::new(alloc, ROOM, piece, writes)?;
    let (sink, sent) = both(sink, sent.clone())?;
    Ok(RowTx { sink, link, sent })
}

/// The numbers of both lists.
fn calls_of(alloc: Global, calls: &[u64], others: &[u64]) -> Result<Vec<u64>, AllocError> {
    let mut all = Vec::from_slice(alloc, calls)?;
    let end = all.extend_from_slice(others);
    filled(all, end)
}
