//! The wires of a row.

ghost use Rattle.std.specs.Prelude.{◌-◌, ◌≤◌, None, vec_len, vec_capacity};

use crate::ends::{RowRx, RowTx, Sent, ends_of};
use dp_io::FaultPlan;
use dp_lines::put_hex;
use dp_row_texts::{Coming, both, filled};
use dp_wire::{Wire, WireError};
use std::alloc::{AllocError, Global};
use std::collections::VecDeque;
use std::sync::Arc;

/// A wire that hands out the links of a row. It tells nothing of them.
#[derive(Drop)]
pub struct RowWire {
    to_come: VecDeque<(RowRx, RowTx)>,
    back: Vec<(RowRx, RowTx)>,
    plan: FaultPlan,
}

impl RowWire {
    /// A wire with these links to come, which fails at the calls of these numbers.
    fn new(links: Vec<(RowRx, RowTx)>, fails: Vec<u64>) -> RowWire {
        let alloc = *links.allocator();
        RowWire {
            to_come: VecDeque::from_vec(links),
            back: Vec::new(alloc),
            plan: FaultPlan::new(fails),
        }
    }
}

impl Wire for RowWire {
    type Rx = RowRx;

    type Tx = RowTx;

    ghost links = { λ _. None };

    ghost faults = { λ w. w.plan.faults };

    ghost room = { λ w. vec_capacity w.back - vec_len w.back };

    fn accept(&mut self) -> Result<Option<(RowRx, RowTx)>, WireError> {
        if self.plan.next_fails() {
            let _ = self.plan.fail();
            return Err(WireError::Failed);
        }
        self.back.reserve(1)?;
        Ok(self.to_come.pop_front())
    }

    fn dial(&mut self) -> Result<(RowRx, RowTx), WireError> {
        if self.plan.next_fails() {
            let _ = self.plan.fail();
            return Err(WireError::Failed);
        }
        self.back.reserve(1)?;
        match self.to_come.pop_front() {
            Some(link) => Ok(link),
            None => {
                let _ = self.plan.fail();
                Err(WireError::Failed)
            }
        }
    }

    fn done(&mut self, rx: RowRx, tx: RowTx) {
        self.back.push_reserved((rx, tx));
    }
}

/// The calls that fail of each wire, and of each of its links beside those of its own.
#[derive(Drop)]
pub struct LinkFails {
    pub dials: Vec<u64>,
    pub reads: Vec<u64>,
    pub writes: Vec<u64>,
}

/// Wires, and what their links were sent.
#[derive(Drop)]
pub struct RowWires {
    pub wires: Vec<RowWire>,
    pub sent: Arc<Sent>,
}

/// The wires of these links, in pieces of this length, on which these calls fail.
pub fn wires_of(
    alloc: Global,
    links: &[Vec<Coming>],
    piece: usize,
    fails: &LinkFails,
) -> Result<RowWires, AllocError>
    requires { 1 ≤ piece }
{
    let sent = Sent::new(alloc, count_of(links))?;
    let mut made = RowWires {
        wires: Vec::new(alloc),
        sent,
    };
    let end = made.put_wires(alloc, links, piece, fails);
    filled(made, end)
}

/// How many links there are.
fn count_of(links: &[Vec<Coming>]) -> usize {
    let mut count = 0usize;
    for wire in links {
        count = count.saturating_add(wire.len());
    }
    count
}

impl RowWires {
    /// Adds the wires of these links, which note what they were sent.
    fn put_wires(
        &mut self,
        alloc: Global,
        links: &[Vec<Coming>],
        piece: usize,
        fails: &LinkFails,
    ) -> Result<(), AllocError>
        requires { 1 ≤ piece }
    {
        let mut first = 0;
        for coming in links {
            let wire = wire_of(alloc, coming, first, piece, fails, &self.sent)?;
            self.wires.push(wire)?;
            first = first.saturating_add(coming.len());
        }
        Ok(())
    }
}

/// The wire of links, of which the first has this number.
fn wire_of(
    alloc: Global,
    links: &[Coming],
    first: usize,
    piece: usize,
    fails: &LinkFails,
    sent: &Arc<Sent>,
) -> Result<RowWire, AllocError>
    requires { 1 ≤ piece }
{
    let dials = Vec::from_slice(alloc, &fails.dials)?;
    let mut pairs = Vec::new(alloc);
    let end = put_pairs(links, first, piece, fails, sent, &mut pairs);
    let (dials, pairs) = both(dials, filled(pairs, end))?;
    Ok(RowWire::new(pairs, dials))
}

/// Adds the ends of links, of which the first has this number.
fn put_pairs(
    links: &[Coming],
    first: usize,
    piece: usize,
    fails: &LinkFails,
    sent: &Arc<Sent>,
    pairs: &mut Vec<(RowRx, RowTx)>,
) -> Result<(), AllocError>
    requires { 1 ≤ piece }
{
    let alloc = *pairs.allocator();
    let mut link = first;
    for coming in links {
        pairs.push(ends_of(alloc, coming, fails, link, piece, sent)?)?;
        link = link.saturating_add(1);
    }
    Ok(())
}

/// Adds what was sent on links that came back: a line for each, with its newline before it.
pub fn put_sent_on(wires: &[RowWire], text: &mut Vec<u8>) -> Result<(), AllocError> {
    for wire in wires {
        put_sent(wire, text)?;
    }
    Ok(())
}

/// Adds what was sent on links of a wire that came back.
fn put_sent(wire: &RowWire, text: &mut Vec<u8>) -> Result<(), AllocError> {
    for link in &wire.back {
        text.extend_from_slice(b"\nsent ")?;
        put_hex(link.1.as_slice(), text)?;
    }
    Ok(())
}
