//! Workers of a machine that adds bytes.

use crate::counter::{Added, count_links};
use dp_crew::Ran;
use dp_io::{MemSink, MemSource};
use dp_wire::MemWire;
use std::alloc::Global;
use std::process::Abort;

/// A wire whose links say these bytes.
fn wire(rt: &impl Abort, alloc: Global, says: &[&[u8]]) -> MemWire {
    let mut links = Vec::new(alloc);
    for bytes in says {
        let bytes = Vec::from_slice(alloc, bytes).expect(rt, "memory");
        let rx = MemSource::new(bytes, 2, Vec::new(alloc));
        let tx = MemSink::new(alloc, 1, 1, Vec::new(alloc)).expect(rt, "memory");
        links.push((rx, tx)).expect(rt, "memory");
    }
    MemWire::new(links, Vec::new(alloc))
}

/// Whether the odd bytes of a journal grow, which are of one wire, and so do the even ones.
fn are_in_order(journal: &[u8]) -> bool {
    let mut last = [0u8; 2];
    for byte in journal {
        let of = (*byte % 2) as usize;
        if of >= 2 || last[of] >= *byte {
            return false;
        }
        last[of] = *byte;
    }
    true
}

/// Whether a report tells of this worker, link and count.
fn is_report(report: Option<&Added>, (worker, link, count): (u32, u32, u64)) -> bool {
    match report {
        Some(report) => report.worker == worker && report.link == link && report.count == count,
        None => false,
    }
}

/// Whether each wire has given a link back.
fn are_back(wires: &[MemWire]) -> bool {
    for wire in wires {
        if wire.back().is_empty() {
            return false;
        }
    }
    true
}

/// Two wires, with two links and one.
fn wires(rt: &impl Abort, alloc: Global) -> Vec<MemWire> {
    let mut wires = Vec::new(alloc);
    let first: [&[u8]; 2] = [&[1, 3, 5], &[7]];
    let second: [&[u8]; 1] = [&[2, 4]];
    wires.push(wire(rt, alloc, &first)).expect(rt, "memory");
    wires.push(wire(rt, alloc, &second)).expect(rt, "memory");
    wires
}

/// Two workers, with two links and one: each byte is in the journal, those of a wire in the order
/// in which they were said, and each link has its report.
#[test]
fn two_workers_add(rt: HostRuntime) {
    let wires = wires(&rt, rt.alloc());
    assert!(rt; wires.len() == 2);
    let (counter, ran) = count_links(&rt, rt.alloc(), wires).expect(&rt, "memory");
    assert!(rt; counter.sum == 22);
    assert!(rt; counter.journal.len() == 6);
    assert!(rt; are_in_order(&counter.journal));
    drop(counter);
    check_reports(&rt, &ran);
    assert!(rt; are_back(&ran.wires));
    drop(ran);
}

/// Each of three links has its report, and nothing failed.
fn check_reports(rt: &impl Abort, ran: &Ran<MemWire, Added>) {
    assert!(rt; ran.reports.len() == 3);
    assert!(rt; is_report(ran.reports.get(0), (0, 0, 3)));
    assert!(rt; is_report(ran.reports.get(1), (0, 1, 1)));
    assert!(rt; is_report(ran.reports.get(2), (1, 0, 2)));
    assert!(rt; !ran.flags.memory && !ran.flags.fault && !ran.flags.wire);
}
