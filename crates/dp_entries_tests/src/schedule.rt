//! The lines of reports.

use dp_schedule::{ReportLine, one_action, one_join_action};
use std::alloc::Global;
use std::process::Abort;

/// Lines of the report, and their texts.
static TOLD: [(ReportLine, &str); 17] = [
    (
        ReportLine::Joined {
            client: 12,
            user: 3,
            epoch: 4,
            at: 56,
        },
        "joined 12 user 3 at 4:56\n",
    ),
    (ReportLine::Full, "full\n"),
    (ReportLine::NameRefused, "name refused\n"),
    (ReportLine::Ended, "ended\n"),
    (ReportLine::Said(10), "said 10\n"),
    (ReportLine::Sent(3), "sent 3\n"),
    (ReportLine::Empty, "empty\n"),
    (ReportLine::Placed { epoch: 0, at: 1 }, "placed 0:1\n"),
    (ReportLine::Filtered { epoch: 1, at: 0 }, "filtered 1:0\n"),
    (ReportLine::Ignored, "ignored\n"),
    (ReportLine::Noted, "noted\n"),
    (ReportLine::Left { epoch: 7, at: 89 }, "left 7:89\n"),
    (ReportLine::Leaving, "leaving\n"),
    (
        ReportLine::Cut {
            epoch: 4_294_967_295,
            at: 2,
        },
        "cut 4294967295:2\n",
    ),
    (ReportLine::Took { epoch: 2, at: 3 }, "took 2:3\n"),
    (ReportLine::Nothing, "nothing\n"),
    (ReportLine::Gone, "gone\n"),
];

/// The test ends if this isn't the text of a line of the report.
fn check(rt: &impl Abort, alloc: Global, line: &ReportLine, wanted: &str) {
    let text = line.text(alloc).expect(rt, "memory");
    assert!(rt; text.as_slice() == wanted.as_bytes(), "{wanted}");
}

#[test]
fn report_lines_have_their_texts(rt: HostRuntime) {
    for (line, wanted) in &TOLD {
        check(&rt, rt.alloc(), line, wanted);
    }
    one_action();
    one_join_action();
}
