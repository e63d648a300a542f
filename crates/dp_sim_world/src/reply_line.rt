//! What the report says of a session's answers.

ghost use Rattle.std.specs.Prelude.{◌≡◌};
ghost use Rattle.dp_sim.specs.Exchanges.{said_line, left_line, cut_line};

use dp_epochs::Reply;
use dp_schedule::ReportLine;

/// What the report says of the answer to a message.
pub(crate) fn said_line(reply: Reply) -> ReportLine
    ensures { result ≡ said_line reply }
{
    match reply {
        Reply::Placed { epoch, at } => ReportLine::Placed { epoch, at },
        Reply::Filtered { epoch, at } => ReportLine::Filtered { epoch, at },
        Reply::Noted => ReportLine::Noted,
        Reply::Ignored => ReportLine::Ignored,
        Reply::Opened { .. }
        | Reply::NameRefused
        | Reply::Full
        | Reply::Ended
        | Reply::StoreFault { .. } => ReportLine::Ended,
    }
}

/// What the report says of the answer to a Close after a Disconnect.
pub(crate) fn left_line(reply: Reply) -> ReportLine
    ensures { result ≡ left_line reply }
{
    match reply {
        Reply::Placed { epoch, at } => ReportLine::Left { epoch, at },
        Reply::Opened { .. }
        | Reply::Filtered { .. }
        | Reply::Noted
        | Reply::Ignored
        | Reply::NameRefused
        | Reply::Full
        | Reply::Ended
        | Reply::StoreFault { .. } => ReportLine::Ended,
    }
}

/// What the report says of the answer to a Close if the uplink is lost.
pub(crate) fn cut_line(reply: Reply) -> ReportLine
    ensures { result ≡ cut_line reply }
{
    match reply {
        Reply::Placed { epoch, at } => ReportLine::Cut { epoch, at },
        Reply::Opened { .. }
        | Reply::Filtered { .. }
        | Reply::Noted
        | Reply::Ignored
        | Reply::NameRefused
        | Reply::Full
        | Reply::Ended
        | Reply::StoreFault { .. } => ReportLine::Ended,
    }
}
