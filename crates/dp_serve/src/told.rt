//! What is told of the links of a session.

ghost use Rattle.dp_link_run.specs.Links.{link_seen};
ghost use Rattle.dp_serve.specs.Works.{session_rules};

use crate::LinkReport;
use dp_any_session::{AnySession, SessionCore};
use dp_crew::Reporting;
use dp_io::{Sink, Source};
use dp_session_laws::{feeds_go_on, gone_goes_on, sessions_go_on};

/// Names what is told of the links of a session, for the calls of dp_crew that serve no link.
pub(crate) struct Told;

impl<C: SessionCore, R: Source, T: Sink> Reporting<AnySession<C>, R, T> for Told {
    ghost use Rattle.dp_link_run.specs.Links.{link_seen};
    ghost use Rattle.dp_serve.specs.Works.{session_rules};

    type Report = LinkReport;

    ghost rules = { session_rules (link_seen R.left R.faults T.held T.faults) };

    fn reports_go_on() {
        sessions_go_on();
        feeds_go_on();
        gone_goes_on();
    }
}
