//! Closing the connections that are open.

ghost use Rattle.std.specs.Prelude.{◌≡◌};
ghost use Rattle.dp_epochs.specs.Laws.{ShutBefore};
ghost use Rattle.dp_session_laws.specs.Journals.{is_kept};
ghost use Rattle.dp_link_run.specs.Talking.{is_last_failed, is_last_store_fault};
ghost use Rattle.dp_serve.specs.Closings.{ClosesEach, open_numbers};

use dp_any_session::{AnySession, SessionCore};
use dp_epochs::{Event, Reply, steps_lead_on};
use dp_machine::Machine;
use dp_session_laws::sessions_go_on;
use std::alloc::AllocError;

/// Closes the connections that are open, by rising number, up to the first Close that is refused,
/// and tells what that one came to.
pub(crate) fn close_open<C: SessionCore>(
    session: &mut AnySession<C>,
) -> Option<Result<Reply, AllocError>>
    requires { ShutBefore session.old }
    ensures sound { ShutBefore session.new }
    ensures closes { ClosesEach session.old (open_numbers session.old) result session.new }
{
    steps_lead_on();
    sessions_go_on();
    let mut last = 0;
    'conns: while let Some(conn) = session.conns(last) {
        let outcome = session.step(&Event::Close { conn });
        if !is_kept(&outcome) {
            return Some(outcome);
        }
        last = conn;
    }
    None
}

/// Whether the event of which that came is kept.
fn is_kept(outcome: &Result<Reply, AllocError>) -> bool
    ensures { result ≡ is_kept outcome.now }
{
    match outcome {
        Ok(Reply::Ended | Reply::StoreFault { .. }) | Err(AllocError) => false,
        Ok(_) => true,
    }
}

/// Whether memory ran out in a Close that was refused.
pub(crate) fn ran_out(refusal: Option<Result<Reply, AllocError>>) -> bool
    ensures { result ≡ is_last_failed refusal }
{
    matches!(refusal, Some(Err(AllocError)))
}

/// Whether the store failed in a Close that was refused.
pub(crate) fn broke(refusal: Option<Result<Reply, AllocError>>) -> bool
    ensures { result ≡ is_last_store_fault refusal }
{
    matches!(refusal, Some(Ok(Reply::StoreFault { .. })))
}
