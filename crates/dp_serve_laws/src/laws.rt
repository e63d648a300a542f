//! The laws.

ghost use Rattle.std.specs.Prelude.{◌≡◌, ◌++◌, ℕ, List, [], map, Option, None, Some, IfSome, true};
ghost use Rattle.dp_io.specs.Faults.{Rose};
ghost use Rattle.dp_hall.specs.Names.{IsIn, AreDistinct};
ghost use Rattle.dp_epochs.specs.Past.{Past};
ghost use Rattle.dp_epochs.specs.Laws.{ShutBefore};
ghost use Rattle.dp_session_laws.specs.Journals.{kept_events, kept_replies};
ghost use Rattle.dp_serve.specs.declared.report.LinkReport.{LinkReport};
ghost use Rattle.dp_serve.specs.Works.{LinkRun};
ghost use Rattle.dp_serve.specs.Serving.{Seen, Left, Serves};
ghost use Rattle.dp_serve.specs.Closings.{ClosesEach, ServesOn};
ghost use Rattle.dp_epochs.specs.declared.event.Event.TheVariants.{Close};
ghost use Rattle.dp_session_laws.specs.Logs.{ReplyOrMemory};
ghost use Rattle.dp_serve_laws.specs.Acts.{acts_about, events_about, KeepsActs};
ghost use Rattle.dp_serve_laws.specs.Reported.{reported, runs_of};
ghost use Rattle.dp_serve_laws.specs.Stored.{HoldRows, IsResumed};

use dp_epochs::{events_have_effects, histories_grow, one_answer_each, steps_lead_on};
use dp_session_laws::{logs_are_kept, one_connection_each, sessions_go_on, steps_are_kept};

/// No two reports name one connection.
pub fn reports_name_distinct_connections<W, R, T>()
    ensures served { (see : Seen W R T) (start : Past) (most : ℕ) (old new : List W) (left : Left)
        → ShutBefore start → Serves see start most old new left
        → AreDistinct (reported left.reports) }
    ensures on { (see : Seen W R T) (start : Past) (most : ℕ) (old new : List W) (left : Left)
        → ShutBefore start → ServesOn see start most old new left
        → AreDistinct (reported left.reports) }
{
    closings_go_on();
    one_connection_each();
}

/// The acts of a connection that a report names are those of its link, in order and no others. So
/// of the events that the journal gains, those of the connection are the ones kept of these acts.
/// They are all that the journal has of it, if the rows of the session's store were known.
pub fn acts_of_connections<W, R, T>()
    ensures acts { (see : Seen W R T) (start : Past) (most : ℕ) (old new : List W) (left : Left)
        (served : Serves see start most old new left) (run : LinkRun R T) (conn : ℕ)
        → ShutBefore start → IsIn run (runs_of served.parts) → run.report.conn ≡ Some conn
        → acts_about conn served.log ≡ run.acts }
    ensures events { (see : Seen W R T) (start : Past) (most : ℕ) (old new : List W) (left : Left)
        (served : Serves see start most old new left) (run : LinkRun R T) (conn : ℕ)
        → ShutBefore start → IsIn run (runs_of served.parts) → run.report.conn ≡ Some conn
        → events_about conn (kept_events served.log) (kept_replies served.log)
        ≡ kept_events run.acts }
    ensures on { (see : Seen W R T) (start : Past) (most : ℕ) (old new : List W) (left : Left)
        (report : LinkReport) (conn : ℕ) → IsResumed start
        → ServesOn see start most old new left → IsIn report left.reports → report.conn ≡ Some conn
        → KeepsActs see.link start.known report conn left.journal left.shut }
{
    closings_go_on();
    one_connection_each();
    one_answer_each();
    events_have_effects();
    histories_grow();
    steps_lead_on();
}

/// Closing connections leads to a session as sound as it was. Its journal goes on by a Close of
/// each of the first of them, and of all if none was refused.
pub fn closings_go_on()
    ensures sound { (start closed : Past) (conns : List ℕ) (refusal : Option ReplyOrMemory)
        → ShutBefore start → ClosesEach start conns refusal closed → ShutBefore closed }
    ensures journal { (start closed : Past) (conns : List ℕ) (refusal : Option ReplyOrMemory)
        → ClosesEach start conns refusal closed
        → (done more : List ℕ) × (conns ≡ done ++ more)
        × (closed.journal ≡ start.journal ++ map Close done) × (refusal ≡ None → more ≡ []) }
{
    events_have_effects();
    sessions_go_on();
}

/// If no put had failed before, the store failed only if a put did, which it has counted:
/// while the connections that were open were closed, or while the session was served.
pub fn store_faults_are_counted<W, R, T>()
    ensures { (see : Seen W R T) (start : Past) (most : ℕ) (old new : List W) (left : Left)
        → start.first_fault ≡ None → ServesOn see start most old new left → left.store ≡ true
        → Rose start.count left.count }
{
    events_have_effects();
}

/// The store holds the rows of the journal that is left, if it held those of the session's
/// journal before. Or a put has failed, which the store has counted, and it may hold the row of one
/// event more.
pub fn rows_are_kept<W, R, T>()
    ensures { (see : Seen W R T) (start : Past) (most : ℕ) (old new : List W) (left : Left)
        → IsResumed start → ServesOn see start most old new left
        → IfSome left.known (HoldRows start.count left.count left.journal) }
{
    logs_are_kept();
    steps_are_kept();
    events_have_effects();
    histories_grow();
    steps_lead_on();
}
