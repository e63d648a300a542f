//! The laws.

ghost use Rattle.std.specs.Prelude.{◌≡◌, ◌⊎◌, ◌∷◌, ◌++◌, [], ℕ, List, length, false, None, Ok};
ghost use Rattle.std.specs.Prelude.{Contains};
ghost use mathlib.Core.List.{IsPrefix};
ghost use Rattle.dp_messages.specs.declared.message.Entry.{Entry};
ghost use Rattle.dp_hall.specs.Logs.{left_by};
ghost use Rattle.dp_epochs.specs.declared.event.Query.TheVariants.{Pull};
ghost use Rattle.dp_epochs.specs.declared.event.Answer.TheVariants.{Entries, Gone};
ghost use Rattle.dp_epochs.specs.State.{State};
ghost use Rattle.dp_epochs.specs.Past.{Past, state_of};
ghost use Rattle.dp_epochs.specs.Pull.{answered};
ghost use Rattle.dp_epochs.specs.Laws.{ShutBefore};
ghost use Rattle.dp_session_laws.specs.Growing.{GrowsInto};
ghost use Rattle.dp_session_laws.specs.Logs.{LogEntry, IsSessionLog, HasOpened};
ghost use Rattle.dp_session_laws.specs.Journals.{kept_events, kept_replies, HasBroken};
ghost use Rattle.dp_session_laws.specs.Closings.{given_out, Rise, refused_closes, IsShutFor};
ghost use Rattle.dp_session_laws.specs.Closings.{HasFailedClose};
ghost use Rattle.dp_hall.specs.Names.{IsIn, AreDistinct};
ghost use Rattle.dp_epochs.specs.declared.event.ShutAt.{ShutAt};
ghost use Rattle.dp_epochs.specs.Rows.{has_room};
ghost use Rattle.dp_epochs.specs.declared.event.Reply.TheVariants.{Ended, StoreFault};
ghost use Rattle.dp_session_laws.specs.Feeds.{Segment, IsFeed, IsGone, PullsOn};

use dp_epochs::{events_have_effects, histories_grow, steps_lead_on};

/// A session only grows while a log does: no history loses an entry, and no connection its user,
/// the place of its Join or its ending.
pub fn sessions_go_on()
    ensures grows { (past : Past) (log longer : List LogEntry) → ShutBefore past
        → IsSessionLog past longer → IsPrefix log longer
        → GrowsInto (state_of (left_by past log)) (state_of (left_by past longer)) }
    ensures before { (past : Past) (log : List LogEntry) → ShutBefore past → IsSessionLog past log
        → ShutBefore (left_by past log) }
{
    events_have_effects();
    histories_grow();
    steps_lead_on();
}

/// The journal goes on by the events of the log that were answered otherwise than by Ended,
/// StoreFault or out of memory.
pub fn journals_are_logs()
    ensures { (past : Past) (log : List LogEntry) → IsSessionLog past log
        → (left_by past log).journal ≡ past.journal ++ kept_events log }
{
    events_have_effects();
}

/// The session's answers go on by the replies to the events that are kept.
pub fn answers_are_logs()
    ensures { (past : Past) (log : List LogEntry) → ShutBefore past → IsSessionLog past log
        → (state_of (left_by past log)).answers ≡ (state_of past).answers ++ kept_replies log }
{
    events_have_effects();
    histories_grow();
    steps_lead_on();
}

/// The closings that were refused go on by Closes of the log: those that were answered Ended or
/// StoreFault, each with how many events were kept before it.
pub fn shuts_are_logs()
    ensures all { (past : Past) (log : List LogEntry) → IsSessionLog past log
        → (left_by past log).shut ≡ past.shut ++ refused_closes past log }
    ensures cause { (past : Past) (log : List LogEntry) (s : ShutAt) → past.first_fault ≡ None
        → IsSessionLog past log → IsIn s (refused_closes past log)
        → IsShutFor past (left_by past log) s }
{
    events_have_effects();
}

/// A connection is quiet only if it was so, or memory ran out in one of its Closes.
pub fn quiets_are_logs()
    ensures { (past : Past) (log : List LogEntry) (conn : ℕ) → IsSessionLog past log
        → Contains (left_by past log).quiet conn
        → Contains past.quiet conn ⊎ HasFailedClose log conn }
{}

/// The connections that a log gives out rise from above those that were given out before, so no two
/// are one.
pub fn one_connection_each()
    ensures rise { (past : Past) (log : List LogEntry) → ShutBefore past → IsSessionLog past log
        → Rise (length (state_of past).connections) (given_out log) }
    ensures distinct { (past : Past) (log : List LogEntry) → ShutBefore past → IsSessionLog past log
        → AreDistinct (given_out log) }
{
    events_have_effects();
    histories_grow();
    steps_lead_on();
}

/// Ended is answered only if the limits leave no room for the event after the journal there.
pub fn ended_has_cause()
    ensures { (past : Past) (prefix : List LogEntry) (act : LogEntry) (back : List LogEntry)
        → IsSessionLog past (prefix ++ act ∷ back) → act.outcome ≡ Ok Ended
        → has_room (left_by past prefix).journal act.event ≡ false }
{
    events_have_effects();
}

/// StoreFault is answered only if a put has failed since, which the store has counted.
pub fn faults_are_counted()
    ensures { (past : Past) (log : List LogEntry) (act : LogEntry) (count : ℕ)
        → past.first_fault ≡ None
        → IsSessionLog past log → IsIn act log → act.outcome ≡ Ok (StoreFault count)
        → HasBroken past (left_by past log) }
{
    events_have_effects();
}

/// The feed of a connection begins with an empty segment of the epoch in which it joined.
pub fn feeds_begin()
    ensures { (past : Past) (log : List LogEntry) (conn user epoch at : ℕ)
        → ShutBefore past → IsSessionLog past log → HasOpened log conn user epoch at
        → IsFeed (state_of (left_by past log)) conn (record { epoch = epoch; entries = [] } ∷ []) }
{
    events_have_effects();
    histories_grow();
    steps_lead_on();
}

/// A feed stays one while the session grows.
pub fn feeds_go_on()
    ensures { (s t : State) (conn : ℕ) (segments : List Segment)
        → GrowsInto s t → IsFeed s conn segments → IsFeed t conn segments }
{}

/// A feed that has ended stays so while the session grows.
pub fn gone_goes_on()
    ensures { (past : Past) (log longer : List LogEntry) (conn : ℕ) (earlier : List Segment)
        (last : Segment) → ShutBefore past → IsSessionLog past longer → IsPrefix log longer
        → IsFeed (state_of (left_by past log)) conn (earlier ++ last ∷ [])
        → IsGone (left_by past log) conn last → IsGone (left_by past longer) conn last }
{
    events_have_effects();
    histories_grow();
    steps_lead_on();
}

/// The entries that a Pull at the end of a feed is answered go on with the feed.
pub fn pulls_go_on()
    ensures { (past : Past) (conn : ℕ) (earlier : List Segment) (last : Segment)
        (most epoch at : ℕ) (list : List Entry)
        → IsFeed (state_of past) conn (earlier ++ last ∷ [])
        → answered past (Pull conn last.epoch (length last.entries) most) ≡ Entries epoch at list
        → PullsOn (state_of past) conn earlier last epoch at list }
{}

/// If a Pull at the end of a feed is answered that nothing is to come, the feed has ended.
pub fn feeds_end()
    ensures { (past : Past) (log : List LogEntry) (conn user epoch at most : ℕ)
        (earlier : List Segment) (last : Segment)
        → ShutBefore past → IsSessionLog past log → HasOpened log conn user epoch at
        → IsFeed (state_of (left_by past log)) conn (earlier ++ last ∷ [])
        → answered (left_by past log) (Pull conn last.epoch (length last.entries) most) ≡ Gone
        → IsGone (left_by past log) conn last }
{
    events_have_effects();
    histories_grow();
    steps_lead_on();
}
