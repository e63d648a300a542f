//! The laws of sessions whose store follows them.

ghost use Rattle.std.specs.Prelude.{◌≡◌, ◌⊎◌, ◌∷◌, ◌++◌, [], ℕ, List, length};
ghost use Rattle.std.specs.Prelude.{IfSome, All};
ghost use Rattle.dp_hall.specs.Logs.{left_by};
ghost use Rattle.dp_keeper.specs.declared.row.Row.{Row};
ghost use Rattle.dp_epochs.specs.declared.event.Event.{Event};
ghost use Rattle.dp_epochs.specs.Resumed.{AreRowsOf, IsFirstBad};
ghost use Rattle.dp_epochs.specs.State.{histories};
ghost use Rattle.dp_epochs.specs.Past.{Past, Step, state_after, state_of};
ghost use Rattle.dp_session_laws.specs.Logs.{ReplyOrMemory, LogEntry, IsSessionLog};
ghost use Rattle.dp_session_laws.specs.Kept.{IsStored, IsPuttable, ArePuttable};
ghost use Rattle.dp_session_laws.specs.Kept.{IsInFlight, MayLeave};

use dp_epochs::{rows_go_on, rows_spell_events};

/// Rows are those of at most one journal, and have at most one first row that may not stand, and
/// not both.
pub fn one_resumption()
    ensures journal { (rows : List Row) (j k : List Event) → AreRowsOf rows j → AreRowsOf rows k
        → j ≡ k }
    ensures bad { (rows : List Row) (m n : ℕ) (r s : Row) → IsFirstBad rows m r
        → IsFirstBad rows n s → (m ≡ n) × (r ≡ s) }
    ensures either { (rows : List Row) (j : List Event) (n : ℕ) (r : Row) → AreRowsOf rows j
        → IsFirstBad rows n r → ⊥ }
{
    rows_spell_events();
}

/// The store of a session follows it if it begins with the rows of its journal. It goes on
/// following it over each step on an event that has a row. If the event names a connection, that
/// was given out.
pub fn steps_are_kept()
    ensures begun { (past : Past) → past.shut ≡ []
        → IfSome past.known (λ rows. AreRowsOf rows past.journal) → IsStored past }
    ensures step { (old : Past) (e : Event) (outcome : ReplyOrMemory) (new : Past)
        → IsStored old → IsPuttable old e → Step old e outcome new → IsStored new }
{
    rows_go_on();
    rows_spell_events();
}

/// The store follows a session over a whole log of such events.
pub fn logs_are_kept()
    ensures { (past : Past) (log : List LogEntry) → IsStored past → IsSessionLog past log
        → ArePuttable past log → IsStored (left_by past log) }
{
    steps_are_kept();
}

/// A stop while a row is put leaves the rows of the journal, or these and the one that was put.
pub fn stops_leave_journals()
    ensures { (past : Past) (e : Event) (rows : List Row) → IsStored past → IsInFlight past e
        → MayLeave past e rows
        → AreRowsOf rows past.journal ⊎ AreRowsOf rows (past.journal ++ e ∷ []) }
{
    rows_go_on();
    rows_spell_events();
}

/// If no closing was refused before the last event, the journal alone leads to the histories
/// that were served.
pub fn epochs_are_served()
    ensures { (past : Past) → All (λ s. s.n ≡ length past.journal) past.shut
        → histories (state_after past.journal []) ≡ histories (state_of past) }
{}
