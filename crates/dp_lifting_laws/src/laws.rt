//! Laws of sessions of the first profile. Each function does nothing but call others: its contract
//! is the law.

ghost use Rattle.std.specs.Prelude.{◌≡◌, ℕ, List, [], map};
ghost use Rattle.dp_keeper.specs.declared.row.Row.{Row};
ghost use Rattle.dp_acl.specs.Carried.{carried};
ghost use Rattle.dp_board.specs.Laws.{HasNoDepth};
ghost use Rattle.dp_replay.specs.Replay.{replay, user_act_of};
ghost use Rattle.dp_epochs.specs.declared.event.Event.{Event};
ghost use Rattle.dp_epochs.specs.declared.event.ShutAt.{ShutAt};
ghost use Rattle.dp_epochs.specs.State.{State, after_event, history_of};
ghost use Rattle.dp_epochs.specs.Past.{state_after};
ghost use Rattle.dp_epochs.specs.Resumed.{AreRowsOf};
ghost use Rattle.dp_lifting_laws.specs.FirstCarried.{first_carried};
ghost use Rattle.dp_lifting_laws.specs.FirstReplay.{first_replay};
ghost use Rattle.dp_lifting_laws.specs.FirstRows.{WereRowsOf};
ghost use Rattle.dp_lifting_laws.specs.Lifted.{lifted_event, lifted_state};
ghost use Rattle.dp_lifting_laws.specs.Worked.{worked_journal, worked_rows};

use dp_board::first_strokes_stay;
use dp_messages::{lifting, one_message};
use dp_msg_draw::Draw;
use dp_session_laws::one_resumption;

/// What lifted events do to a lifted state is what the events do to the state, lifted: the answers,
/// the connections and the reset that is being sent are the same, and each entry is lifted.
pub fn events_lift()
    ensures event { (s : State) (e : Event)
        → after_event (lifted_state s) (lifted_event e) ≡ lifted_state (after_event s e) }
    ensures all { (journal : List Event) (shut : List ShutAt)
        → state_after (map lifted_event journal) shut ≡ lifted_state (state_after journal shut) }
{}

/// Rows of the first profile were those of one journal, and are today's rows of the lifted events
/// and of no others. So they lead to the session of the events, lifted. Epoch by epoch it has the
/// acts that it had, entry for entry, and shows what it showed.
pub fn first_sessions_stay()
    ensures one { (rows : List Row) (j k : List Event) → WereRowsOf rows j → WereRowsOf rows k
        → j ≡ k }
    ensures rows { (rows : List Row) (old : List Event) → WereRowsOf rows old
        → AreRowsOf rows (map lifted_event old) }
    ensures state { (rows : List Row) (old new : List Event) → WereRowsOf rows old
        → AreRowsOf rows new → state_after new [] ≡ lifted_state (state_after old []) }
    ensures acts { (rows : List Row) (old new : List Event) (epoch : ℕ) → WereRowsOf rows old
        → AreRowsOf rows new
        → map user_act_of (history_of (state_after new []) epoch)
        ≡ map user_act_of (history_of (state_after old []) epoch) }
    ensures replays { (rows : List Row) (old new : List Event) (epoch : ℕ) → WereRowsOf rows old
        → AreRowsOf rows new
        → replay (history_of (state_after new []) epoch)
        ≡ first_replay (history_of (state_after old []) epoch) }

    // No history sets a depth of undo, and none is carried, as in the first profile.
    ensures depths { (rows : List Row) (old : List Event) (epoch : ℕ) → WereRowsOf rows old
        → HasNoDepth (map user_act_of (history_of (state_after old []) epoch)) }
    ensures carried { (rows : List Row) (old : List Event) (epoch : ℕ) (present : List ℕ)
        → WereRowsOf rows old
        → carried (history_of (state_after old []) epoch) present
        ≡ first_carried (history_of (state_after old []) epoch) present }
{
    first_strokes_stay::<Draw>();
    lifting();
    one_message();
    one_resumption();
}

/// There are rows of the first profile: those of the worked example.
pub fn worked_rows_stood()
    ensures { WereRowsOf worked_rows worked_journal }
{}
