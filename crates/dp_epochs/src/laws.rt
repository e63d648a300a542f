//! Laws of sessions, each the contract of a function that does nothing.

ghost use Rattle.std.specs.Prelude.{◌≡◌, ◌≤◌, ◌+◌, ◌*◌, ◌∷◌, ◌++◌, [], ℕ, List, Some, All, length};
ghost use Rattle.std.specs.Prelude.{Bool, true};
ghost use Rattle.dp_msg_draw.specs.declared.draw.Draw.{Draw};
ghost use Rattle.dp_msg_meta.specs.Fields.{RiseFrom};
ghost use Rattle.dp_msg_meta.specs.declared.message.Meta.TheVariants.{Join};
ghost use Rattle.dp_messages.specs.declared.message.Msg.TheVariants.{Meta};
ghost use Rattle.dp_messages.specs.declared.message.Entry.{Entry};
ghost use Rattle.std.specs.List.{filter};
ghost use Rattle.dp_acl.specs.LookBack.{lists, is_join_of};
ghost use Rattle.dp_epochs.specs.declared.event.Event.{Event as Kept};
ghost use Rattle.dp_epochs.specs.declared.event.Event.TheVariants.{Open};
ghost use Rattle.dp_epochs.specs.declared.event.ShutAt.{ShutAt};
ghost use Rattle.dp_acl.specs.Opening.{opening, last_join, part_limit, opening_limit};
ghost use Rattle.dp_epochs.specs.Past.{Past, state_after, state_of, kept, refused, sure_step};
ghost use Rattle.dp_epochs.specs.State.{State, after_event, epoch_of, history_of, present_users};
ghost use Rattle.dp_epochs.specs.State.{entry_of, free_id, is_name};
ghost use Rattle.dp_epochs.specs.Effects.{EventsHaveEffects, EffectsAreMade};
ghost use Rattle.dp_epochs.specs.Effects.{DecisionsHaveEffects, ConnectionsStay};
ghost use Rattle.dp_epochs.specs.Laws.{Continues, LoggedStep, IsRun, AreFaults, ShutBefore};
ghost use Rattle.dp_epochs.specs.Laws.{shut_by};
ghost use Rattle.dp_epochs.specs.Laws.{HasNoMark, IsHistory, AreHistories, ArePermitted};
ghost use Rattle.dp_epochs.specs.Rows.{row_of};
ghost use Rattle.dp_epochs.specs.Spelled.{HasRow, RowSpells};
ghost use Rattle.dp_epochs.specs.Resumed.{StandAfter};
ghost use Rattle.dp_keeper.specs.declared.row.Row.{Row};

use dp_messages::one_message;

/// A session has one answer for each event of its journal, whatever was closed between.
pub fn one_answer_each()
    ensures { (past : Past) → length (state_of past).answers ≡ length past.journal }
{}

/// What an event does to a session is one of a few effects: which entries it places, at most two,
/// which connection it adds or changes, and what is answered.
pub fn events_have_effects()
    ensures { EventsHaveEffects }
{}

/// An effect that has its cause is what the event does.
pub fn effects_are_made()
    ensures { EffectsAreMade }
{}

/// A message of an open connection has the effect that the decision on it says.
pub fn decisions_have_effects()
    ensures { DecisionsHaveEffects }
{}

/// The history of each epoch only grows: what stands in it stands there after one more event.
pub fn histories_grow()
    ensures { (journal : List Kept) (shut : List ShutAt) (e : Kept) (epoch : ℕ)
        → All (λ s. s.n ≤ length journal) shut
        → Continues (history_of (state_after journal shut) epoch)
        (history_of (state_after (journal ++ e ∷ []) shut) epoch) }
{}

/// A connection that was given out stays its user's, with its Join where it stands, and if it has
/// ended it stays so.
pub fn connections_stay()
    ensures { ConnectionsStay }
{}

/// Once a put has failed, every outcome is that fault, or out of memory.
pub fn faults_for_good()
    ensures { (past : Past) (first : ℕ) (log : List LoggedStep)
        → past.first_fault ≡ Some first → IsRun past log → AreFaults first log }
{}

/// Where one more event leads: one that is kept, and one that the limits refuse.
pub fn steps_lead_on()
    ensures kept { (past : Past) (e : Kept) → ShutBefore past
        → state_of (kept past e) ≡ after_event (state_of past) e }
    ensures refused { (past : Past) (e : Kept)
        → state_of (refused past e) ≡ shut_by (state_of past) e }
    ensures before { (past : Past) (e : Kept) → ShutBefore past → ShutBefore (sure_step past e) }
{}

/// A history has at most two entries for each event, besides those with which its epoch opened.
pub fn histories_are_short()
    ensures { (past : Past) (epoch : ℕ) → length (history_of (state_of past) epoch)
        ≤ 2 * length past.journal + opening_limit }
{}

/// An epoch opens by an event, so there are at most as many as events.
pub fn epochs_are_few()
    ensures { (past : Past) → epoch_of (state_of past) ≤ length past.journal }
{}

/// An event opens at most one epoch.
pub fn epochs_rise()
    ensures rise { (s : State) (e : Kept) → epoch_of s ≤ epoch_of (after_event s e) }
    ensures next { (s : State) (e : Kept) → epoch_of (after_event s e) ≤ epoch_of s + 1 }
{}

/// The history of each epoch begins with the mark of the epoch, and has no other mark.
pub fn histories_are_marked()
    ensures { (past : Past) → AreHistories (state_of past) }
{}

/// In the history of each epoch an entry after those with which it opened is the server's. Or its
/// user was permitted to send its message by the entries before it.
pub fn histories_are_permitted()
    ensures { (past : Past) (epoch : ℕ) → ArePermitted (history_of (state_of past) epoch) }
{}

/// How an epoch opens: with the mark of its number, after which no other stands, if none is
/// kept. Who is present has joined last as before, if no Join of the user is kept.
pub fn openings()
    ensures marked { (epoch : ℕ) (history : List Entry) (present : List ℕ) (commands : List Draw)
        (kept : List Entry) → HasNoMark kept
        → IsHistory epoch (opening epoch history present commands kept) }
    ensures short { (epoch : ℕ) (history : List Entry) (present : List ℕ) (commands : List Draw)
        (kept : List Entry) → length present ≤ 254 → length commands ≤ part_limit
        → length (opening epoch history present commands kept) ≤ opening_limit + length kept }
    ensures joins { (epoch : ℕ) (history : List Entry) (present : List ℕ) (commands : List Draw)
        (kept : List Entry) (user : ℕ) → RiseFrom 1 present → lists present user ≡ true
        → filter (is_join_of user) kept ≡ []
        → last_join (opening epoch history present commands kept) user
        ≡ last_join history user }
{}

/// The present users rise.
pub fn present_users_rise()
    ensures { (s : State) → RiseFrom 1 (present_users s) }
{}

/// A present user's last Join stays, whatever comes, and a user who joins has joined last by that.
pub fn joins_stay()
    ensures present { (s : State) (e : Kept) (user : ℕ) → lists (present_users s) user ≡ true
        → last_join (after_event s e).live user ≡ last_join s.live user }
    ensures joined { (s : State) (name : List ℕ) (registered : Bool) (user : ℕ)
        → is_name name ≡ true → free_id s ≡ Some user
        → last_join (after_event s (Open name registered)).live user
        ≡ Some (entry_of user (Meta (Join registered name))) }
{}

/// Bytes are the row of at most one event, and that event has a row. The row that is written for an
/// event spells it, and any other row that spells it is as long.
pub fn rows_spell_events()
    ensures one { (bytes : List ℕ) (e f : Kept) → RowSpells bytes e → RowSpells bytes f → e ≡ f }
    ensures read { (bytes : List ℕ) (e : Kept) → RowSpells bytes e → HasRow e }
    ensures written { (e : Kept) → HasRow e → RowSpells (row_of e) e }
    ensures long { (bytes : List ℕ) (e : Kept) → RowSpells bytes e
        → length bytes ≡ length (row_of e) }
{
    one_message();
}

/// Rows of some events, and rows of more events that may stand after them, are the rows of both.
pub fn rows_go_on()
    ensures { (before : List Kept) (rows more : List Row) (first next : List Kept)
        → StandAfter before rows first → StandAfter (before ++ first) more next
        → StandAfter before (rows ++ more) (first ++ next) }
{}
