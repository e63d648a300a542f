//! Laws of schedules, each the contract of a function that does nothing but call others.

ghost use Rattle.std.specs.Prelude.{◌≡◌, ◌≢◌, ◌≤◌, ℕ, Bool, List, ◌∷◌, ◌++◌, length, drop};
ghost use Rattle.std.specs.Prelude.{◌+◌, true, IfSome, All};
ghost use Rattle.dp_client.specs.Client.{confirmed, own_of};
ghost use Rattle.dp_epochs.specs.Past.{Past, state_of};
ghost use Rattle.dp_epochs.specs.Rows.{event_limit};
ghost use Rattle.dp_epochs.specs.State.{history_of};
ghost use Rattle.dp_fork.specs.declared.own.Own.TheVariants.{Lost};
ghost use Rattle.dp_schedule.specs.declared.action.Action.{Action};
ghost use Rattle.dp_schedule.specs.declared.action.Action.TheVariants.{Act};
ghost use Rattle.dp_schedule.specs.declared.action.Instruction.TheVariants.{Reset};
ghost use Rattle.dp_sim.specs.Exchanges.{Participant};
ghost use Rattle.dp_sim.specs.World.{world_after, participant_of};
ghost use Rattle.dp_sim_laws.specs.OwnSteps.{own_steps, GoesBy, next_of};
ghost use Rattle.dp_sim_laws.specs.Resets.{IsTakenUp, GoesOnFrom, ShowsOn, kept_over};
ghost use Rattle.dp_sim_laws.specs.Spelled.{AreSpelledEntries, IsSpelledEvent, SaysSpelled};
ghost use Rattle.dp_sim_laws.specs.Tally.{IsUnended, tally_of};

use dp_acl::spelled_ids_are_in_order;
use dp_client::entries_are_taken;
use dp_epochs::{
    decisions_have_effects, effects_are_made, epochs_rise, events_have_effects,
    histories_are_marked, histories_are_short, histories_grow, steps_lead_on,
};
use dp_keep_laws::{kept_entries_show_the_same, openings_go_on};
use dp_messages::one_equality;
use dp_sim::{instructions_are_moves, worlds_stay_worlds};
use dp_snap_laws::{snapshots_are_spelled, snapshots_replay};

/// After every schedule each client is where its own steps since its Welcome lead.
pub fn clients_go_by_their_steps()
    ensures { (actions : List Action) (number : ℕ)
        → IfSome (participant_of (world_after actions) number)
        (λ participant. GoesBy participant.state (own_steps number actions)) }
{
    instructions_are_moves();
}

/// After a schedule of such messages as lines say, if no event was answered Ended, a client's fork
/// is its sends without the first n. It has taken n own answers.
pub fn forks_are_plain()
    ensures few { (actions : List Action) (number : ℕ) → IsUnended actions
        → IfSome (participant_of (world_after actions) number) (λ participant.
        let tally = tally_of participant.state (own_steps number actions) in
        tally.answers ≤ length tally.sends) }
    ensures fork { (actions : List Action) (number : ℕ) → IsUnended actions
        → IfSome (participant_of (world_after actions) number) (λ participant.
        let tally = tally_of participant.state (own_steps number actions) in
        participant.state.fork ≡ drop tally.answers tally.sends) }
{
    instructions_are_moves();
    decisions_have_effects();
    effects_are_made();
    worlds_stay_worlds();
    steps_lead_on();
    events_have_effects();
    histories_are_marked();
    one_equality();
    entries_are_taken();
}

/// After such a schedule no client's next entry loses its fork.
pub fn no_fork_is_lost()
    ensures { (actions : List Action) (number : ℕ) → IsUnended actions
        → IfSome (participant_of (world_after actions) number) (λ participant.
        IfSome (next_of (world_after actions) participant)
        (λ entry. own_of participant.state entry ≢ Lost)) }
{
    instructions_are_moves();
    decisions_have_effects();
    effects_are_made();
    worlds_stay_worlds();
    steps_lead_on();
    events_have_effects();
    histories_are_marked();
    one_equality();
    entries_are_taken();
}

/// In a session whose messages have a spelling, as many as may be kept, each entry of each epoch
/// has one. So have those with which it opened.
pub fn histories_are_spelled()
    ensures { (past : Past) (epoch : ℕ) → All IsSpelledEvent past.journal
        → length past.journal ≤ event_limit → AreSpelledEntries (history_of (state_of past) epoch) }
{
    spelled_ids_are_in_order();
    events_have_effects();
    histories_are_short();
    steps_lead_on();
}

/// After every schedule of messages that have a spelling, so has each entry of each epoch, and each
/// message that came to the session.
pub fn schedules_are_spelled()
    ensures entries { (actions : List Action) (epoch : ℕ) → All SaysSpelled actions
        → AreSpelledEntries (history_of (state_of (world_after actions).past) epoch) }
    ensures events { (actions : List Action) → All SaysSpelled actions
        → All IsSpelledEvent (world_after actions).past.journal }
{
    instructions_are_moves();
    worlds_stay_worlds();
    steps_lead_on();
    histories_are_spelled();
    histories_are_short();
    snapshots_are_spelled();
}

/// The premise: each message of a client's reset was taken up, its begin and its parts noted and
/// its end the opening of an epoch. Then every client of that epoch that has taken the opening
/// whole shows the sender's confirmed canvas as it was at the reset. What the reset keeps is drawn
/// after it, if it keeps, and then what the client has taken more.
pub fn resets_show_the_senders_canvas()
    ensures { (before later : List Action) (number epoch : ℕ) (keeps : Bool) (sender : Participant)
        → All SaysSpelled before → IsTakenUp before later number keeps sender epoch → (other : ℕ)
        → let world = world_after (before ++ Act number (Reset keeps) ∷ later) in
        IfSome (participant_of world other) (λ participant. participant.state.epoch ≡ epoch
        → GoesOnFrom (confirmed sender.state)
        (kept_over keeps sender.state (state_of world.past) epoch) participant.state) }
{
    instructions_are_moves();
    worlds_stay_worlds();
    steps_lead_on();
    events_have_effects();
    histories_grow();
    epochs_rise();
    histories_are_marked();
    histories_are_spelled();
    histories_are_short();
    snapshots_are_spelled();
    snapshots_replay();
    openings_go_on();
    entries_are_taken();
}

/// A client's reset that keeps was taken up in the epoch in which it was sent. Then every client of
/// the next epoch shows what the history of the epoch before shows, once it has taken the opening
/// whole. What it has taken more is drawn after that. The premise: that history may be cut at the
/// place up to which the sender had taken it.
pub fn keeps_show_the_session()
    ensures { (before later : List Action) (number epoch : ℕ) (sender : Participant)
        → All SaysSpelled before → IsTakenUp before later number true sender epoch
        → sender.state.epoch + 1 ≡ epoch → (other : ℕ)
        → let world = world_after (before ++ Act number (Reset true) ∷ later) in
        IfSome (participant_of world other) (λ participant. participant.state.epoch ≡ epoch
        → ShowsOn (length sender.state.taken)
        (history_of (state_of world.past) sender.state.epoch) participant.state) }
{
    instructions_are_moves();
    worlds_stay_worlds();
    steps_lead_on();
    events_have_effects();
    histories_grow();
    epochs_rise();
    histories_are_marked();
    histories_are_spelled();
    histories_are_short();
    snapshots_are_spelled();
    snapshots_replay();
    openings_go_on();
    kept_entries_show_the_same();
    entries_are_taken();
}
