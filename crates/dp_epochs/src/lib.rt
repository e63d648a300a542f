//! What comes to a session, what it answers, and the rows that are kept of it. Its state, what
//! events do to it, and laws of it.
//!
//! The rule: docs/protocol.md, "The session".
#![tactic(auto)]

mod connection;
mod decision;
mod effect;
mod event;
mod laws;
mod reading;
mod row;

pub use connection::{Connection, Ending, Place};
pub use decision::Decision;
pub use effect::Effect;
pub use event::{Answer, Entries, Event, Journal, Query, Reply, Shut, ShutAt};
pub use laws::{
    connections_stay, decisions_have_effects, effects_are_made, epochs_are_few, epochs_rise,
    events_have_effects, faults_for_good, histories_are_marked, histories_are_permitted,
    histories_are_short, histories_grow, joins_stay, one_answer_each, openings, present_users_rise,
    rows_go_on, rows_spell_events, steps_lead_on,
};
pub use reading::read_row;
pub use row::make_row;
