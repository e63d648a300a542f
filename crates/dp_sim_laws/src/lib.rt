//! Laws of schedules: what a client's own steps lead to, and which of its sends are unanswered.
#![tactic(auto)]

mod laws;

pub use laws::{
    clients_go_by_their_steps, forks_are_plain, histories_are_spelled, keeps_show_the_session,
    no_fork_is_lost, resets_show_the_senders_canvas, schedules_are_spelled,
};
