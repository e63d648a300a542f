//! The law of drills, the contract of a function that does nothing but call others.

ghost use Rattle.std.specs.Prelude.{◌≡◌, ℕ};
ghost use Rattle.dp_sim.specs.World.{world_after};
ghost use Rattle.dp_drill.specs.Flow.{GetsHistory, drill_flow};
ghost use Rattle.dp_drill.specs.Schedule.{drill_actions};

use dp_client::entries_are_taken;
use dp_epochs::{events_have_effects, histories_are_marked, histories_are_short, steps_lead_on};
use dp_sim::worlds_stay_worlds;

/// What a drill leaves of its session is what its joins and its uplinks leave of it. What clients
/// take leaves it as it is. In the end the first client gets the whole history.
pub fn drills_need_no_clients()
    ensures past { (seed count : ℕ)
        → (world_after (drill_actions seed count)).past ≡ (drill_flow seed count).past }
    ensures gets { (seed count : ℕ) → GetsHistory (drill_flow seed count).past }
{
    worlds_stay_worlds();
    steps_lead_on();
    events_have_effects();
    histories_are_marked();
    histories_are_short();
    entries_are_taken();
}
