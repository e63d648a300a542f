//! Laws of worlds, each the contract of a function that does nothing but call others.

ghost use Rattle.std.specs.Prelude.{List};
ghost use Rattle.dp_schedule.specs.declared.action.Action.{Action};
ghost use Rattle.dp_sim.specs.World.{World, first_world, after, world_after};
ghost use Rattle.dp_sim.specs.Invariant.{IsWorld};
ghost use Rattle.dp_sim.specs.Moves.{InstructionsAreMoves};
ghost use Rattle.dp_sim.specs.Headline.{Headline, ForbiddenChangesNothing};
ghost use Rattle.dp_epochs.specs.State.{State};

use dp_acl::forbidden_changes_no_right;
use dp_board::others_do_not_count;
use dp_client::entries_are_taken;
use dp_epochs::{
    epochs_rise, events_have_effects, histories_are_marked, histories_are_permitted,
    histories_grow, steps_lead_on,
};
use dp_msg_draw::Draw;

/// What is true of every world: of the first one, and of the one after any action.
pub fn worlds_stay_worlds()
    ensures first { IsWorld first_world }
    ensures stays { (world : World) (action : Action) → IsWorld world
        → IsWorld (after world action) }
{
    steps_lead_on();
    events_have_effects();
    histories_grow();
    epochs_rise();
    histories_are_marked();
    entries_are_taken();
}

/// What a client does by an instruction is at most one move: messages join its uplink, the session
/// takes the first of them, the client takes the next entry, or its connection is closed.
pub fn instructions_are_moves()
    ensures { InstructionsAreMoves }
{}

/// In every state of a session a message that is answered Filtered changes no canvas and no right,
/// whatever entries come after it.
pub fn forbidden_changes_nothing()
    ensures { (state : State) → ForbiddenChangesNothing state }
{
    forbidden_changes_no_right();
    events_have_effects();
    others_do_not_count::<Draw>();
}

/// After every schedule each client has taken a prefix of the history of its epoch. Its confirmed
/// canvas is that prefix replayed, and its view the same with its unanswered sends drawn after it.
/// A message that is not permitted changes no canvas and no right: what is answered Filtered
/// doesn't, and no history holds an entry that its user was not permitted to send.
pub fn headline()
    ensures { (actions : List Action) → Headline (world_after actions) }
{
    worlds_stay_worlds();
    forbidden_changes_nothing();
    histories_are_permitted();
}
