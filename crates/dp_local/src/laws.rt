//! Laws of the commands. Each function does nothing but call others: its contract is the law.

ghost use Rattle.dp_words.specs.declared.command_line.LocalCommand.{LocalCommand};
ghost use Rattle.dp_local.specs.Runs.{IsLocalRun, run_of};

use dp_viewer::{each_play_ends, each_replay_ends, one_play, one_replay};
use dp_world::{every_schedule, one_schedule};

/// Each command on the input and the output alone is a run: an input is due one answer, which is
/// given if nothing failed.
pub fn local_commands_are_runs()
    ensures { (command : LocalCommand) → IsLocalRun (run_of command) }
{
    one_replay();
    one_play();
    one_schedule();
    each_replay_ends();
    each_play_ends();
    every_schedule();
}
