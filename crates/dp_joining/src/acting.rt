//! What a line of a script has a client do over a link.

ghost use Rattle.std.specs.Prelude.{◌≡◌, ℕ, IfErr, OnOk};
ghost use Rattle.std.specs.Io.KnownBytes.{Appends};
ghost use Rattle.dp_io.specs.Streams.{GrowsByPrefix};
ghost use Rattle.dp_showing.specs.Showing.{shown_text};
ghost use Rattle.dp_joiner.specs.Joining.{printed};
ghost use Rattle.dp_joiner.specs.Steps.{Changes, Does, FaultMatchesPrinting, IsReady, IsSendable};
ghost use Rattle.dp_joiner.specs.Steps.{seen};

use dp_client::Client;
use dp_io::{Sink, Source};
use dp_join_link::JoinStop;
use dp_joiner::Joiner;
use dp_printing::show;
use dp_schedule::JoinAction;
use dp_showing::Shown;
use dp_shown::{ClientBoard, PictureEnd};
use dp_steps::Steps;
use std::alloc::Global;
use std::sync::ledger::Ledger;

/// Does what a line asks for. What it writes to the link is written before what it prints.
///
/// # Errors
///
/// `NoEntry` if it asks for an entry more than the link gives. `LinkFault` and `WriteFault` if
/// the link and the output failed, and `Memory` if memory ran out. Then prefixes were printed
/// and written of what is due.
pub(crate) fn act<B: ClientBoard, R: Source, S: Sink, O: Sink, D: Ledger, T: Ledger>(
    joiner: &mut Joiner<B, R, S>,
    action: JoinAction,
    output: &mut O,
    draws: &mut Steps<D>,
    tiles: &mut Steps<T>,
) -> Result<(), JoinStop>
    requires ready { IsReady joiner.old.client joiner.old.source }
    requires sendable { IsSendable action }
    ensures { Does (seen O.held O.faults joiner.old output.old draws.old tiles.old)
        (seen O.held O.faults joiner.new output.new draws.new tiles.new) action result }
{
    match action {
        JoinAction::Say(msg) => {
            let said = joiner.say(&msg, output, draws, tiles);
            drop(msg);
            said
        }
        JoinAction::Take { count } => joiner.take(count, output, draws, tiles),
        JoinAction::View => show_client(joiner, Shown::View, output),
        JoinAction::Confirmed => show_client(joiner, Shown::Confirmed, output),
        JoinAction::Snapshot => show_client(joiner, Shown::Snapshot, output),
        JoinAction::Reset { keeps } => joiner.reset(keeps, output),
        JoinAction::Chat => joiner.print_chats(output),
    }
}

/// Prints what is shown of the client.
fn show_client<B: ClientBoard, R: Source, S: Sink, O: Sink>(
    joiner: &Joiner<B, R, S>,
    shown: Shown,
    output: &mut O,
) -> Result<(), JoinStop>
    ensures { (draws tiles : ℕ) → Changes (seen O.held O.faults joiner.now output.old draws tiles)
        (seen O.held O.faults joiner.now output.new draws tiles)
        (λ j. printed j (shown_text shown j.client)) result }
{
    print_shown(joiner.alloc(), joiner.client(), shown, output)
}

/// Prints what is shown of a client.
fn print_shown<B: ClientBoard, O: Sink>(
    alloc: Global,
    client: &Client<B>,
    shown: Shown,
    output: &mut O,
) -> Result<(), JoinStop>
    ensures written { OnOk result
        (Appends (O.held output.old) (O.held output.new) (shown_text shown client.now)) }
    ensures prefix { GrowsByPrefix (O.held output.old) (O.held output.new)
        (shown_text shown client.now) }
    ensures kept { OnOk result (O.faults output.new ≡ O.faults output.old) }
    ensures fault { IfErr result
        (FaultMatchesPrinting (O.faults output.old) (O.faults output.new)) }
{
    match show(alloc, client, shown, output) {
        Ok(()) => Ok(()),
        Err(PictureEnd::Failed) => Err(JoinStop::WriteFault),
        Err(PictureEnd::Memory) => Err(JoinStop::Memory),
    }
}
