//! The reset that a client sends.

ghost use Rattle.std.specs.Prelude.{◌≡◌, ◌^◌, ◌<◌, length, IfErr, IfOk, OnOk};
ghost use Rattle.std.specs.List.{flat_map};
ghost use Rattle.std.specs.Io.KnownBytes.{Appends};
ghost use Rattle.dp_io.specs.Streams.{GrowsByPrefix};
ghost use Rattle.dp_messages.specs.declared.message.Msg.TheVariants as msg;
ghost use Rattle.dp_join_link.specs.Sent.{FaultMatchesWriting, sent_by};
ghost use Rattle.dp_showing.specs.Resets.{client_reset};
ghost use Rattle.dp_snap.specs.Resets.{reset_messages};

use dp_client::Client;
use dp_io::Sink;
use dp_join_link::{JoinStop, send};
use dp_messages::Msg;
use dp_msg_draw::Draw;
use dp_msg_meta::Control;
use dp_showing::clients_show;
use dp_shown::ClientBoard;
use dp_snap::{reset_begin, snapshot};
use std::alloc::Global;

/// Writes the client's reset, one that keeps what comes after its canvas or not, and gives the
/// count of its messages.
pub(crate) fn send_client<B: ClientBoard, S: Sink>(
    alloc: Global,
    client: &Client<B>,
    keeps: bool,
    tx: &mut S,
) -> Result<usize, JoinStop>
    requires { length client.now.taken < 2 ^ 32 }
    ensures count { IfOk result (λ count. count ≡ length (client_reset keeps client.now)) }
    ensures written { OnOk result (Appends (S.held tx.old) (S.held tx.new)
        (flat_map (sent_by client.now.user) (client_reset keeps client.now))) }
    ensures prefix { GrowsByPrefix (S.held tx.old) (S.held tx.new)
        (flat_map (sent_by client.now.user) (client_reset keeps client.now)) }
    ensures kept { OnOk result (S.faults tx.new ≡ S.faults tx.old) }
    ensures fault { IfErr result (FaultMatchesWriting (S.faults tx.old) (S.faults tx.new)) }
{
    clients_show::<B>();
    let user = client.user();
    let commands = snapshot(alloc, client.confirmed())?;
    let commands = commands.as_slice();
    let begin = reset_begin(keeps, client.taken().len() as u32);
    send_reset(alloc, user, begin, commands, tx)?;
    Ok(commands.len() + 2)
}

/// Writes a reset to these commands, which begins by this message.
fn send_reset<S: Sink>(
    alloc: Global,
    user: u8,
    begin: Msg,
    commands: &[Draw],
    tx: &mut S,
) -> Result<(), JoinStop>
    ensures written { OnOk result (Appends (S.held tx.old) (S.held tx.new)
        (flat_map (sent_by user) (reset_messages begin commands.now))) }
    ensures prefix { GrowsByPrefix (S.held tx.old) (S.held tx.new)
        (flat_map (sent_by user) (reset_messages begin commands.now)) }
    ensures kept { OnOk result (S.faults tx.new ≡ S.faults tx.old) }
    ensures fault { IfErr result (FaultMatchesWriting (S.faults tx.old) (S.faults tx.new)) }
{
    send(alloc, user, begin, tx)?;
    send_parts(alloc, user, commands, tx)?;
    send(alloc, user, Msg::Control(Control::ResetEnd), tx)
}

/// Writes each command as a part of a reset.
fn send_parts<S: Sink>(
    alloc: Global,
    user: u8,
    commands: &[Draw],
    tx: &mut S,
) -> Result<(), JoinStop>
    ensures written { OnOk result (Appends (S.held tx.old) (S.held tx.new)
        (flat_map (λ command. sent_by user (msg.Part command)) commands.now)) }
    ensures prefix { GrowsByPrefix (S.held tx.old) (S.held tx.new)
        (flat_map (λ command. sent_by user (msg.Part command)) commands.now) }
    ensures kept { OnOk result (S.faults tx.new ≡ S.faults tx.old) }
    ensures fault { IfErr result (FaultMatchesWriting (S.faults tx.old) (S.faults tx.new)) }
{
    for command in commands {
        send_part(alloc, user, command, tx)?;
    }
    Ok(())
}

/// Writes the command as a part of a reset.
fn send_part<S: Sink>(alloc: Global, user: u8, command: &Draw, tx: &mut S) -> Result<(), JoinStop>
    ensures written { OnOk result
        (Appends (S.held tx.old) (S.held tx.new) (sent_by user (msg.Part command.now))) }
    ensures prefix { GrowsByPrefix (S.held tx.old) (S.held tx.new)
        (sent_by user (msg.Part command.now)) }
    ensures kept { OnOk result (S.faults tx.new ≡ S.faults tx.old) }
    ensures fault { IfErr result (FaultMatchesWriting (S.faults tx.old) (S.faults tx.new)) }
{
    send(alloc, user, Msg::Part(command.copy()?), tx)
}
