//! Messages that are written to a link.

ghost use Rattle.std.specs.Prelude.{◌≡◌, ◌≤◌, length, IfErr, OnOk};
ghost use Rattle.std.specs.Io.KnownBytes.{Appends};
ghost use Rattle.dp_io.specs.Streams.{GrowsByPrefix};
ghost use Rattle.dp_join_link.specs.Sent.{FaultMatchesWriting, ack_bytes, hello_bytes, sent_by};

use crate::stops::JoinStop;
use dp_io::{Failed, Sink, put_all};
use dp_messages::{Msg, put_message};
use dp_msg_meta::{Control, NameBytes, Text};
use std::alloc::Global;

/// Writes the bytes to a link.
fn put_link<S: Sink>(bytes: &[u8], tx: &mut S) -> Result<(), JoinStop>
    ensures written { OnOk result (Appends (S.held tx.old) (S.held tx.new) bytes.now) }
    ensures prefix { GrowsByPrefix (S.held tx.old) (S.held tx.new) bytes.now }
    ensures kept { OnOk result (S.faults tx.new ≡ S.faults tx.old) }
    ensures fault { IfErr result (FaultMatchesWriting (S.faults tx.old) (S.faults tx.new)) }
{
    match put_all(tx, bytes) {
        Ok(()) => Ok(()),
        Err(Failed) => Err(JoinStop::LinkFault),
    }
}

/// Writes the frame of a message of the user.
pub fn send_message<S: Sink>(alloc: Global, user: u8, msg: &Msg, tx: &mut S) -> Result<(), JoinStop>
    ensures written { OnOk result
        (Appends (S.held tx.old) (S.held tx.new) (sent_by user msg.now)) }
    ensures prefix { GrowsByPrefix (S.held tx.old) (S.held tx.new) (sent_by user msg.now) }
    ensures kept { OnOk result (S.faults tx.new ≡ S.faults tx.old) }
    ensures fault { IfErr result (FaultMatchesWriting (S.faults tx.old) (S.faults tx.new)) }
{
    let mut frame = Vec::new(alloc);
    put_message(user, msg, &mut frame)?;
    put_link(&frame, tx)
}

/// Writes the frame of a message of the user, which isn't kept.
pub fn send<S: Sink>(alloc: Global, user: u8, msg: Msg, tx: &mut S) -> Result<(), JoinStop>
    ensures written { OnOk result (Appends (S.held tx.old) (S.held tx.new) (sent_by user msg)) }
    ensures prefix { GrowsByPrefix (S.held tx.old) (S.held tx.new) (sent_by user msg) }
    ensures kept { OnOk result (S.faults tx.new ≡ S.faults tx.old) }
    ensures fault { IfErr result (FaultMatchesWriting (S.faults tx.old) (S.faults tx.new)) }
{
    let sent = send_message(alloc, user, &msg, tx);
    drop(msg);
    sent
}

/// Acknowledges the epoch, if one is to be.
pub fn acknowledge<S: Sink>(
    alloc: Global,
    user: u8,
    ack: Option<u32>,
    tx: &mut S,
) -> Result<(), JoinStop>
    ensures written { OnOk result (Appends (S.held tx.old) (S.held tx.new) (ack_bytes user ack)) }
    ensures prefix { GrowsByPrefix (S.held tx.old) (S.held tx.new) (ack_bytes user ack) }
    ensures kept { OnOk result (S.faults tx.new ≡ S.faults tx.old) }
    ensures fault { IfErr result (FaultMatchesWriting (S.faults tx.old) (S.faults tx.new)) }
{
    match ack {
        Some(epoch) => send(alloc, user, Msg::Control(Control::Ack { epoch }), tx),
        None => Ok(()),
    }
}

/// Writes a Hello of this name to a link.
pub fn say_hello<S: Sink>(alloc: Global, name: &Text, tx: &mut S) -> Result<(), JoinStop>
    requires { length name.now ≤ 32 }
    ensures written { OnOk result
        (Appends (S.held tx.old) (S.held tx.new) (hello_bytes name.now)) }
    ensures prefix { GrowsByPrefix (S.held tx.old) (S.held tx.new) (hello_bytes name.now) }
    ensures kept { OnOk result (S.faults tx.new ≡ S.faults tx.old) }
    ensures fault { IfErr result (FaultMatchesWriting (S.faults tx.old) (S.faults tx.new)) }
{
    let name = NameBytes::from_vec(Vec::from_slice(alloc, name.as_slice())?);
    send(alloc, 0, Msg::Control(Control::Hello { name }), tx)
}
