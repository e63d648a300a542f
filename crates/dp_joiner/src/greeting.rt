//! Greeting a server.

ghost use Rattle.std.specs.Prelude.{◌≡◌, ◌≤◌, ℕ, false, List, [], length, Some, None, IfOk, IfErr};
ghost use Rattle.std.specs.Prelude.{IfSome, IfNone, OnOk};
ghost use Rattle.std.specs.Io.KnownBytes.{Appends};
ghost use Rattle.circular_buffer.specs.Buffer.{buffer};
ghost use Rattle.dp_client.specs.Client.{welcomed};
ghost use Rattle.dp_joiner.specs.Greetings.{GreetingFails, NoWelcome, Welcomes};
ghost use Rattle.dp_joiner.specs.Joining.{chat_limit, greeted, newcomer};
ghost use Rattle.dp_join_link.specs.Sent.{hello_bytes};
ghost use Rattle.dp_join_link.specs.JoinStanding.{is_welcome};
ghost use Rattle.dp_join_link.specs.Reading.{HasGiven, IsReadable, source_at};

use crate::chats::{CHAT_LIMIT, ChatLine};
use circular_buffer::HeapCircularBuffer;
use dp_client::Client;
use dp_entries::EntryReader;
use dp_io::{Sink, Source};
use dp_join_link::{JoinStanding, JoinStop, LinkCause, pull, say_hello};
use dp_messages::{Entry, Msg};
use dp_msg_meta::{Control, Text};
use dp_shown::ClientBoard;
use std::alloc::Global;

/// How many bytes of a link count: 1 GiB.
const LINK_LIMIT: u64 = 1 << 30;

/// A client that a server has welcomed, with the reader of the link's further entries.
#[derive(Drop)]
pub struct Greeting<B: ClientBoard> {
    pub client: Client<B>,
    pub chats: HeapCircularBuffer<ChatLine>,
    pub reader: EntryReader<JoinStanding>,
}

/// The user's id of a Welcome, and the place of the user's Join.
#[derive(Clone, Copy)]
struct Welcome {
    user: u8,
    epoch: u32,
    at: u32,
}

/// Says a name of at most 32 bytes in a Hello, and takes the Welcome.
///
/// # Errors
///
/// `NoEntry` if the link's first entry is no Welcome, or if it gives none. `LinkFault` if the link
/// failed, and `Memory` if memory ran out. Then a prefix of the Hello was written, or all of it.
///
/// The rule: docs/protocol.md, "Joining".
pub fn greet<B: ClientBoard, R: Source, S: Sink>(
    alloc: Global,
    name: &Text,
    rx: &mut R,
    tx: &mut S,
) -> Result<Greeting<B>, JoinStop>
    requires { length name.now ≤ 32 }
    ensures hello { OnOk result
        (Appends (S.held tx.old) (S.held tx.new) (hello_bytes name.now)) }
    ensures sink { OnOk result (S.faults tx.new ≡ S.faults tx.old) }
    ensures welcome { IfOk result (λ greeting. Welcomes (R.left rx.old) (R.faults rx.old)
        (source_at R.left R.faults greeting.reader rx.new) greeting.client) }
    ensures chats { IfOk result (λ greeting. greeting.chats ≡ buffer [] chat_limit) }
    ensures err { IfErr result (GreetingFails name.now (R.left rx.old)
        (S.held tx.old) (S.held tx.new) (R.faults rx.old) (R.faults rx.new)
        (S.faults tx.old) (S.faults tx.new)) }
{
    let chats = HeapCircularBuffer::with_capacity(alloc, CHAT_LIMIT)?;
    match say_hello(alloc, name, tx) {
        Ok(()) => {}
        Err(stop) => {
            drop(chats);
            return Err(stop);
        }
    }
    let mut reader = EntryReader::new(alloc, 0, LINK_LIMIT);
    match welcomed(alloc, &mut reader, rx) {
        Ok(client) => Ok(Greeting {
            client,
            chats,
            reader,
        }),
        Err(stop) => {
            drop(reader);
            drop(chats);
            Err(stop)
        }
    }
}

/// The client that the link's first entry welcomes.
fn welcomed<B: ClientBoard, R: Source>(
    alloc: Global,
    reader: &mut EntryReader<JoinStanding>,
    rx: &mut R,
) -> Result<Client<B>, JoinStop>
    requires readable { IsReadable (source_at R.left R.faults reader.old rx.old) }
    requires begun { IfSome (R.left rx.old) (λ bytes.
        HasGiven (source_at R.left R.faults reader.old rx.old) bytes []) }
    ensures ok { IfOk result (Welcomes (R.left rx.old) (R.faults rx.old)
        (source_at R.left R.faults reader.new rx.new)) }
    ensures err { IfErr result
        (NoWelcome (R.left rx.old) (R.faults rx.old) (R.faults rx.new)) }
{
    let first = pull(alloc, reader, rx)?;
    let welcome = welcome_of(&first);
    drop(first);
    match welcome {
        Some(welcome) => client_of(alloc, welcome),
        None => Err(JoinStop::NoEntry(LinkCause::Closed)),
    }
}

/// A client that was welcomed so.
fn client_of<B: ClientBoard>(alloc: Global, welcome: Welcome) -> Result<Client<B>, JoinStop>
    ensures ok { IfOk result (λ client.
        client ≡ welcomed welcome.user welcome.epoch welcome.at) }
    ensures memory { IfErr result (λ stop. stop ≡ JoinStop.Memory) }
{
    let client = Client::new(alloc, welcome.user, welcome.epoch, welcome.at)?;
    Ok(client)
}

/// What the entry says, if it is a Welcome.
fn welcome_of(entry: &Entry) -> Option<Welcome>
    ensures some { IfSome result (λ welcome. (name : List ℕ) → greeted name entry.now.msg ≡ Some
        (newcomer (welcomed welcome.user welcome.epoch welcome.at) name)) }
    ensures none { IfNone result ((name : List ℕ) → greeted name entry.now.msg ≡ None) }
    ensures other { IfNone result (is_welcome entry.now.msg ≡ false) }
{
    match &entry.msg {
        Msg::Control(
            Control::Welcome {
                user,
                epoch,
                at,
                ..
            },
        ) => Some(Welcome {
            user: *user,
            epoch: *epoch,
            at: *at,
        }),
        _ => None,
    }
}
