//! What an event places beside what it says, made before it is kept.

ghost use Rattle.std.specs.Prelude.{◌≡◌, ◌++◌, List, Some, false, option_to_list, IfOk};
ghost use Rattle.dp_epochs.specs.Effects.{own_message, entries_of, IsEffect};
ghost use Rattle.dp_epochs.specs.State.{filtered_entry, next_owner, State};
ghost use Rattle.dp_epochs.specs.declared.event.Event.{Event as Kept};
ghost use Rattle.dp_acl.specs.Opening.{server_entry};
ghost use Rattle.dp_msg_meta.specs.declared.message.Meta.TheVariants.{ResetMark};
ghost use Rattle.dp_history.specs.Items.{IsSay};
ghost use Rattle.dp_commit.specs.Placed.{IsSupply, opens_epoch, own_entries, unboxed};

use dp_epochs::{Effect, Event};
use dp_history::{Opening, join_entry};
use dp_messages::{Entry, Msg};
use dp_msg_meta::{Ids, Meta};
use std::alloc::{AllocError, Global};

/// What an event places, beside what it says, made before it is kept.
#[derive(Drop)]
pub enum Supply {
    /// Up to two entries.
    Entries {
        first: Option<Box<Entry>>,
        second: Option<Box<Entry>>,
    },
    /// The history with which the next epoch opens.
    Opens(Opening),
}

/// The entry in place of what the event says: of what kind that was.
fn filtered(event: &Event, user: u8) -> Entry
    requires { IsSay (Some event.now) }
    ensures { result ≡ filtered_entry user (own_message event.now) }
{
    match event {
        Event::Say { msg, .. } => Entry {
            user,
            msg: Msg::Meta(Meta::Filtered { kind: msg.kind() }),
        },
        _ => unreachable!(),
    }
}

/// The entry, if there is one, in a box.
fn boxed(alloc: Global, entry: Option<Entry>) -> Result<Option<Box<Entry>>, AllocError>
    ensures { IfOk result (λ found. unboxed found ≡ option_to_list entry) }
{
    Ok(match entry {
        Some(entry) => Some(Box::new(alloc, entry)?),
        None => None,
    })
}

/// The entry that makes the user the only operator, if there is one, in a box.
fn owner_entry(alloc: Global, user: Option<u8>) -> Result<Option<Box<Entry>>, AllocError>
    ensures { IfOk result (λ entry. unboxed entry ≡ next_owner user) }
{
    let Some(user) = user else {
        return Ok(None);
    };
    let ids = Vec::from_slice(alloc, &[user])?;
    let entry = Entry {
        user: 0,
        msg: Msg::Meta(Meta::Owners {
            ids: Ids::from_vec(ids),
        }),
    };
    boxed(alloc, Some(entry))
}

/// The entries that the event, which opens no epoch, places beside what it says: this one, and that
/// which makes a user the only operator, if there is one.
fn entries(
    alloc: Global,
    event: &Event,
    effect: Effect,
    first: Option<Box<Entry>>,
    owner: Option<u8>,
) -> Result<Supply, AllocError>
    requires stays { opens_epoch effect ≡ false }
    requires whole { own_entries event.now effect ++ (unboxed first ++ next_owner owner)
        ≡ entries_of event.now effect }
    ensures { IfOk result (λ supply. (journal : List Kept) (s : State)
        → IsSupply journal s event.now effect supply) }
{
    match owner_entry(alloc, owner) {
        Ok(second) => Ok(Supply::Entries { first, second }),
        Err(error) => {
            drop(first);
            Err(error)
        }
    }
}

/// What the event, which does this and opens no epoch, places beside what it says.
pub fn make_entries(alloc: Global, event: &Event, effect: Effect) -> Result<Supply, AllocError>
    requires cause { (s : State) × IsEffect s event.now effect }
    requires stays { opens_epoch effect ≡ false }
    ensures { IfOk result (λ supply. (journal : List Kept) (s : State)
        → IsSupply journal s event.now effect supply) }
{
    match effect {
        Effect::Filtered { connection, .. } | Effect::Dropped { connection, .. } => {
            let first = boxed(alloc, Some(filtered(event, connection.user)))?;
            entries(alloc, event, effect, first, None)
        }
        Effect::Joined { user, next } => {
            let first = boxed(alloc, join_entry(alloc, event, user)?)?;
            entries(alloc, event, effect, first, next)
        }
        Effect::Left {
            connection,
            next,
            ..
        } => {
            let leave = Entry {
                user: connection.user,
                msg: Msg::Meta(Meta::Leave),
            };
            let first = boxed(alloc, Some(leave))?;
            entries(alloc, event, effect, first, next)
        }
        _ => Ok(Supply::Entries {
            first: None,
            second: None,
        }),
    }
}

/// The mark of an epoch that opens with this number of entries after it.
pub fn mark(epoch: u32, carried: u32) -> Entry
    ensures { result ≡ server_entry (ResetMark epoch carried) }
{
    Entry {
        user: 0,
        msg: Msg::Meta(Meta::ResetMark { epoch, carried }),
    }
}
