//! The live epoch, and how an event is kept in it: in its history, with its rights and its frames.

ghost use Rattle.std.specs.Prelude.{◌≡◌, ◌+◌, ◌-◌, ◌^◌, ◌<◌, ◌≤◌, ◌∷◌, ◌++◌, [], List, Some};
ghost use Rattle.std.specs.Prelude.{length, option_to_list, vec_len, vec_capacity, All, map, IfOk};
ghost use Rattle.std.specs.Prelude.{OnOk};
ghost use Rattle.dp_messages.specs.declared.message.Entry.{Entry as Piece};
ghost use Rattle.dp_acl.specs.Table.{StandsFor};
ghost use Rattle.dp_epochs.specs.declared.event.Event.{Event as Kept};
ghost use Rattle.dp_epochs.specs.Effects.{own_message};
ghost use Rattle.dp_epochs.specs.State.{entry_of};
ghost use Rattle.dp_history.specs.Items.{entry_in, IsIn, IsSay};
ghost use Rattle.dp_history.specs.Made.{AreMadeOf};
ghost use Rattle.dp_commit.specs.Placed.{own_entries, own_items, SaysOwn, supplied, items_after};
ghost use Rattle.dp_commit.specs.Placed.{unboxed, server_items, IsWithSupply, AreFramesWith};
ghost use Rattle.dp_commit.specs.Placed.{epoch_with};
ghost use Rattle.dp_commit.specs.Room.{SameLive};

use crate::opening::begin_with;
use crate::supply::Supply;
use dp_acl::Rights;
use dp_epochs::{Effect, Event};
use dp_history::{HistoryFrames, HistoryItem};
use dp_messages::Entry;
use std::alloc::{AllocError, Global};

/// The live epoch: its history so far, and what was made of that.
pub struct LiveEpoch {
    pub number: u32,
    pub history: Vec<HistoryItem>,
    /// The frames that were made of the history.
    pub frames: HistoryFrames,
    /// The rights after the history.
    pub rights: Rights,
}

// It is written out, so that it is only called where an epoch is let go. A derived one would be
// proved again there, with all that it holds.
impl Drop for LiveEpoch {
    fn drop(self) {
        let LiveEpoch {
            number: _,
            history,
            frames,
            rights,
        } = self;
        drop(history);
        drop(frames);
        drop(rights);
    }
}

/// Notes the entry of a message that the user says.
fn note_said(rights: &mut Rights, event: Event, user: u8) -> Event
    requires said { IsSay (Some event) }
    requires room { 1 ≤ rights.old.room }
    ensures event { result ≡ event }
    ensures stands { (history : List Piece) → StandsFor rights.old history
        → StandsFor rights.new (history ++ entry_of user (own_message event) ∷ []) }
    ensures room { rights.old.room ≤ rights.new.room + 1 }
{
    match event {
        Event::Say { conn, msg } => {
            let entry = Entry { user, msg };
            rights.note_reserved(&entry);
            Event::Say {
                conn,
                msg: entry.msg,
            }
        }
        _ => unreachable!(),
    }
}

/// Notes the entry of what the event says, if that is placed.
fn note_own(rights: &mut Rights, event: Event, effect: Effect) -> Event
    requires said { SaysOwn event effect }
    requires room { length (own_entries event effect) ≤ rights.old.room }
    ensures event { result ≡ event }
    ensures stands { (history : List Piece) → StandsFor rights.old history
        → StandsFor rights.new (history ++ own_entries event effect) }
    ensures room { rights.old.room ≤ rights.new.room + length (own_entries event effect) }
{
    match effect {
        Effect::Placed { connection, .. } => note_said(rights, event, connection.user),
        _ => event,
    }
}

/// The entry of what the event of this number says, as it is kept, if that is placed.
fn own_item(event: u32, effect: Effect) -> Option<HistoryItem>
    ensures { option_to_list result ≡ own_items event effect }
{
    match effect {
        Effect::Placed { connection, .. } => Some(HistoryItem::Said {
            event,
            user: connection.user,
        }),
        _ => None,
    }
}

/// Places an entry, if there is one.
fn place_server(live: &mut Vec<HistoryItem>, rights: &mut Rights, entry: Option<Box<Entry>>)
    requires live { vec_len live.old + length (unboxed entry) ≤ vec_capacity live.old }
    requires rights { length (unboxed entry) ≤ rights.old.room }
    ensures live { live.new.items ≡ live.old.items ++ server_items entry }
    ensures stands { (history : List Piece) → StandsFor rights.old history
        → StandsFor rights.new (history ++ unboxed entry) }
    ensures len { vec_len live.new ≡ vec_len live.old + length (unboxed entry) }
    ensures capacity { vec_capacity live.new ≡ vec_capacity live.old }
    ensures room { rights.old.room ≤ rights.new.room + length (unboxed entry) }
{
    if let Some(entry) = entry {
        rights.note_reserved(&entry);
        live.push_reserved(HistoryItem::Server(entry));
    }
}

/// Keeps the frames of the entries from a place on that go over, if an epoch opens.
fn keep_frames(
    frames: &mut HistoryFrames,
    journal: &[Event],
    live: &[HistoryItem],
    from: usize,
    supply: &Supply,
)
    requires said { All (IsIn journal.now) live.now }
    requires made { AreMadeOf frames.old (map (entry_in journal.now) live.now) }
    ensures { AreFramesWith (map (entry_in journal.now) live.now) from supply.now frames.old
        frames.new }
{
    if let Supply::Opens(opening) = supply {
        let _ = frames.keep(journal, live, from, opening.live.len());
    }
}

/// Places the event's own entry, which was noted, and what was made ahead.
fn place(
    epoch: &mut u32,
    live: &mut Vec<HistoryItem>,
    rights: &mut Rights,
    own: Option<HistoryItem>,
    supply: Supply,
)
    requires next { epoch.old < 2 ^ 32 - 1 }
    requires live { vec_len live.old + length (option_to_list own) + length (supplied supply)
        ≤ vec_capacity live.old }
    requires rights { length (supplied supply) ≤ rights.old.room }
    ensures epoch { epoch.new ≡ epoch_with supply epoch.old }
    ensures live { live.new.items ≡ items_after (option_to_list own) supply live.old.items }
    ensures stands { (journal : List Kept) (history : List Piece) (next : List Piece)
        → StandsFor rights.old history → IsWithSupply journal supply history next
        → StandsFor rights.new next }
{
    match supply {
        Supply::Entries { first, second } => {
            if let Some(item) = own {
                live.push_reserved(item);
            }
            place_server(live, rights, first);
            place_server(live, rights, second);
        }
        Supply::Opens(opening) => {
            *epoch += 1;
            *live = opening.live;
            *rights = Box::into_inner(opening.rights);
        }
    }
}

impl LiveEpoch {
    /// The first epoch, which opens with this entry.
    pub fn new(alloc: Global, first: Entry) -> Result<LiveEpoch, AllocError>
        ensures number { IfOk result (λ live. live.number ≡ 0) }
        ensures history { IfOk result (λ live.
            map (entry_in []) live.history.items ≡ first ∷ []) }
        ensures said { IfOk result (λ live. All (IsIn []) live.history.items) }
        ensures frames { IfOk result (λ live. (history : List Piece)
            → AreMadeOf live.frames history) }
        ensures stands { IfOk result (λ live. StandsFor live.rights (first ∷ [])) }
    {
        let opening = begin_with(alloc, first)?;
        Ok(LiveEpoch {
            number: 0,
            history: opening.live,
            frames: HistoryFrames::new(alloc),
            rights: Box::into_inner(opening.rights),
        })
    }

    /// Makes the frames of the entries that have none yet, as far as memory goes.
    pub fn write_frames(&mut self, journal: &[Event])
        requires { All (IsIn journal.now) self.old.history.items }
        ensures made { AreMadeOf self.old.frames
            (map (entry_in journal.now) self.old.history.items)
            → AreMadeOf self.new.frames (map (entry_in journal.now) self.old.history.items) }
        ensures others { self.new ≡ record self.old { frames = self.new.frames } }
    {
        let alloc = *self.history.allocator();
        self.frames.write(alloc, journal, &self.history);
    }

    /// Makes the memory ready that any one event needs.
    pub(crate) fn reserve(&mut self) -> Result<(), AllocError>
        ensures same { SameLive self.old self.new }
        ensures history_room { OnOk result (vec_len self.new.history + 2
            ≤ vec_capacity self.new.history) }
        ensures rights_room { OnOk result (2 ≤ self.new.rights.room) }
    {
        self.history.reserve(2)?;
        self.rights.reserve(2)
    }

    /// Keeps the event of this number of the journal, with what was made ahead, and gives the event
    /// back. If the next epoch opens, it keeps the frames of the entries from a place on. It takes
    /// no memory.
    pub(crate) fn keep(
        &mut self,
        journal: &[Event],
        event: Event,
        effect: Effect,
        n: u32,
        from: usize,
        supply: Supply,
    ) -> Event
        requires next { self.old.number < 2 ^ 32 - 1 }
        requires says { SaysOwn event effect }
        requires said { All (IsIn journal.now) self.old.history.items }
        requires made { AreMadeOf self.old.frames
            (map (entry_in journal.now) self.old.history.items) }
        requires history { vec_len self.old.history + length (own_entries event effect)
            + length (supplied supply) ≤ vec_capacity self.old.history }
        requires rights { length (own_entries event effect) + length (supplied supply)
            ≤ self.old.rights.room }
        ensures event { result ≡ event }
        ensures number { self.new.number ≡ epoch_with supply self.old.number }
        ensures history { self.new.history.items
            ≡ items_after (own_items n effect) supply self.old.history.items }
        ensures frames { AreFramesWith (map (entry_in journal.now) self.old.history.items) from
            supply self.old.frames self.new.frames }
        ensures stands { (history : List Piece) (next : List Piece)
            → StandsFor self.old.rights history
            → IsWithSupply journal.now supply (history ++ own_entries event effect) next
            → StandsFor self.new.rights next }
    {
        keep_frames(&mut self.frames, journal, &self.history, from, &supply);
        let event = note_own(&mut self.rights, event, effect);
        place(
            &mut self.number,
            &mut self.history,
            &mut self.rights,
            own_item(n, effect),
            supply,
        );
        event
    }
}
