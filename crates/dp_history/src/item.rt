//! Entries of the history as they are kept.

ghost use Rattle.std.specs.Prelude.{◌≡◌, ◌++◌, ◌∷◌, List, [], true, is_some, map, slice_get};
ghost use Rattle.std.specs.Prelude.{All, IfOk, IfSome, OnOk, OnErr, Some, length};
ghost use Rattle.std.specs.List.{filter};
ghost use Rattle.std.specs.Option.{option_map};
ghost use Rattle.dp_acl.specs.Opening.{command_entry, goes_over};
ghost use Rattle.dp_epochs.specs.declared.event.Event.{Event as Kept};
ghost use Rattle.dp_epochs.specs.State.{entry_of, is_name};
ghost use Rattle.dp_messages.specs.declared.message.Entry.{Entry as Piece};
ghost use Rattle.dp_messages.specs.Messages.{entry_bytes};
ghost use Rattle.dp_frame_log.specs.Frames.{AreLogOf};
ghost use Rattle.dp_history.specs.Frames.{AreWritten};
ghost use Rattle.dp_history.specs.Items.{entry_in, IsIn, IsSay, join_of, message_of, part_of};

use dp_epochs::{Entries, Event};
use dp_frame_log::{FrameLog, PageFrames};
use dp_messages::{Entry, Msg};
use dp_msg_meta::{Meta, Text};
use std::alloc::{AllocError, Global};

/// An entry of the history. What was said is kept once, in the journal.
pub enum HistoryItem {
    /// The user said the message of this event of the journal.
    Said { event: u32, user: u8 },
    /// The user's Join, by the Open that is this event of the journal.
    Joined { event: u32, user: u8 },
    /// The command of the part of a reset that is this event of the journal.
    Command { event: u32 },
    /// An entry that no event says.
    Server(Box<Entry>),
}

// It is written out, so that it is only called where an item is let go. A derived one would be
// proved again there.
impl Drop for HistoryItem {
    fn drop(self) {
        match self {
            HistoryItem::Said { event: _, user: _ } => {}
            HistoryItem::Joined { event: _, user: _ } => {}
            HistoryItem::Command { event: _ } => {}
            HistoryItem::Server(entry) => drop(entry),
        }
    }
}

/// The name as a text, if it is a name.
pub fn name_text(alloc: Global, name: &[u8]) -> Result<Option<Text>, AllocError>
    ensures named { IfOk result (λ text. is_some text ≡ is_name name.now) }
    ensures text { IfOk result (λ found. IfSome found (λ text. text ≡ name.now)) }
{
    if name.is_empty() || name.len() > 32 {
        return Ok(None);
    }
    Ok(Text::from_vec(Vec::from_slice(alloc, name)?))
}

/// The message that the event says.
fn said(journal: &[Event], event: u32, user: u8) -> Result<Entry, AllocError>
    requires { IsSay (slice_get journal.now event) }
    ensures { IfOk result (λ entry. entry
        ≡ entry_of user (message_of (slice_get journal.now event))) }
{
    match journal.get(event as usize) {
        Some(Event::Say { msg, .. }) => Ok(Entry {
            user,
            msg: msg.copy()?,
        }),
        _ => unreachable!(),
    }
}

/// The command of the part that the event says.
fn command(journal: &[Event], event: u32) -> Result<Entry, AllocError>
    requires { is_some (part_of (slice_get journal.now event)) ≡ true }
    ensures { IfOk result (λ entry. Some entry
        ≡ option_map command_entry (part_of (slice_get journal.now event))) }
{
    match journal.get(event as usize) {
        Some(
            Event::Say {
                msg: Msg::Part(command),
                ..
            },
        ) => Ok(Entry {
            user: 0,
            msg: Msg::Draw(command.copy()?),
        }),
        _ => unreachable!(),
    }
}

/// The user's Join by the event, if it is an Open with a name.
pub fn join_entry(alloc: Global, event: &Event, user: u8) -> Result<Option<Entry>, AllocError>
    ensures { IfOk result (λ entry. entry ≡ join_of user (Some event.now)) }
{
    let Event::Open { name, registered } = event else {
        return Ok(None);
    };
    Ok(match name_text(alloc, name.as_slice())? {
        Some(name) => Some(Entry {
            user,
            msg: Msg::Meta(Meta::Join {
                registered: *registered,
                name,
            }),
        }),
        None => None,
    })
}

/// The user's Join by the Open that is this event of the journal.
pub(crate) fn join(
    alloc: Global,
    journal: &[Event],
    event: u32,
    user: u8,
) -> Result<Entry, AllocError>
    requires { is_some (join_of user (slice_get journal.now event)) ≡ true }
    ensures { IfOk result (λ entry. Some entry ≡ join_of user (slice_get journal.now event)) }
{
    match journal.get(event as usize) {
        Some(found) => match join_entry(alloc, found, user)? {
            Some(entry) => Ok(entry),
            None => unreachable!(),
        },
        None => unreachable!(),
    }
}

/// Whether an entry of this message goes on into the next epoch if a reset keeps it.
fn does_go_on(msg: &Msg) -> bool
    ensures { result ≡ goes_over msg.now }
{
    match msg {
        Msg::Draw(_) => true,
        Msg::Point => true,
        Msg::Undo { .. } => true,
        Msg::Opaque { .. } => true,
        Msg::Meta(Meta::Chat { .. }) => true,
        _ => false,
    }
}

/// Whether what the event says goes on.
fn says_kept(journal: &[Event], event: u32) -> bool
    requires { IsSay (slice_get journal.now event) }
    ensures { result ≡ goes_over (message_of (slice_get journal.now event)) }
{
    match journal.get(event as usize) {
        Some(Event::Say { msg, .. }) => does_go_on(msg),
        _ => unreachable!(),
    }
}

/// Whether the entry goes on into the next epoch if a reset keeps it.
pub(crate) fn is_kept(journal: &[Event], item: &HistoryItem) -> bool
    requires { IsIn journal.now item.now }
    ensures { result ≡ goes_over (entry_in journal.now item.now).msg }
{
    match item {
        HistoryItem::Said { event, .. } => says_kept(journal, *event),
        HistoryItem::Joined { .. } => false,
        HistoryItem::Command { .. } => true,
        HistoryItem::Server(entry) => does_go_on(&entry.msg),
    }
}

/// How many of the entries go on into the next epoch if a reset keeps them.
pub fn count_kept(journal: &[Event], items: &[HistoryItem]) -> usize
    requires { All (IsIn journal.now) items.now }
    ensures { result
        ≡ length (filter (λ e. goes_over e.msg) (map (entry_in journal.now) items.now)) }
{
    let mut count = 0;
    for item in items {
        if is_kept(journal, item) {
            count += 1;
        }
    }
    count
}

/// The entry in a box.
pub(crate) fn boxed(alloc: Global, entry: Entry) -> Result<Box<Entry>, AllocError>
    ensures { IfOk result (λ found. found.value ≡ entry) }
{
    Ok(Box::new(alloc, entry)?)
}

/// A copy of the entry, in a box.
fn boxed_copy(alloc: Global, entry: &Entry) -> Result<Box<Entry>, AllocError>
    ensures { IfOk result (λ copy. copy.value ≡ entry.now) }
{
    boxed(alloc, entry.copy()?)
}

/// The item once more. A message is copied only if it is the server's own.
pub(crate) fn copy_of(alloc: Global, item: &HistoryItem) -> Result<HistoryItem, AllocError>
    ensures same { IfOk result (λ copy. (journal : List Kept)
        → entry_in journal copy ≡ entry_in journal item.now) }
    ensures said { IfOk result (λ copy. (journal : List Kept) → IsIn journal item.now
        → IsIn journal copy) }
{
    Ok(match item {
        HistoryItem::Said { event, user } => HistoryItem::Said {
            event: *event,
            user: *user,
        },
        HistoryItem::Joined { event, user } => HistoryItem::Joined {
            event: *event,
            user: *user,
        },
        HistoryItem::Command { event } => HistoryItem::Command { event: *event },
        HistoryItem::Server(entry) => HistoryItem::Server(boxed_copy(alloc, entry)?),
    })
}

/// A copy of an entry that is kept beside the journal.
pub fn entry(alloc: Global, journal: &[Event], item: &HistoryItem) -> Result<Entry, AllocError>
    requires { IsIn journal.now item.now }
    ensures { IfOk result (λ entry. entry ≡ entry_in journal.now item.now) }
{
    match item {
        HistoryItem::Said { event, user } => said(journal, *event, *user),
        HistoryItem::Joined { event, user } => join(alloc, journal, *event, *user),
        HistoryItem::Command { event } => command(journal, *event),
        HistoryItem::Server(entry) => entry.copy(),
    }
}

/// Adds copies of entries to a list.
fn add_copies(
    alloc: Global,
    journal: &[Event],
    items: &[HistoryItem],
    entries: &mut Vec<Entry>,
) -> Result<(), AllocError>
    requires { All (IsIn journal.now) items.now }
    ensures { OnOk result (entries.new.items
        ≡ entries.old.items ++ map (entry_in journal.now) items.now) }
{
    for item in items {
        entries.push(entry(alloc, journal, item)?)?;
    }
    Ok(())
}

/// Copies of entries.
pub fn copies(
    alloc: Global,
    journal: &[Event],
    items: &[HistoryItem],
) -> Result<Entries, AllocError>
    requires { All (IsIn journal.now) items.now }
    ensures { IfOk result (λ copies. copies ≡ map (entry_in journal.now) items.now) }
{
    let mut entries = Vec::new(alloc);
    match add_copies(alloc, journal, items, &mut entries) {
        Ok(()) => Ok(Entries::from_vec(entries)),
        Err(error) => {
            drop(entries);
            Err(error)
        }
    }
}

/// Puts the frame of an entry that is kept beside the journal into a page, in place of what there
/// was.
pub(crate) fn put_item(
    alloc: Global,
    journal: &[Event],
    item: &HistoryItem,
    page: &mut PageFrames,
) -> Result<(), AllocError>
    requires { IsIn journal.now item.now }
    ensures ok { OnOk result (page.new ≡ entry_bytes (entry_in journal.now item.now)) }
    ensures err { OnErr result (page.new ≡ []) }
{
    page.clear();
    let entry = entry(alloc, journal, item)?;
    let outcome = page.put(&entry);
    drop(entry);
    outcome
}

/// Adds the frame of the message that the event says.
fn append_said(
    journal: &[Event],
    event: u32,
    user: u8,
    frames: &mut FrameLog,
) -> Result<(), AllocError>
    requires { IsSay (slice_get journal.now event) }
    ensures ok { OnOk result ((entries : List Piece) → AreLogOf frames.old entries
        → AreLogOf frames.new
        (entries ++ entry_of user (message_of (slice_get journal.now event)) ∷ [])) }
    ensures err { OnErr result (frames.new ≡ frames.old) }
{
    match journal.get(event as usize) {
        Some(Event::Say { msg, .. }) => frames.append(user, msg),
        _ => unreachable!(),
    }
}

/// Adds the frame of an entry that is kept beside the journal.
fn append_item(
    alloc: Global,
    journal: &[Event],
    item: &HistoryItem,
    frames: &mut FrameLog,
) -> Result<(), AllocError>
    requires { IsIn journal.now item.now }
    ensures ok { OnOk result ((entries : List Piece) → AreLogOf frames.old entries
        → AreLogOf frames.new (entries ++ entry_in journal.now item.now ∷ [])) }
    ensures err { OnErr result (frames.new ≡ frames.old) }
{
    match item {
        HistoryItem::Said { event, user } => append_said(journal, *event, *user, frames),
        HistoryItem::Server(entry) => frames.append(entry.user, &entry.msg),
        _ => {
            let entry = entry(alloc, journal, item)?;
            let outcome = frames.append(entry.user, &entry.msg);
            drop(entry);
            outcome
        }
    }
}

/// Makes the frame of the entry at a place, if there is one.
fn write_at(
    alloc: Global,
    journal: &[Event],
    live: &[HistoryItem],
    frames: &mut FrameLog,
) -> Result<bool, AllocError>
    requires { All (IsIn journal.now) live.now }
    ensures { AreWritten frames.old (map (entry_in journal.now) live.now)
        → AreWritten frames.new (map (entry_in journal.now) live.now) }
{
    match live.get(frames.len()) {
        Some(item) => {
            append_item(alloc, journal, item, frames)?;
            Ok(true)
        }
        None => Ok(false),
    }
}

/// Makes the frames of the entries that have none yet, as far as memory goes.
pub(crate) fn write_all(
    alloc: Global,
    journal: &[Event],
    live: &[HistoryItem],
    frames: &mut FrameLog,
)
    requires { All (IsIn journal.now) live.now }
    ensures { AreWritten frames.old (map (entry_in journal.now) live.now)
        → AreWritten frames.new (map (entry_in journal.now) live.now) }
{
    for _entry in frames.len()..live.len() {
        match write_at(alloc, journal, live, frames) {
            Ok(true) => {}
            Ok(false) => return,
            Err(AllocError) => return,
        }
    }
}
