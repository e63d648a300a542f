//! How the next epoch opens: its history so far, and the rights after that.

ghost use Rattle.std.specs.Prelude.{◌≡◌, ◌≤◌, ◌++◌, ◌∷◌, [], ℕ, List, Bool, true, is_some, map};
ghost use Rattle.std.specs.Prelude.{All};
ghost use Rattle.std.specs.Prelude.{IfOk, OnOk, slice_get, slice_index_or};
ghost use Rattle.std.specs.List.{filter, filter_map};
ghost use Rattle.dp_messages.specs.declared.message.Entry.{Entry as Piece};
ghost use Rattle.dp_epochs.specs.declared.event.Event.{Event as Kept};
ghost use Rattle.dp_acl.specs.Opening.{server_entry, command_entry, last_join, goes_over};
ghost use Rattle.dp_epochs.specs.State.{user_ids};
ghost use Rattle.dp_history.specs.Users.{mark, AreJoined};
ghost use Rattle.dp_history.specs.Items.{join_of, IsIn, IsPart, commands_in, entry_in};
ghost use Rattle.dp_history.specs.Openings.{Holds};

use crate::item::{HistoryItem, boxed, copy_of, is_kept, join};
use dp_acl::{Rights, commands_change_no_right, kept_change_no_right};
use dp_epochs::Event;
use dp_messages::{Entry, Msg};
use dp_msg_meta::Meta;
use std::alloc::{AllocError, Global};

/// The history with which an epoch opens, as it is kept, and the rights after it.
#[derive(Drop)]
pub struct Opening {
    pub live: Vec<HistoryItem>,
    /// Apart, since it is large: few plans open an epoch.
    pub rights: Box<Rights>,
}

impl Opening {
    /// No entries.
    pub fn new(alloc: Global) -> Result<Opening, AllocError>
        ensures { IfOk result (λ opening. (journal : List Kept) → Holds journal opening []) }
    {
        let rights = Box::new(alloc, Rights::new(alloc))?;
        let live = Vec::new(alloc);
        Ok(Opening { live, rights })
    }

    /// Adds an entry of the server's own.
    pub fn add(&mut self, entry: Entry) -> Result<(), AllocError>
        ensures { OnOk result ((journal : List Kept) (history : List Piece)
            → Holds journal self.old history → Holds journal self.new (history ++ entry ∷ [])) }
    {
        match self.rights.note(&entry) {
            Ok(()) => {
                let kept = boxed(*self.live.allocator(), entry)?;
                self.live.push(HistoryItem::Server(kept))?;
                Ok(())
            }
            Err(error) => {
                drop(entry);
                Err(error)
            }
        }
    }

    /// Adds the user's Join by the Open that is this event of the journal.
    fn add_join(&mut self, journal: &[Event], event: u32, user: u8) -> Result<(), AllocError>
        requires { is_some (join_of user (slice_get journal.now event)) ≡ true }
        ensures { OnOk result ((history : List Piece) (live : List Piece)
            → last_join live user ≡ join_of user (slice_get journal.now event)
            → Holds journal.now self.old history
            → Holds journal.now self.new (history ++ filter_map (last_join live) (user ∷ []))) }
    {
        let join = join(*self.live.allocator(), journal, event, user)?;
        match self.rights.note(&join) {
            Ok(()) => {
                drop(join);
                self.live.push(HistoryItem::Joined { event, user })?;
                Ok(())
            }
            Err(error) => {
                drop(join);
                Err(error)
            }
        }
    }

    /// Adds the last Joins of the users who are marked, each by the event that is noted.
    pub fn add_joins(
        &mut self,
        journal: &[Event],
        opens: &[u32; 256],
        present: &[bool; 256],
    ) -> Result<(), AllocError>
        requires { (user : ℕ) → 1 ≤ user → user ≤ 254 → mark present.now user ≡ true
            → is_some (join_of user (slice_get journal.now
            (slice_index_or opens.now user 0))) ≡ true }
        ensures { OnOk result ((history : List Piece) (live : List Piece)
            → AreJoined journal.now live present.now opens.now
            → Holds journal.now self.old history
            → Holds journal.now self.new
            (history ++ filter_map (last_join live) (filter (mark present.now) user_ids))) }
    {
        for user in 1..255u8 {
            if present[user as usize] {
                self.add_join(journal, opens[user as usize], user)?;
            }
        }
        Ok(())
    }

    /// Adds copies of messages as entries of the server's own.
    pub fn add_metas(&mut self, metas: &[Meta]) -> Result<(), AllocError>
        ensures { OnOk result ((journal : List Kept) (history : List Piece)
            → Holds journal self.old history
            → Holds journal self.new (history ++ map server_entry metas.now)) }
    {
        for meta in metas {
            self.add(Entry {
                user: 0,
                msg: Msg::Meta(meta.copy()?),
            })?;
        }
        Ok(())
    }

    /// Adds the commands of the parts that are these events of the journal. The rights stay.
    pub fn add_commands(&mut self, parts: &[u32]) -> Result<(), AllocError>
        ensures { OnOk result ((journal : List Kept) (history : List Piece)
            → All (IsPart journal) parts.now → Holds journal self.old history
            → Holds journal self.new
            (history ++ map command_entry (commands_in journal parts.now))) }
    {
        commands_change_no_right();
        for part in parts {
            self.live.push(HistoryItem::Command { event: *part })?;
        }
        Ok(())
    }

    /// Adds the entry, which is kept beside the journal, if it goes on. The rights stay.
    fn add_one_kept(&mut self, journal: &[Event], item: &HistoryItem) -> Result<(), AllocError>
        requires { IsIn journal.now item.now }
        ensures { OnOk result ((history : List Piece) → Holds journal.now self.old history
            → Holds journal.now self.new
            (history ++ filter (λ e. goes_over e.msg) (entry_in journal.now item.now ∷ []))) }
    {
        kept_change_no_right();
        if !is_kept(journal, item) {
            return Ok(());
        }
        let copy = copy_of(*self.live.allocator(), item)?;
        self.live.push(copy)?;
        Ok(())
    }

    /// Adds those of the entries, which are kept beside the journal, that go on. Memory for `count`
    /// entries is taken at once. The rights stay.
    pub fn add_kept(
        &mut self,
        journal: &[Event],
        items: &[HistoryItem],
        count: usize,
    ) -> Result<(), AllocError>
        requires { All (IsIn journal.now) items.now }
        ensures { OnOk result ((history : List Piece) → Holds journal.now self.old history
            → Holds journal.now self.new
            (history ++ filter (λ e. goes_over e.msg) (map (entry_in journal.now) items.now))) }
    {
        self.live.reserve(count)?;
        for item in items {
            self.add_one_kept(journal, item)?;
        }
        Ok(())
    }
}
