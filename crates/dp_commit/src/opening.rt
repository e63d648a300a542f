//! What goes over into the next epoch.

ghost use Rattle.std.specs.Prelude.{◌≡◌, ◌+◌, ◌-◌, ◌*◌, ◌^◌, ◌<◌, ◌≤◌, ◌∷◌, ◌++◌, [], ℕ, List};
ghost use Rattle.std.specs.Prelude.{true, is_some, map, drop};
ghost use Rattle.std.specs.Prelude.{All, OnOk, slice_get, slice_index_or, length, IfOk};
ghost use Rattle.std.specs.List.{filter, filter_map};
ghost use Rattle.dp_messages.specs.declared.message.Entry.{Entry as Piece};
ghost use Rattle.dp_msg_meta.specs.Fields.{RiseFrom};
ghost use Rattle.dp_acl.specs.Carried.{carried};
ghost use Rattle.dp_acl.specs.Table.{StandsFor};
ghost use Rattle.dp_acl.specs.Opening.{server_entry, command_entry, last_join, goes_over};
ghost use Rattle.dp_acl.specs.Opening.{opening, opening_limit};
ghost use Rattle.dp_epochs.specs.Rows.{event_limit};
ghost use Rattle.dp_epochs.specs.State.{State, epoch_of, kept_by, present_users, sent_commands};
ghost use Rattle.dp_epochs.specs.State.{user_ids};
ghost use Rattle.dp_epochs.specs.declared.event.Event.{Event as Kept};
ghost use Rattle.dp_history.specs.Users.{mark, AreJoined};
ghost use Rattle.dp_history.specs.Items.{join_of, IsIn, IsPart, commands_in, entry_in};
ghost use Rattle.dp_history.specs.Openings.{Holds};
ghost use Rattle.dp_commit.specs.Opened.{with_rest};
ghost use Rattle.dp_commit.specs.Sending.{start_of};
ghost use Rattle.dp_commit.specs.Tables.{AreOf, seen_in};

use crate::connections::Roster;
use crate::live::LiveEpoch;
use crate::sending::Sending;
use crate::supply::mark;
use dp_acl::Rights;
use dp_epochs::{Event, openings, present_users_rise};
use dp_history::{HistoryItem, Opening, count_kept, present_ids};
use dp_lists::rest_of;
use dp_messages::Entry;
use dp_msg_meta::Meta;
use std::alloc::{AllocError, Global};

/// An opening that begins with this entry.
pub(crate) fn begin_with(alloc: Global, first: Entry) -> Result<Opening, AllocError>
    ensures { IfOk result (λ opening. (journal : List Kept) → Holds journal opening (first ∷ [])) }
{
    let mut opening = Opening::new(alloc)?;
    match opening.add(first) {
        Ok(()) => Ok(opening),
        Err(error) => {
            drop(opening);
            Err(error)
        }
    }
}

/// How many users are present, and the messages on rights that go over with them.
fn carry(
    alloc: Global,
    present: &[bool; 256],
    rights: &Rights,
) -> Result<(usize, Vec<Meta>), AllocError>
    requires { RiseFrom 1 (filter (mark present.now) user_ids) }
    ensures users { IfOk result (λ over.
        over.0 ≡ length (filter (mark present.now) user_ids)) }
    ensures metas { IfOk result (λ over. (history : List Piece) → StandsFor rights.now history
        → over.1.items ≡ carried history (filter (mark present.now) user_ids)) }
{
    let present = present_ids(alloc, present)?;
    let metas = rights.carry(&present)?;
    Ok((present.as_slice().len(), metas))
}

/// Adds to an opening what goes over: the Joins of the users who are present, these messages on
/// rights, the commands of these parts, and those of these entries that a reset may keep. Memory
/// for `count` such entries is taken at once.
fn add_carried(
    opening: &mut Opening,
    journal: &[Event],
    roster: &Roster,
    metas: &[Meta],
    parts: &[u32],
    items: &[HistoryItem],
    count: usize,
) -> Result<(), AllocError>
    requires joined { (user : ℕ) → 1 ≤ user → user ≤ 254 → mark roster.now.present user ≡ true
        → is_some (join_of user (slice_get journal.now
        (slice_index_or roster.now.opens user 0))) ≡ true }
    requires said { All (IsIn journal.now) items.now }
    ensures { OnOk result ((history : List Piece) (live : List Piece)
        → AreJoined journal.now live roster.now.present roster.now.opens
        → All (IsPart journal.now) parts.now → Holds journal.now opening.old history
        → Holds journal.now opening.new
        ((((history
        ++ filter_map (last_join live) (filter (mark roster.now.present) user_ids))
        ++ map server_entry metas.now)
        ++ map command_entry (commands_in journal.now parts.now))
        ++ filter (λ e. goes_over e.msg) (map (entry_in journal.now) items.now))) }
{
    opening.add_joins(journal, &roster.opens, &roster.present)?;
    opening.add_metas(metas)?;
    opening.add_commands(parts)?;
    opening.add_kept(journal, items, count)?;
    Ok(())
}

/// How many entries stand after a mark: those on users, on rights, of commands, and those kept.
fn count_after(users: usize, metas: usize, parts: usize, kept: usize) -> u32
    requires { users + metas + parts + kept < 2 ^ 32 }
    ensures { result ≡ users + metas + parts + kept }
{
    (users + metas + parts + kept) as u32
}

impl LiveEpoch {
    /// The entries from the place on that the reset names which is being sent.
    fn kept_items(&self, sending: &Sending) -> &[HistoryItem]
        ensures { result.now ≡ drop (start_of sending.now.owner sending.now.place
            (length self.now.history.items)) self.now.history.items }
    {
        let from = sending.start(self.history.len());
        rest_of(&self.history, from)
    }

    /// The opening that begins with this entry. After it stand the Joins of the users who are
    /// present, these messages on rights, the commands of the reset that is being sent, and what it
    /// keeps. Memory for `kept` such entries is taken at once.
    fn open_with(
        &self,
        journal: &[Event],
        roster: &Roster,
        sending: &Sending,
        first: Entry,
        metas: &[Meta],
        kept: usize,
    ) -> Result<Opening, AllocError>
        requires joined { (user : ℕ) → 1 ≤ user → user ≤ 254
            → mark roster.now.present user ≡ true
            → is_some (join_of user (slice_get journal.now
            (slice_index_or roster.now.opens user 0))) ≡ true }
        requires said { All (IsIn journal.now) self.now.history.items }
        ensures { (s : State) → AreOf s (seen_in journal.now roster.now sending.now self.now)
            → IfOk result (λ opening. Holds journal.now opening
            (with_rest s (first ∷ []) metas.now)) }
    {
        let items = self.kept_items(sending);
        let mut opening = begin_with(*self.history.allocator(), first)?;
        match add_carried(
            &mut opening,
            journal,
            roster,
            metas,
            &sending.parts,
            items,
            kept,
        ) {
            Ok(()) => Ok(opening),
            Err(error) => {
                drop(opening);
                Err(error)
            }
        }
    }

    /// How the next epoch opens, with the commands of the reset that is being sent and what it
    /// keeps.
    ///
    /// # Errors
    ///
    /// Memory ran out.
    pub fn open_next(
        &self,
        journal: &[Event],
        roster: &Roster,
        sending: &Sending,
    ) -> Result<Opening, AllocError>
        requires of { (s : State) × AreOf s (seen_in journal.now roster.now sending.now self.now) }
        requires few { self.now.number < 2 ^ 32 - 1 }
        requires short { length self.now.history.items ≤ 2 * event_limit + opening_limit }
        ensures { (s : State) → AreOf s (seen_in journal.now roster.now sending.now self.now)
            → IfOk result (λ o. Holds journal.now o
            (opening (epoch_of s + 1) s.live (present_users s) (sent_commands s.stream)
            (kept_by s.stream s.live))) }
    {
        present_users_rise();
        openings();
        let over = carry(*self.history.allocator(), &roster.present, &self.rights)?;
        let kept = count_kept(journal, self.kept_items(sending));
        let after = count_after(over.0, over.1.len(), sending.parts.len(), kept);
        let first = mark(self.number + 1, after);
        self.open_with(journal, roster, sending, first, &over.1, kept)
    }
}
