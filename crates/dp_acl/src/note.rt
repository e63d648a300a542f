//! What an entry changes in the table of rights.

ghost use Rattle.std.specs.Prelude.{◌≡◌, ℕ, ◌+◌, ◌≤◌, List, [], ◌∷◌, ◌++◌, OnOk, OnErr};
ghost use Rattle.dp_msg_meta.specs.declared.message.Meta.TheVariants as said;
ghost use Rattle.dp_messages.specs.declared.message.Entry.{Entry as Item};
ghost use Rattle.dp_acl.specs.Table.{StandsFor};
ghost use Rattle.dp_acl.specs.Step.{meta_entry, IsKeptAfter};

use crate::id_set::IdSet;
use crate::rights::Rights;
use crate::rules::Rule;
use dp_messages::{Entry, Msg};
use dp_msg_meta::{Ids, Meta, Tiers};
use std::alloc::AllocError;

impl Rights {
    /// Notes an entry, with memory that is ready (`reserve`). It costs the entry and not the
    /// history.
    ///
    /// The rule: docs/protocol.md, "Rights".
    pub fn note_reserved(&mut self, entry: &Entry)
        requires { 1 ≤ self.old.room }
        ensures stands { (history : List Item) → StandsFor self.old history
            → StandsFor self.new (history ++ entry.now ∷ []) }
        ensures room { self.old.room ≤ self.new.room + 1 }
    {
        if let Msg::Meta(meta) = &entry.msg {
            self.note_meta(entry.user, meta);
        }
    }

    /// Notes an entry. It costs the entry and not the history.
    ///
    /// # Errors
    ///
    /// If memory runs out. The rights are then as they were, but for memory that may be ready.
    pub fn note(&mut self, entry: &Entry) -> Result<(), AllocError>
        ensures stands { OnOk result ((history : List Item) → StandsFor self.old history
            → StandsFor self.new (history ++ entry.now ∷ [])) }
        ensures err { OnErr result (self.new ≡ record self.old { room = self.new.room }) }
        ensures spared { OnErr result (self.old.room ≤ self.new.room) }
    {
        self.reserve(1)?;
        self.note_reserved(entry);
        Ok(())
    }

    fn note_meta(&mut self, user: u8, meta: &Meta)
        requires { 1 ≤ self.old.room }
        ensures kept { IsKeptAfter self.old (meta_entry user meta.now) self.new }
        ensures room { self.old.room ≤ self.new.room + 1 }
    {
        match meta {
            Meta::Join { registered, .. } => self.note_join(user, *registered),
            Meta::Leave => {}
            Meta::Owners { ids } => self.note_owners(ids.as_slice()),
            Meta::Chat { .. } => {}
            Meta::Trusted { ids } => self.note_trusted(ids.as_slice()),
            Meta::ResetMark { .. } => {}
            Meta::Laser { .. } => {}
            Meta::MovePointer { .. } => {}
            Meta::UserAcl { ids } => self.note_locks(ids.as_slice()),
            Meta::LayerAcl {
                layer,
                locked,
                tier,
                ids,
            } => self.note_rule(*layer, *locked, *tier, ids),
            Meta::FeatureTiers { tiers } => self.note_tiers(*tiers),
            Meta::Filtered { .. } => {}
            Meta::UndoDepth { depth } => self.note_depth(*depth),
        }
    }

    /// A user joins, and is none of those who are listed.
    fn note_join(&mut self, user: u8, registered: bool)
        ensures kept { (name : List ℕ)
            → IsKeptAfter self.old (meta_entry user (said.Join registered name)) self.new }
        ensures room { self.new.room ≡ self.old.room }
    {
        self.joined.set(user, true);
        self.registered.set(user, registered);
        self.operators.set(user, false);
        self.trusted.set(user, false);
        self.lock_listed.set(user, false);
    }

    fn note_owners(&mut self, ids: &[u8])
        ensures kept { (user : ℕ)
            → IsKeptAfter self.old (meta_entry user (said.Owners ids.now)) self.new }
        ensures room { self.new.room ≡ self.old.room }
    {
        self.operators = self.joined.both(&IdSet::of(ids));
    }

    fn note_trusted(&mut self, ids: &[u8])
        ensures kept { (user : ℕ)
            → IsKeptAfter self.old (meta_entry user (said.Trusted ids.now)) self.new }
        ensures room { self.new.room ≡ self.old.room }
    {
        self.trusted = self.joined.both(&IdSet::of(ids));
    }

    fn note_locks(&mut self, ids: &[u8])
        ensures kept { (user : ℕ)
            → IsKeptAfter self.old (meta_entry user (said.UserAcl ids.now)) self.new }
        ensures room { self.new.room ≡ self.old.room }
    {
        let listed = IdSet::of(ids);
        self.all_locked = listed.contains(0);
        self.lock_listed = self.joined.both(&listed);
    }

    fn note_rule(&mut self, layer: u16, locked: bool, tier: u8, ids: &Ids)
        requires { 1 ≤ self.old.room }
        ensures kept { (user : ℕ) → IsKeptAfter self.old
            (meta_entry user (said.LayerAcl layer locked tier ids.now)) self.new }
        ensures room { self.old.room ≤ self.new.room + 1 }
    {
        self.rules.put(Rule {
            layer,
            locked,
            tier,
            ids: IdSet::of(ids.as_slice()),
        });
    }

    fn note_tiers(&mut self, tiers: Tiers)
        ensures kept { (user : ℕ)
            → IsKeptAfter self.old (meta_entry user (said.FeatureTiers tiers)) self.new }
        ensures room { self.new.room ≡ self.old.room }
    {
        self.tiers = tiers;
    }

    fn note_depth(&mut self, depth: u8)
        ensures kept { (user : ℕ)
            → IsKeptAfter self.old (meta_entry user (said.UndoDepth depth)) self.new }
        ensures room { self.new.room ≡ self.old.room }
    {
        self.depth = Some(depth);
    }
}
