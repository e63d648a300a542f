//! The table of rights.

ghost use Rattle.std.specs.Prelude.{◌≡◌, ℕ, ◌≤◌, List, [], OnOk};
ghost use Rattle.dp_messages.specs.declared.message.Entry.{Entry as Item};
ghost use Rattle.dp_acl.specs.Rights.{is_operator};
ghost use Rattle.dp_acl.specs.Table.{StandsFor};

use crate::id_set::IdSet;
use crate::rules::Rules;
use dp_msg_meta::Tiers;
use std::alloc::{AllocError, Global};
use std::marker::Model;

/// What a session keeps of the history of its epoch to say who may do what.
///
/// The rule: docs/protocol.md, "Rights".
#[derive(Debug, Drop)]
pub struct Rights {
    pub(crate) joined: IdSet,
    pub(crate) operators: IdSet,
    pub(crate) trusted: IdSet,
    pub(crate) registered: IdSet,
    pub(crate) all_locked: bool,
    pub(crate) lock_listed: IdSet,
    pub(crate) tiers: Tiers,
    pub(crate) depth: Option<u8>,
    pub(crate) rules: Rules,
}

impl Model for Rights {
    ghost use Rattle.dp_acl.specs.Table.{Kept};

    ghost Value = { Kept };

    ghost view = { λ r. record {
      joined = r.joined;
      operators = r.operators;
      trusted = r.trusted;
      registered = r.registered;
      all_locked = r.all_locked;
      lock_listed = r.lock_listed;
      tiers = r.tiers;
      depth = r.depth;
      rules = r.rules.rules;
      room = r.rules.room;
    } };
}

/// The tiers of the features if no FeatureTiers stands.
const FIRST_TIERS: Tiers = Tiers {
    image: 3,
    move_: 3,
    resize: 0,
    background: 0,
    edit_layers: 0,
    own_layers: 3,
    laser: 3,
    undo: 3,
};

impl Rights {
    /// The rights at the start of an epoch, before its first entry.
    pub fn new(alloc: Global) -> Rights
        ensures { StandsFor result [] }
    {
        Rights {
            joined: IdSet::new(),
            operators: IdSet::new(),
            trusted: IdSet::new(),
            registered: IdSet::new(),
            all_locked: false,
            lock_listed: IdSet::new(),
            tiers: FIRST_TIERS,
            depth: None,
            rules: Rules::new(alloc),
        }
    }

    /// Makes the memory ready that noting `count` entries needs.
    pub fn reserve(&mut self, count: usize) -> Result<(), AllocError>
        ensures kept { self.new ≡ record self.old { room = self.new.room } }
        ensures stands { (history : List Item) → StandsFor self.old history
            → StandsFor self.new history }
        ensures room { OnOk result (count ≤ self.new.room) }
        // What was spared before stays spared, whether memory runs out or not.
        ensures spared { self.old.room ≤ self.new.room }
    {
        self.rules.reserve(count)
    }

    /// Whether the user is an operator.
    pub fn is_operator(&self, user: u8) -> bool
        ensures { (history : List Item) → StandsFor self.now history
            → result ≡ is_operator history user }
    {
        self.operators.contains(user)
    }
}
