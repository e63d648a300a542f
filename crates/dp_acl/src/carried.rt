//! What of the rights is carried into the next epoch.

ghost use Rattle.std.specs.Prelude.{◌≡◌, ℕ, ◌≤◌, List, [], ◌∷◌, ◌++◌, length, if◌then◌else◌, IfOk};
ghost use Rattle.std.specs.Prelude.{OnOk, option_to_list};
ghost use Rattle.std.specs.Option.{option_map};
ghost use Rattle.dp_msg_meta.specs.declared.message.Meta.TheVariants.{UndoDepth};
ghost use Rattle.std.specs.List.{filter};
ghost use Rattle.dp_msg_meta.specs.Fields.{RiseFrom};
ghost use Rattle.dp_messages.specs.declared.message.Entry.{Entry as Item};
ghost use Rattle.dp_acl.specs.Carried.{carried};
ghost use Rattle.dp_acl.specs.Table.{StandsFor, mark_of};

use crate::rights::Rights;
use dp_msg_meta::{Ids, Meta};
use std::alloc::{AllocError, Global};

impl Rights {
    /// The messages that open the next epoch, in which the users of these ids are present. The ids
    /// rise from 1 to at most 254.
    ///
    /// The rule: docs/protocol.md, "Rights".
    pub fn carry(&self, present: &Ids) -> Result<Vec<Meta>, AllocError>
        requires { RiseFrom 1 present.now }
        ensures { IfOk result (λ metas. (history : List Item) → StandsFor self.now history
            → metas.items ≡ carried history present.now) }
    {
        let alloc = self.rules.allocator();
        let present = present.as_slice();
        let owners = self.operators.among(alloc, present)?;
        let trusted = self.trusted.among(alloc, present)?;
        let locks = self.locks(alloc, present)?;
        let mut metas = Vec::with_capacity(alloc, 4)?;
        metas.push(Meta::Owners {
            ids: Ids::from_vec(owners),
        })?;
        metas.push(Meta::Trusted {
            ids: Ids::from_vec(trusted),
        })?;
        metas.push(Meta::UserAcl {
            ids: Ids::from_vec(locks),
        })?;
        metas.push(Meta::FeatureTiers { tiers: self.tiers })?;
        self.carry_depth(&mut metas)?;
        self.rules.carry(&mut metas)?;
        Ok(metas)
    }

    /// Adds the depth of undo at the end, if one was set.
    fn carry_depth(&self, metas: &mut Vec<Meta>) -> Result<(), AllocError>
        ensures { OnOk result (metas.new.items ≡ metas.old.items
            ++ option_to_list (option_map UndoDepth self.now.depth)) }
    {
        if let Some(depth) = self.depth {
            metas.push(Meta::UndoDepth { depth })?;
        }
        Ok(())
    }

    /// 0, if all are locked, and the present ids that are listed.
    fn locks(&self, alloc: Global, present: &[u8]) -> Result<Vec<u8>, AllocError>
        ensures { IfOk result (λ ids. ids.items
            ≡ (if self.now.all_locked then 0 ∷ [] else [])
            ++ filter (mark_of self.now.lock_listed) present.now) }
    {
        let mut ids = Vec::new(alloc);
        if self.all_locked {
            ids.push(0)?;
        }
        ids.extend_from_slice(&self.lock_listed.among(alloc, present)?)?;
        Ok(ids)
    }
}
