//! Which ids are held.

ghost use Rattle.std.specs.Prelude.{◌≡◌, ◌&&◌, not, List, slice_set, false, IfOk};
ghost use Rattle.std.specs.List.{filter, find};
ghost use Rattle.dp_messages.specs.declared.message.Entry.{Entry};
ghost use Rattle.dp_acl.specs.Rights.{is_operator};
ghost use Rattle.dp_acl.specs.Table.{StandsFor};
ghost use Rattle.dp_epochs.specs.State.{user_ids};
ghost use Rattle.dp_history.specs.Users.{mark};
ghost use Rattle.dp_history.specs.Users.{first_operator, next_operator};

use dp_acl::Rights;
use dp_msg_meta::Ids;
use std::alloc::{AllocError, Global};

/// The lowest id that no one holds.
pub fn free_id(present: &[bool; 256]) -> Option<u8>
    ensures { result ≡ find (λ user. not (mark present.now user)) user_ids }
{
    for user in 1..255u8 {
        if !present[user as usize] {
            return Some(user);
        }
    }
    None
}

/// The lowest id that is held.
fn lowest_present(present: &[bool; 256]) -> Option<u8>
    ensures { result ≡ find (mark present.now) user_ids }
{
    for user in 1..255u8 {
        if present[user as usize] {
            return Some(user);
        }
    }
    None
}

/// The ids that are held.
pub fn present_ids(alloc: Global, present: &[bool; 256]) -> Result<Ids, AllocError>
    ensures { IfOk result (λ ids. ids ≡ filter (mark present.now) user_ids) }
{
    let mut ids = Vec::new(alloc);
    for user in 1..255u8 {
        if present[user as usize] {
            ids.push(user)?;
        }
    }
    Ok(Ids::from_vec(ids))
}

/// The user, who joins, as the first operator, if no one is present.
pub fn first_operator(present: &[bool; 256], user: u8) -> Option<u8>
    ensures { result ≡ first_operator present.now user }
{
    match lowest_present(present) {
        Some(_) => None,
        None => Some(user),
    }
}

/// The lowest id that is held by an operator.
fn lowest_operator(rights: &Rights, present: &[bool; 256]) -> Option<u8>
    ensures { (history : List Entry) → StandsFor rights.now history
        → result ≡ find (λ user. mark present.now user && is_operator history user) user_ids }
{
    for user in 1..255u8 {
        if present[user as usize] && rights.is_operator(user) {
            return Some(user);
        }
    }
    None
}

/// The user who becomes operator when this one leaves, if one does.
pub fn next_operator(rights: &Rights, present: &[bool; 256], user: u8) -> Option<u8>
    ensures { (history : List Entry) → StandsFor rights.now history
        → result ≡ next_operator (is_operator history) (slice_set present.now user false) user }
{
    let mut others = *present;
    others[user as usize] = false;
    if rights.is_operator(user) && lowest_operator(rights, &others).is_none() {
        lowest_present(&others)
    } else {
        None
    }
}
