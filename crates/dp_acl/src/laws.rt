//! Laws of rights, each the contract of a function that does nothing.

ghost use Rattle.std.specs.Prelude.{◌≡◌, ℕ, Option, List, []};
ghost use Rattle.std.specs.List.{filter};
ghost use Rattle.dp_messages.specs.declared.message.Entry.{Entry};
ghost use Rattle.dp_acl.specs.LookBack.{is_join_of};
ghost use Rattle.dp_acl.specs.Opening.{GoOver, kept_entries};
ghost use Rattle.dp_acl.specs.Laws.{ForbiddenChangesNoRight, OperatorsStay, SpelledIdsAreInOrder};
ghost use Rattle.dp_acl.specs.Laws.{CommandsChangeNoRight, KeptChangeNoRight};
ghost use Rattle.dp_acl.specs.Laws.{OpeningsChangeNoRight};

/// A message that was filtered out changes no right: what is permitted is the same with the entry
/// that stands in its place and without it.
pub fn forbidden_changes_no_right()
    ensures { ForbiddenChangesNoRight }
{}

/// The ids of a message that has a spelling stand in order, each once.
pub fn spelled_ids_are_in_order()
    ensures { SpelledIdsAreInOrder }
{}

/// An entry that names no operators and is no Join of the user leaves whether the user is an
/// operator.
pub fn operators_stay()
    ensures { OperatorsStay }
{}

/// Commands of a reset change no right: a table stands for a history with them as without.
pub fn commands_change_no_right()
    ensures { CommandsChangeNoRight }
{}

/// What a reset keeps of a history goes on, and no user joins by entries that do.
pub fn kept_go_on()
    ensures go_on { (place : Option ℕ) (history : List Entry)
        → GoOver (kept_entries place history) }
    ensures joins { (entries : List Entry) (user : ℕ) → GoOver entries
        → filter (is_join_of user) entries ≡ [] }
{}

/// Entries that go on into the next epoch change no right: a table stands for a history with them
/// as without.
pub fn kept_change_no_right()
    ensures { KeptChangeNoRight }
{}

/// The opening of an epoch changes no right of a present user.
pub fn openings_change_no_right()
    ensures { OpeningsChangeNoRight }
{}
