//! Reading what a line of a script of `join` asks for.

ghost use Rattle.std.specs.Prelude.{[], ◌∷◌, IfOk, IfSome, IfNone};
ghost use Rattle.dp_schedule.specs.declared.join_action.JoinAction.{JoinAction as Asked};
ghost use Rattle.dp_schedule.specs.JoinGrammar.{Asks, WordsAsk};

use crate::join_action::JoinAction;
use crate::parser::{message_of, reset_of, word_of};
use dp_lines::number;
use std::alloc::{AllocError, Global};

/// What the line of a script of `join` asks for; `None` if it asks for nothing.
///
/// The rule: docs/protocol.md, "Joining".
pub fn read_join_action(alloc: Global, line: &[u8]) -> Result<Option<JoinAction>, AllocError>
    ensures some { IfOk result (λ found. IfSome found (Asks line.now)) }
    ensures none { IfOk result (λ found. IfNone found
        ((action : Asked) → ¬ Asks line.now action)) }
{
    let Some(first) = word_of(line, 0) else {
        return Ok(None);
    };
    let Some(second) = word_of(line, 1) else {
        return Ok(read_one(first));
    };
    if word_of(line, 2).is_some() {
        return Ok(None);
    }
    read_pair(alloc, first, second)
}

/// What a word alone asks for.
fn read_one(word: &[u8]) -> Option<JoinAction>
    ensures some { IfSome result (WordsAsk (word.now ∷ [])) }
    ensures none { IfNone result ((action : Asked) → ¬ WordsAsk (word.now ∷ []) action) }
{
    if let Some(keeps) = reset_of(word) {
        return Some(JoinAction::Reset { keeps });
    }
    if word == b"view".as_slice() {
        Some(JoinAction::View)
    } else if word == b"conf".as_slice() {
        Some(JoinAction::Confirmed)
    } else if word == b"snap".as_slice() {
        Some(JoinAction::Snapshot)
    } else if word == b"chat".as_slice() {
        Some(JoinAction::Chat)
    } else {
        None
    }
}

/// What two words ask for.
fn read_pair(alloc: Global, first: &[u8], second: &[u8]) -> Result<Option<JoinAction>, AllocError>
    ensures some { IfOk result (λ found. IfSome found
        (WordsAsk (first.now ∷ second.now ∷ []))) }
    ensures none { IfOk result (λ found. IfNone found
        ((action : Asked) → ¬ WordsAsk (first.now ∷ second.now ∷ []) action)) }
{
    if first == b"take".as_slice() {
        return Ok(number(second).map(|count| JoinAction::Take { count }));
    }
    if first != b"say".as_slice() {
        return Ok(None);
    }
    match message_of(alloc, second)? {
        Some(msg) => Ok(Some(JoinAction::Say(msg))),
        None => Ok(None),
    }
}
