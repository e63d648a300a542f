//! Reading what a line asks for.

ghost use Rattle.std.specs.Prelude.{◌≡◌, ◌≢◌, [], ◌∷◌, slice_get, Bool, IfOk, IfSome, IfNone};
ghost use Rattle.std.specs.Option.{option_copied};
ghost use Rattle.dp_lines.specs.Lines.{words};
ghost use Rattle.dp_messages.specs.Messages.{Spells};
ghost use Rattle.dp_messages.specs.declared.message.Msg.{Msg as Message};
ghost use Rattle.dp_schedule.specs.declared.action.Action.{Action as Asked};
ghost use Rattle.dp_schedule.specs.declared.action.Instruction.{Instruction as Done};
ghost use Rattle.dp_schedule.specs.declared.action.CanvasKind.{CanvasKind as Canvas};
ghost use Rattle.dp_schedule.specs.LineGrammar.{Parses, WordsParse, EndsIn, MaySay, HexSpells};
ghost use Rattle.dp_schedule.specs.LineGrammar.{instruction_word, join_word, canvas_word};
ghost use Rattle.dp_schedule.specs.LineGrammar.{reset_word};

use crate::action::{Action, CanvasKind, Instruction};
use dp_frame::Octets;
use dp_lines::{hex_of, number};
use dp_messages::{DecodeError, Msg, read_message};
use std::alloc::{AllocError, Global};

/// The byte that separates two words.
const SPACE: u8 = b' ';

/// The least kind of a message that may be said.
const LEAST_KIND: u8 = 32;

/// What the line asks for; `None` if it asks for nothing.
///
/// The rule: docs/protocol.md, "The world".
pub fn read_action(alloc: Global, line: &[u8]) -> Result<Option<Action>, AllocError>
    ensures some { IfOk result (λ found. IfSome found (Parses line.now)) }
    ensures none { IfOk result (λ found. IfNone found
        ((action : Asked) → ¬ Parses line.now action)) }
{
    let Some(first) = word_of(line, 0) else {
        return Ok(None);
    };
    let Some(second) = word_of(line, 1) else {
        return Ok(None);
    };
    let Some(third) = word_of(line, 2) else {
        return read_two(alloc, first, second);
    };
    if word_of(line, 3).is_some() {
        return Ok(None);
    }
    read_three(alloc, first, second, third)
}

/// The word of the line at index `k`; `None` if it has no more than `k` words.
pub(crate) fn word_of(line: &[u8], k: usize) -> Option<&[u8]>
    ensures { option_copied result ≡ slice_get (words line.now) k }
{
    line.split(|byte| *byte == SPACE).nth(k)
}

/// What two words ask for.
fn read_two(alloc: Global, first: &[u8], second: &[u8]) -> Result<Option<Action>, AllocError>
    ensures some { IfOk result (λ found. IfSome found
        (WordsParse (first.now ∷ second.now ∷ []))) }
    ensures none { IfOk result (λ found. IfNone found
        ((action : Asked) → ¬ WordsParse (first.now ∷ second.now ∷ []) action)) }
{
    if let Some(registered) = join_of(first) {
        let name = Octets::from_vec(Vec::from_slice(alloc, second)?);
        return Ok(Some(Action::Join { name, registered }));
    }
    let Some(client) = number(second) else {
        return Ok(None);
    };
    if let Some(kind) = canvas_kind_of(first) {
        return Ok(Some(Action::Show { client, kind }));
    }
    Ok(instruction_of(first).map(|instruction| Action::Act {
        client,
        instruction,
    }))
}

/// What three words ask for.
fn read_three(
    alloc: Global,
    first: &[u8],
    second: &[u8],
    third: &[u8],
) -> Result<Option<Action>, AllocError>
    ensures some { IfOk result (λ found. IfSome found
        (WordsParse (first.now ∷ second.now ∷ third.now ∷ []))) }
    ensures none { IfOk result (λ found. IfNone found
        ((action : Asked) → ¬ WordsParse (first.now ∷ second.now ∷ third.now ∷ []) action)) }
{
    if first != b"say".as_slice() {
        return Ok(None);
    }
    let Some(client) = number(second) else {
        return Ok(None);
    };
    let Some(msg) = message_of(alloc, third)? else {
        return Ok(None);
    };
    let instruction = Instruction::Say(msg);
    Ok(Some(Action::Act {
        client,
        instruction,
    }))
}

/// Whether the user who asks to join by this word is registered.
fn join_of(word: &[u8]) -> Option<bool>
    ensures some { IfSome result (λ registered. word.now ≡ join_word registered) }
    ensures none { IfNone result ((registered : Bool) → word.now ≢ join_word registered) }
{
    if word == b"join".as_slice() {
        Some(false)
    } else if word == b"member".as_slice() {
        Some(true)
    } else {
        None
    }
}

/// What of a client is printed by this word.
fn canvas_kind_of(word: &[u8]) -> Option<CanvasKind>
    ensures some { IfSome result (λ kind. word.now ≡ canvas_word kind) }
    ensures none { IfNone result ((kind : Canvas) → word.now ≢ canvas_word kind) }
{
    if word == b"view".as_slice() {
        Some(CanvasKind::View)
    } else if word == b"conf".as_slice() {
        Some(CanvasKind::Confirmed)
    } else if word == b"snap".as_slice() {
        Some(CanvasKind::Snapshot)
    } else if word == b"rec".as_slice() {
        Some(CanvasKind::Recording)
    } else {
        None
    }
}

/// Whether the reset that this word asks for keeps what comes after what was taken.
pub(crate) fn reset_of(word: &[u8]) -> Option<bool>
    ensures some { IfSome result (λ keeps. word.now ≡ reset_word keeps) }
    ensures none { IfNone result ((keeps : Bool) → word.now ≢ reset_word keeps) }
{
    if word == b"reset".as_slice() {
        Some(false)
    } else if word == b"keep".as_slice() {
        Some(true)
    } else {
        None
    }
}

/// The instruction that this word names, with no word after the client's number.
fn instruction_of(word: &[u8]) -> Option<Instruction>
    ensures some { IfSome result (λ instruction. (word.now ≡ instruction_word instruction)
        × EndsIn instruction []) }
    ensures none { IfNone result ((instruction : Done) → EndsIn instruction []
        → word.now ≢ instruction_word instruction) }
{
    if let Some(keeps) = reset_of(word) {
        return Some(Instruction::Reset { keeps });
    }
    if word == b"up".as_slice() {
        Some(Instruction::Up)
    } else if word == b"take".as_slice() {
        Some(Instruction::Take)
    } else if word == b"leave".as_slice() {
        Some(Instruction::Leave)
    } else if word == b"cut".as_slice() {
        Some(Instruction::Cut)
    } else {
        None
    }
}

/// The message that the digits spell.
pub(crate) fn message_of(alloc: Global, digits: &[u8]) -> Result<Option<Msg>, AllocError>
    ensures some { IfOk result (λ found. IfSome found (HexSpells digits.now)) }
    ensures none { IfOk result (λ found. IfNone found ((m : Message) → ¬ HexSpells digits.now m)) }
{
    let Some(bytes) = hex_of(alloc, digits)? else {
        return Ok(None);
    };
    said_of(alloc, bytes.as_slice())
}

/// The message that may be said by these bytes.
fn said_of(alloc: Global, bytes: &[u8]) -> Result<Option<Msg>, AllocError>
    ensures some { IfOk result (λ found. IfSome found (MaySay bytes.now)) }
    ensures none { IfOk result (λ found. IfNone found ((m : Message) → ¬ MaySay bytes.now m)) }
{
    match bytes {
        [kind, payload @ ..] if *kind >= LEAST_KIND => spelled(alloc, *kind, payload),
        _ => Ok(None),
    }
}

/// The message that the payload of this kind spells.
fn spelled(alloc: Global, kind: u8, payload: &[u8]) -> Result<Option<Msg>, AllocError>
    ensures some { IfOk result (λ found. IfSome found (Spells kind payload.now)) }
    ensures none { IfOk result (λ found. IfNone found
        ((m : Message) → ¬ Spells kind payload.now m)) }
{
    match read_message(alloc, kind, payload) {
        Ok(msg) => Ok(Some(msg)),
        Err(DecodeError::Memory) => Err(AllocError),
        Err(_) => Ok(None),
    }
}
