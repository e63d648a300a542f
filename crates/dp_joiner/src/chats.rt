//! Lines of chat.

ghost use Rattle.std.specs.Prelude.{◌≡◌, ◌++◌, List, IfOk, OnOk, option_to_list};
ghost use Rattle.std.specs.List.{flat_map};
ghost use Rattle.circular_buffer.specs.Buffer.{buffer, keep_last};
ghost use Rattle.dp_joiner.specs.declared.chats.ChatLine.{ChatLine as Chat};
ghost use Rattle.dp_joiner.specs.Joining.{chat_by, chat_limit, chat_line, chats_text};

use circular_buffer::HeapCircularBuffer;
use dp_lines::{put_hex, put_number};
use dp_messages::{Entry, Msg};
use dp_msg_meta::{Meta, Text};
use itoa::Buffer;
use std::alloc::{AllocError, Global};

/// How many lines of chat are kept.
pub(crate) const CHAT_LIMIT: usize = 64;

/// What a user has said.
#[derive(Drop)]
pub struct ChatLine {
    pub user: u8,
    pub text: Text,
}

/// The line of chat of an entry, if it is one.
pub(crate) fn chat_of(entry: &Entry) -> Result<Option<ChatLine>, AllocError>
    ensures { IfOk result (λ line. option_to_list line ≡ chat_by entry.now.user entry.now.msg) }
{
    match &entry.msg {
        Msg::Meta(Meta::Chat { text }) => Ok(Some(ChatLine {
            user: entry.user,
            text: text.copy()?,
        })),
        _ => Ok(None),
    }
}

/// Keeps the line of chat of an entry, if it is one.
pub(crate) fn keep_chat(
    entry: &Entry,
    chats: &mut HeapCircularBuffer<ChatLine>,
) -> Result<(), AllocError>
    ensures { OnOk result ((lines : List Chat)
        → chats.old ≡ buffer (keep_last chat_limit lines) chat_limit
        → chats.new ≡ buffer
        (keep_last chat_limit (lines ++ chat_by entry.now.user entry.now.msg)) chat_limit) }
{
    if let Some(line) = chat_of(entry)? {
        drop(chats.push_back(line));
    }
    Ok(())
}

/// The text of the lines that are kept.
pub(crate) fn chats_text(
    alloc: Global,
    chats: &HeapCircularBuffer<ChatLine>,
) -> Result<Vec<u8>, AllocError>
    ensures { IfOk result (λ text. text.items ≡ chats_text chats.now.items) }
{
    let mut text = Vec::new(alloc);
    match put_chats(chats, &mut text) {
        Ok(()) => Ok(text),
        Err(error) => {
            drop(text);
            Err(error)
        }
    }
}

/// Adds the text of the lines that are kept at the end.
fn put_chats(chats: &HeapCircularBuffer<ChatLine>, text: &mut Vec<u8>) -> Result<(), AllocError>
    ensures { OnOk result (text.new.items ≡ text.old.items ++ chats_text chats.now.items) }
{
    let mut digits = Buffer::new();
    text.extend_from_slice(b"chats ")?;
    text.extend_from_slice(digits.format(chats.len()).as_bytes())?;
    text.extend_from_slice(b"\n")?;
    let (first, second) = chats.as_slices();
    put_lines(first, text)?;
    put_lines(second, text)
}

/// Adds the texts of the lines at the end.
fn put_lines(lines: &[ChatLine], text: &mut Vec<u8>) -> Result<(), AllocError>
    ensures { OnOk result (text.new.items ≡ text.old.items ++ flat_map chat_line lines.now) }
{
    for line in lines {
        put_line(line, text)?;
    }
    Ok(())
}

/// Adds the text of the line at the end.
fn put_line(line: &ChatLine, text: &mut Vec<u8>) -> Result<(), AllocError>
    ensures { OnOk result (text.new.items ≡ text.old.items ++ chat_line line.now) }
{
    text.extend_from_slice(b"chat ")?;
    put_number(u32::from(line.user), text)?;
    text.extend_from_slice(b" ")?;
    put_hex(line.text.as_slice(), text)?;
    text.extend_from_slice(b"\n")
}
