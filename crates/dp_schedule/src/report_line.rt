//! Lines of the report.

ghost use Rattle.std.specs.Prelude.{◌≡◌, ◌++◌, codes, decimal, IfOk, OnOk};
ghost use Rattle.dp_schedule.specs.ReportText.{place, placed_line, text_of};

use dp_lines::put_number;
use itoa::Buffer;
use std::alloc::{AllocError, Global};

/// What the report says of an action that shows no canvas.
#[derive(Clone, Copy)]
pub enum ReportLine {
    /// The user has joined as this client, and the Join stands there.
    Joined {
        client: u32,
        user: u8,
        epoch: u32,
        at: u32,
    },
    /// No id is free.
    Full,
    /// The name is none.
    NameRefused,
    /// The session can keep no such event any more.
    Ended,
    /// This many sends aren't answered.
    Said(usize),
    /// A reset of this many messages is on the uplink.
    Sent(usize),
    /// Nothing is on the uplink.
    Empty,
    /// The message was placed there.
    Placed {
        epoch: u32,
        at: u32,
    },
    /// The message was not permitted: a Filtered was placed there.
    Filtered {
        epoch: u32,
        at: u32,
    },
    /// The message meant nothing.
    Ignored,
    /// The message was taken, and nothing placed.
    Noted,
    /// The client has left, and its Leave stands there.
    Left {
        epoch: u32,
        at: u32,
    },
    /// A Disconnect is on the uplink.
    Leaving,
    /// The connection was cut, and its Leave stands there.
    Cut {
        epoch: u32,
        at: u32,
    },
    /// The entry there was taken.
    Took {
        epoch: u32,
        at: u32,
    },
    /// There is no further entry.
    Nothing,
    /// The client does such a thing no more.
    Gone,
}

impl ReportLine {
    /// The line of it, with its newline.
    ///
    /// The rule: docs/protocol.md, "The world".
    pub fn text(&self, alloc: Global) -> Result<Vec<u8>, AllocError>
        ensures { IfOk result (λ text. text.items ≡ text_of self.now) }
    {
        match self {
            ReportLine::Joined {
                client,
                user,
                epoch,
                at,
            } => line_of_join(alloc, *client, *user, *epoch, *at),
            ReportLine::Full => Vec::from_slice(alloc, b"full\n"),
            ReportLine::NameRefused => Vec::from_slice(alloc, b"name refused\n"),
            ReportLine::Ended => Vec::from_slice(alloc, b"ended\n"),
            ReportLine::Said(count) => line_of_count(alloc, b"said ", *count),
            ReportLine::Sent(count) => line_of_count(alloc, b"sent ", *count),
            ReportLine::Empty => Vec::from_slice(alloc, b"empty\n"),
            ReportLine::Placed { epoch, at } => line_of_place(alloc, b"placed", *epoch, *at),
            ReportLine::Filtered { epoch, at } => line_of_place(alloc, b"filtered", *epoch, *at),
            ReportLine::Ignored => Vec::from_slice(alloc, b"ignored\n"),
            ReportLine::Noted => Vec::from_slice(alloc, b"noted\n"),
            ReportLine::Left { epoch, at } => line_of_place(alloc, b"left", *epoch, *at),
            ReportLine::Leaving => Vec::from_slice(alloc, b"leaving\n"),
            ReportLine::Cut { epoch, at } => line_of_place(alloc, b"cut", *epoch, *at),
            ReportLine::Took { epoch, at } => line_of_place(alloc, b"took", *epoch, *at),
            ReportLine::Nothing => Vec::from_slice(alloc, b"nothing\n"),
            ReportLine::Gone => Vec::from_slice(alloc, b"gone\n"),
        }
    }
}

/// How many bytes a line mostly has at most.
const ROOM: usize = 32;

/// The beginning of a line, with room for what follows.
fn line_of(alloc: Global, word: &[u8]) -> Result<Vec<u8>, AllocError>
    ensures { IfOk result (λ line. line.items ≡ word.now) }
{
    let mut line = Vec::with_capacity(alloc, ROOM)?;
    line.extend_from_slice(word)?;
    Ok(line)
}

/// The line of a user who has joined.
fn line_of_join(
    alloc: Global,
    client: u32,
    user: u8,
    epoch: u32,
    at: u32,
) -> Result<Vec<u8>, AllocError>
    ensures { IfOk result (λ text. text.items ≡ text_of (ReportLine.Joined client user epoch at)) }
{
    let mut line = line_of(alloc, b"joined ")?;
    put_number(client, &mut line)?;
    line.extend_from_slice(b" user ")?;
    put_number(u32::from(user), &mut line)?;
    line.extend_from_slice(b" at")?;
    put_place(epoch, at, &mut line)?;
    Ok(line)
}

/// The line of a word, with its space, and a count.
fn line_of_count(alloc: Global, word: &[u8], count: usize) -> Result<Vec<u8>, AllocError>
    ensures { IfOk result (λ text. text.items ≡ word.now ++ decimal count ++ codes "\n") }
{
    let mut digits = Buffer::new();
    let mut line = line_of(alloc, word)?;
    line.extend_from_slice(digits.format(count).as_bytes())?;
    line.extend_from_slice(b"\n")?;
    Ok(line)
}

/// The line of a word and a place.
fn line_of_place(alloc: Global, word: &[u8], epoch: u32, at: u32) -> Result<Vec<u8>, AllocError>
    ensures { IfOk result (λ text. text.items ≡ placed_line word.now epoch at) }
{
    let mut line = line_of(alloc, word)?;
    put_place(epoch, at, &mut line)?;
    Ok(line)
}

/// Adds a space, a place and the newline at the end.
fn put_place(epoch: u32, at: u32, line: &mut Vec<u8>) -> Result<(), AllocError>
    ensures { OnOk result (line.new.items
        ≡ line.old.items ++ (codes " " ++ place epoch at ++ codes "\n")) }
{
    line.extend_from_slice(b" ")?;
    put_number(epoch, line)?;
    line.extend_from_slice(b":")?;
    put_number(at, line)?;
    line.extend_from_slice(b"\n")
}
