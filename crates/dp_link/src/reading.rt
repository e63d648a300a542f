//! The messages that a link gives, one after the other.

ghost use Rattle.std.specs.Prelude.{◌≡◌, ◌≢◌, ◌+◌, ◌≤◌, ℕ, List, [], length, true};
ghost use Rattle.std.specs.declared.option.Option.{Option};
ghost use Rattle.dp_entries.specs.Anywhere.{StandsAnywhere};
ghost use Rattle.dp_entries.specs.Onward.{ReadOn};
ghost use Rattle.dp_entries.specs.Reader.{HoldsWithin};
ghost use Rattle.dp_io.specs.Limits.{stream_limit};
ghost use Rattle.dp_link.specs.Reading.{EndsGreeting, up_end_of};

use crate::{GreetEnd, UpEnd};
use dp_entries::{Anywhere, EntryReader, ReadEnd};
use dp_messages::DecodeError;
use dp_split::Splitter;
use std::alloc::Global;
use std::mem::replace;

/// How many bytes of a link count.
const LINK_LIMIT: u64 = 1 << 30;

/// A reader of a link that begins with what the splitter holds, which holds nothing then.
pub(crate) fn reader_of(alloc: Global, split: &mut Splitter) -> EntryReader<Anywhere>
    requires { split.old.at + length split.old.held ≤ stream_limit }
    ensures limit { result.limit ≡ stream_limit }
    ensures stream { result.stream ≡ split.old }
    ensures going { ¬ (result.ended ≡ true) }
    ensures within { HoldsWithin result }
    ensures begun { (link : Option (List ℕ)) → ReadOn StandsAnywhere link link split.old [] result }
{
    EntryReader::resume(replace(split, Splitter::new(alloc)), LINK_LIMIT)
}

/// How the messages of a link end if reading it ended with this.
pub(crate) fn up_end_of(end: &ReadEnd<DecodeError>) -> UpEnd
    ensures { result ≡ up_end_of end.now }
{
    match end {
        ReadEnd::ReadFault => UpEnd::ReadFault,
        ReadEnd::Truncated(_) => UpEnd::End,
        ReadEnd::BadMessage(_, at) => UpEnd::BadMessage { at: *at },
        ReadEnd::Long => UpEnd::Long,
        ReadEnd::Memory => UpEnd::Memory,
    }
}

/// Why nobody is greeted if reading the first message ended with this. Its frame is whole before
/// more bytes are read than count.
pub(crate) fn greet_end_of(end: &ReadEnd<DecodeError>) -> GreetEnd
    requires { end.now ≢ ReadEnd.Long }
    ensures { EndsGreeting end.now result }
{
    match end {
        ReadEnd::ReadFault => GreetEnd::ReadFault,
        ReadEnd::Truncated(_) => GreetEnd::End,
        ReadEnd::BadMessage(_, at) => GreetEnd::BadMessage { at: *at },
        ReadEnd::Long => unreachable!(),
        ReadEnd::Memory => GreetEnd::Memory,
    }
}
