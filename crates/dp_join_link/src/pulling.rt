//! Entries of a link.

ghost use Rattle.std.specs.Prelude.{[], ◌∷◌, IfOk, IfErr};
ghost use Rattle.dp_join_link.specs.Reading.{GivesEntry, GivesNone, IsReadable, ReadsOn, source_at};

use crate::join_standing::{JoinStanding, is_ping};
use crate::stops::{JoinStop, LinkCause, stop_of};
use dp_entries::EntryReader;
use dp_io::Source;
use dp_messages::Entry;
use std::alloc::Global;

/// The next entry of the link, which is no Disconnect.
pub fn pull<R: Source>(
    alloc: Global,
    reader: &mut EntryReader<JoinStanding>,
    rx: &mut R,
) -> Result<Entry, JoinStop>
    requires { IsReadable (source_at R.left R.faults reader.old rx.old) }
    ensures ok { IfOk result (λ entry. ReadsOn (source_at R.left R.faults reader.old rx.old)
        (source_at R.left R.faults reader.new rx.new) (entry ∷ [])) }
    ensures err { IfErr result (GivesNone (source_at R.left R.faults reader.old rx.old)
        (source_at R.left R.faults reader.new rx.new)) }
{
    match reader.next(alloc, rx) {
        Ok(Some(entry)) => {
            if entry.msg.is_disconnect() {
                drop(entry);
                Err(JoinStop::NoEntry(LinkCause::Closed))
            } else {
                Ok(entry)
            }
        }
        Ok(None) => Err(JoinStop::NoEntry(LinkCause::Closed)),
        Err(end) => Err(stop_of(&end)),
    }
}

/// The next entry of the link that is no Ping.
pub fn pull_taken<R: Source>(
    alloc: Global,
    reader: &mut EntryReader<JoinStanding>,
    rx: &mut R,
) -> Result<Entry, JoinStop>
    requires { IsReadable (source_at R.left R.faults reader.old rx.old) }
    ensures ok { IfOk result (GivesEntry (source_at R.left R.faults reader.old rx.old)
        (source_at R.left R.faults reader.new rx.new)) }
    ensures err { IfErr result (GivesNone (source_at R.left R.faults reader.old rx.old)
        (source_at R.left R.faults reader.new rx.new)) }
{
    'pings: loop {
        let entry = pull(alloc, reader, rx)?;
        if !is_ping(&entry.msg) {
            return Ok(entry);
        }
        drop(entry);
    }
}
