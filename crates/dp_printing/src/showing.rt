//! Writing what is shown of a client.

ghost use Rattle.std.specs.Prelude.{◌≡◌, IsErrOf, OnOk};
ghost use Rattle.std.specs.Io.KnownBytes.{Appends};
ghost use Rattle.dp_io.specs.Faults.{HasCause};
ghost use Rattle.dp_io.specs.Streams.{GrowsByPrefix};
ghost use Rattle.dp_shown.specs.Ends.{is_sink_fault};
ghost use Rattle.dp_showing.specs.Showing.{shown_text};

use crate::recording::write_recording;
use crate::snapshot::write_snapshot;
use dp_client::Client;
use dp_io::Sink;
use dp_showing::{Shown, clients_show};
use dp_shown::{ClientBoard, PictureEnd};
use std::alloc::Global;

/// Writes what is shown of a client, which draws nothing. A snapshot and a recording are written a
/// frame at a time.
///
/// # Errors
///
/// `Memory` if memory ran out, and `Failed` if the sink failed. A prefix of the text was
/// written then.
///
/// The rule: docs/protocol.md, "Showing a client".
pub fn show<B: ClientBoard, O: Sink>(
    alloc: Global,
    client: &Client<B>,
    shown: Shown,
    output: &mut O,
) -> Result<(), PictureEnd>
    ensures written { OnOk result
        (Appends (O.held output.old) (O.held output.new) (shown_text shown client.now)) }
    ensures prefix { GrowsByPrefix (O.held output.old) (O.held output.new)
        (shown_text shown client.now) }
    ensures uncounted { IsErrOf result PictureEnd.Memory
        → O.faults output.new ≡ O.faults output.old }
    ensures cause { HasCause is_sink_fault (O.faults output.old) (O.faults output.new) result }
{
    clients_show::<B>();
    match shown {
        Shown::View => client.view().write_picture(alloc, output),
        Shown::Confirmed => client.confirmed().write_picture(alloc, output),
        Shown::Snapshot => write_snapshot(alloc, client.confirmed(), output),
        Shown::Recording => write_recording(alloc, client.taken(), output),
    }
}
