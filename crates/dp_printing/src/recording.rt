//! The text of a recording.

ghost use Rattle.std.specs.Prelude.{◌≡◌, IsErrOf, IfOk, OnOk};
ghost use Rattle.std.specs.List.{flat_map};
ghost use Rattle.std.specs.Io.KnownBytes.{Appends};
ghost use Rattle.dp_io.specs.Faults.{HasCause};
ghost use Rattle.dp_io.specs.Streams.{GrowsByPrefix};
ghost use Rattle.dp_shown.specs.Ends.{is_sink_fault};
ghost use Rattle.dp_showing.specs.Showing.{hex_frame, recording_head, recording_text};

use crate::text::hex_frame;
use dp_io::{Sink, put_all};
use dp_lines::put_hex;
use dp_messages::Entry;
use dp_recording::put_header;
use dp_shown::PictureEnd;
use std::alloc::{AllocError, Global};

/// Writes the recording of the entries, a frame at a time.
pub(crate) fn write_recording<O: Sink>(
    alloc: Global,
    entries: &[Entry],
    output: &mut O,
) -> Result<(), PictureEnd>
    ensures written { OnOk result (Appends (O.held output.old) (O.held output.new)
        (recording_text entries.now)) }
    ensures prefix { GrowsByPrefix (O.held output.old) (O.held output.new)
        (recording_text entries.now) }
    ensures uncounted { IsErrOf result PictureEnd.Memory
        → O.faults output.new ≡ O.faults output.old }
    ensures cause { HasCause is_sink_fault (O.faults output.old) (O.faults output.new) result }
{
    write_head(alloc, output)?;
    write_frames(alloc, entries, output)?;
    put_all(output, b"\n")?;
    Ok(())
}

/// Writes the first word and the header.
fn write_head<O: Sink>(alloc: Global, output: &mut O) -> Result<(), PictureEnd>
    ensures written { OnOk result
        (Appends (O.held output.old) (O.held output.new) recording_head) }
    ensures prefix { GrowsByPrefix (O.held output.old) (O.held output.new) recording_head }
    ensures uncounted { IsErrOf result PictureEnd.Memory
        → O.faults output.new ≡ O.faults output.old }
    ensures cause { HasCause is_sink_fault (O.faults output.old) (O.faults output.new) result }
{
    let head = head_of(alloc)?;
    put_all(output, &head)?;
    Ok(())
}

/// The first word and the header.
fn head_of(alloc: Global) -> Result<Vec<u8>, AllocError>
    ensures { IfOk result (λ head. head.items ≡ recording_head) }
{
    let mut header = Vec::new(alloc);
    put_header(&mut header)?;
    let mut head = Vec::from_slice(alloc, b"rec ")?;
    put_hex(&header, &mut head)?;
    Ok(head)
}

/// Writes the frames of the entries.
fn write_frames<O: Sink>(alloc: Global, entries: &[Entry], output: &mut O) -> Result<(), PictureEnd>
    ensures written { OnOk result (Appends (O.held output.old) (O.held output.new)
        (flat_map hex_frame entries.now)) }
    ensures prefix { GrowsByPrefix (O.held output.old) (O.held output.new)
        (flat_map hex_frame entries.now) }
    ensures uncounted { IsErrOf result PictureEnd.Memory
        → O.faults output.new ≡ O.faults output.old }
    ensures cause { HasCause is_sink_fault (O.faults output.old) (O.faults output.new) result }
{
    for entry in entries {
        write_frame(alloc, entry, output)?;
    }
    Ok(())
}

/// Writes the frame of an entry.
fn write_frame<O: Sink>(alloc: Global, entry: &Entry, output: &mut O) -> Result<(), PictureEnd>
    ensures written { OnOk result (Appends (O.held output.old) (O.held output.new)
        (hex_frame entry.now)) }
    ensures prefix { GrowsByPrefix (O.held output.old) (O.held output.new)
        (hex_frame entry.now) }
    ensures uncounted { IsErrOf result PictureEnd.Memory
        → O.faults output.new ≡ O.faults output.old }
    ensures cause { HasCause is_sink_fault (O.faults output.old) (O.faults output.new) result }
{
    let text = hex_frame(alloc, entry)?;
    put_all(output, &text)?;
    Ok(())
}
