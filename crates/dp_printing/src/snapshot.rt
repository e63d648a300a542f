//! The text of a snapshot.

ghost use Rattle.std.specs.Prelude.{◌≡◌, IsErrOf, IfOk, OnOk};
ghost use Rattle.std.specs.List.{flat_map};
ghost use Rattle.std.specs.Io.KnownBytes.{Appends};
ghost use Rattle.dp_io.specs.Faults.{HasCause};
ghost use Rattle.dp_io.specs.Streams.{GrowsByPrefix};
ghost use Rattle.dp_shown.specs.Ends.{is_sink_fault};
ghost use Rattle.dp_showing.specs.Showing.{snapshot_head, snapshot_line, snapshot_text};

use crate::text::hex_frame;
use dp_io::{Sink, put_all};
use dp_messages::{Entry, Msg};
use dp_msg_draw::Draw;
use dp_plain::BoardView;
use dp_shown::PictureEnd;
use dp_snap::snapshot;
use itoa::Buffer;
use std::alloc::{AllocError, Global};

/// Writes the snapshot of a board, a line at a time.
pub(crate) fn write_snapshot<V: BoardView, O: Sink>(
    alloc: Global,
    board: &V,
    output: &mut O,
) -> Result<(), PictureEnd>
    ensures written { OnOk result (Appends (O.held output.old) (O.held output.new)
        (snapshot_text (V.board board.now))) }
    ensures prefix { GrowsByPrefix (O.held output.old) (O.held output.new)
        (snapshot_text (V.board board.now)) }
    ensures uncounted { IsErrOf result PictureEnd.Memory
        → O.faults output.new ≡ O.faults output.old }
    ensures cause { HasCause is_sink_fault (O.faults output.old) (O.faults output.new) result }
{
    let commands = snapshot(alloc, board)?;
    write_head(alloc, commands.as_slice().len(), output)?;
    write_lines(alloc, commands.as_slice(), output)
}

/// Writes the line that says how many commands there are.
fn write_head<O: Sink>(alloc: Global, count: usize, output: &mut O) -> Result<(), PictureEnd>
    ensures written { OnOk result
        (Appends (O.held output.old) (O.held output.new) (snapshot_head count)) }
    ensures prefix { GrowsByPrefix (O.held output.old) (O.held output.new) (snapshot_head count) }
    ensures uncounted { IsErrOf result PictureEnd.Memory
        → O.faults output.new ≡ O.faults output.old }
    ensures cause { HasCause is_sink_fault (O.faults output.old) (O.faults output.new) result }
{
    let mut digits = Buffer::new();
    let mut line = Vec::from_slice(alloc, b"snap ")?;
    line.extend_from_slice(digits.format(count).as_bytes())?;
    line.extend_from_slice(b"\n")?;
    put_all(output, &line)?;
    Ok(())
}

/// Writes a line for each command.
fn write_lines<O: Sink>(alloc: Global, commands: &[Draw], output: &mut O) -> Result<(), PictureEnd>
    ensures written { OnOk result (Appends (O.held output.old) (O.held output.new)
        (flat_map snapshot_line commands.now)) }
    ensures prefix { GrowsByPrefix (O.held output.old) (O.held output.new)
        (flat_map snapshot_line commands.now) }
    ensures uncounted { IsErrOf result PictureEnd.Memory
        → O.faults output.new ≡ O.faults output.old }
    ensures cause { HasCause is_sink_fault (O.faults output.old) (O.faults output.new) result }
{
    for command in commands {
        write_line(alloc, command, output)?;
    }
    Ok(())
}

/// Writes the line of a command.
fn write_line<O: Sink>(alloc: Global, command: &Draw, output: &mut O) -> Result<(), PictureEnd>
    ensures written { OnOk result (Appends (O.held output.old) (O.held output.new)
        (snapshot_line command.now)) }
    ensures prefix { GrowsByPrefix (O.held output.old) (O.held output.new)
        (snapshot_line command.now) }
    ensures uncounted { IsErrOf result PictureEnd.Memory
        → O.faults output.new ≡ O.faults output.old }
    ensures cause { HasCause is_sink_fault (O.faults output.old) (O.faults output.new) result }
{
    let line = line_of(alloc, command)?;
    put_all(output, &line)?;
    Ok(())
}

/// The line of a command.
fn line_of(alloc: Global, command: &Draw) -> Result<Vec<u8>, AllocError>
    ensures { IfOk result (λ line. line.items ≡ snapshot_line command.now) }
{
    let entry = Entry {
        user: 0,
        msg: Msg::Draw(command.copy()?),
    };
    let mut line = hex_frame(alloc, &entry)?;
    line.push(b'\n')?;
    Ok(line)
}
