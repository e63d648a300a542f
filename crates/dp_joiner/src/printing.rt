//! Lines that are printed.

ghost use Rattle.std.specs.Prelude.{◌≡◌, IfErr, IfOk, OnOk};
ghost use Rattle.std.specs.Io.KnownBytes.{Appends};
ghost use Rattle.dp_io.specs.Streams.{GrowsByPrefix};
ghost use Rattle.dp_schedule.specs.ReportText.{text_of};
ghost use Rattle.dp_joiner.specs.Joining.{chats_text, sent_text};
ghost use Rattle.dp_joiner.specs.Steps.{FaultMatchesPrinting};

use crate::chats::{ChatLine, chats_text};
use circular_buffer::HeapCircularBuffer;
use dp_io::{Failed, Sink, put_all};
use dp_join_link::JoinStop;
use dp_schedule::ReportLine;
use itoa::Buffer;
use std::alloc::{AllocError, Global};

/// Prints the bytes.
fn put_output<O: Sink>(bytes: &[u8], output: &mut O) -> Result<(), JoinStop>
    ensures written { OnOk result (Appends (O.held output.old) (O.held output.new) bytes.now) }
    ensures prefix { GrowsByPrefix (O.held output.old) (O.held output.new) bytes.now }
    ensures kept { OnOk result (O.faults output.new ≡ O.faults output.old) }
    ensures fault { IfErr result
        (FaultMatchesPrinting (O.faults output.old) (O.faults output.new)) }
{
    match put_all(output, bytes) {
        Ok(()) => Ok(()),
        Err(Failed) => Err(JoinStop::WriteFault),
    }
}

/// Prints a line of a report.
pub(crate) fn print_line<O: Sink>(
    alloc: Global,
    line: ReportLine,
    output: &mut O,
) -> Result<(), JoinStop>
    ensures written { OnOk result
        (Appends (O.held output.old) (O.held output.new) (text_of line)) }
    ensures prefix { GrowsByPrefix (O.held output.old) (O.held output.new) (text_of line) }
    ensures kept { OnOk result (O.faults output.new ≡ O.faults output.old) }
    ensures fault { IfErr result
        (FaultMatchesPrinting (O.faults output.old) (O.faults output.new)) }
{
    let text = line.text(alloc)?;
    put_output(&text, output)
}

/// Prints how many messages a reset has.
pub(crate) fn print_sent<O: Sink>(
    alloc: Global,
    count: usize,
    output: &mut O,
) -> Result<(), JoinStop>
    ensures written { OnOk result
        (Appends (O.held output.old) (O.held output.new) (sent_text count)) }
    ensures prefix { GrowsByPrefix (O.held output.old) (O.held output.new) (sent_text count) }
    ensures kept { OnOk result (O.faults output.new ≡ O.faults output.old) }
    ensures fault { IfErr result
        (FaultMatchesPrinting (O.faults output.old) (O.faults output.new)) }
{
    let text = sent_text(alloc, count)?;
    put_output(&text, output)
}

/// The line of how many messages a reset has.
fn sent_text(alloc: Global, count: usize) -> Result<Vec<u8>, AllocError>
    ensures { IfOk result (λ text. text.items ≡ sent_text count) }
{
    let mut digits = Buffer::new();
    let mut text = Vec::from_slice(alloc, b"sent ")?;
    text.extend_from_slice(digits.format(count).as_bytes())?;
    text.extend_from_slice(b"\n")?;
    Ok(text)
}

/// Prints the lines of chat that are kept.
pub(crate) fn print_chats<O: Sink>(
    alloc: Global,
    chats: &HeapCircularBuffer<ChatLine>,
    output: &mut O,
) -> Result<(), JoinStop>
    ensures written { OnOk result
        (Appends (O.held output.old) (O.held output.new) (chats_text chats.now.items)) }
    ensures prefix { GrowsByPrefix (O.held output.old) (O.held output.new)
        (chats_text chats.now.items) }
    ensures kept { OnOk result (O.faults output.new ≡ O.faults output.old) }
    ensures fault { IfErr result
        (FaultMatchesPrinting (O.faults output.old) (O.faults output.new)) }
{
    let text = chats_text(alloc, chats)?;
    put_output(&text, output)
}
