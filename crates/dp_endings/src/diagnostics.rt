//! The lines that are said on diag.

ghost use Rattle.std.specs.Prelude.{◌≡◌, ◌≤◌, ◌++◌, ◌∷◌, [], length, decimal, OnOk};
ghost use Rattle.std.specs.Io.KnownBytes.{Appends};
ghost use Rattle.dp_io.specs.Faults.{HasCause, any_fault};
ghost use Rattle.dp_io.specs.Streams.{GrowsByPrefix};
ghost use Rattle.dp_endings.specs.Answer.{line_of, SaysLine};
ghost use Rattle.dp_endings.specs.Endings.{bad_row_line, code_of, ending_line};
ghost use Rattle.dp_lines.specs.Hexadecimal.{hex_text};

use crate::ending::Ending;
use crate::status::status_of;
use arrayvec::ArrayString;
use dp_io::{Failed, Sink, put_all};
use dp_lines::RunEnd;
use hex::encode_to_slice;
use itoa::Buffer;

/// Says how the program ended, and answers its status: 4 if diag fails.
pub fn say<E: Sink>(diag: &mut E, ending: &Ending) -> u8
    ensures says { SaysLine (code_of ending.now) (ending_line ending.now)
        (E.held diag.old) (E.held diag.new) (E.faults diag.old) (E.faults diag.new) result }
    ensures later { E.faults diag.old ≤ E.faults diag.new }
{
    match put_ending(diag, ending) {
        Ok(()) => code_of(ending),
        Err(Failed) => status_of(RunEnd::WriteFault),
    }
}

/// The program's status if it ends with this.
fn code_of(ending: &Ending) -> u8
    ensures { result ≡ code_of ending.now }
{
    match ending {
        Ending::Usage => 1,
        Ending::NoLink => 13,
        Ending::NoWords => status_of(RunEnd::Memory),
        Ending::Run(end) => status_of(*end),
        Ending::StoreFault => 6,
        Ending::BadRow { .. } => 14,
    }
}

fn put_ending<E: Sink>(diag: &mut E, ending: &Ending) -> Result<(), Failed>
    ensures line { OnOk result
        (Appends (E.held diag.old) (E.held diag.new) (ending_line ending.now)) }
    ensures prefix { GrowsByPrefix (E.held diag.old) (E.held diag.new) (ending_line ending.now) }
    ensures cause { HasCause any_fault (E.faults diag.old) (E.faults diag.new) result }
{
    match ending {
        Ending::Usage => put_all(
            diag,
            b"usage: drawpile replay, world, play, join, serve or drill\n",
        ),
        Ending::NoLink => put_all(diag, b"no link\n"),
        Ending::NoWords => put_line(diag, RunEnd::Memory),
        Ending::Run(end) => put_line(diag, *end),
        Ending::StoreFault => put_all(diag, b"store fault\n"),
        Ending::BadRow { n, row } => put_bad_row(diag, *n, row.bytes.as_slice()),
    }
}

fn put_bad_row<E: Sink>(diag: &mut E, n: u64, bytes: &[u8]) -> Result<(), Failed>
    ensures line { OnOk result
        (Appends (E.held diag.old) (E.held diag.new) (bad_row_line n bytes.now)) }
    ensures prefix { GrowsByPrefix (E.held diag.old) (E.held diag.new)
        (bad_row_line n bytes.now) }
    ensures cause { HasCause any_fault (E.faults diag.old) (E.faults diag.new) result }
{
    put_place(diag, "bad row ", n, " ")?;
    put_digits(diag, bytes)?;
    put_all(diag, b"\n")
}

/// Puts bytes as hexadecimal digits. It takes no memory.
fn put_digits<E: Sink>(diag: &mut E, bytes: &[u8]) -> Result<(), Failed>
    ensures line { OnOk result (Appends (E.held diag.old) (E.held diag.new) (hex_text bytes.now)) }
    ensures prefix { GrowsByPrefix (E.held diag.old) (E.held diag.new) (hex_text bytes.now) }
    ensures cause { HasCause any_fault (E.faults diag.old) (E.faults diag.new) result }
{
    for byte in bytes {
        put_all(diag, &digits_of(*byte))?;
    }
    Ok(())
}

/// The two digits of a byte.
fn digits_of(byte: u8) -> [u8; 2]
    ensures { result ≡ hex_text (byte ∷ []) }
{
    let mut digits = [0; 2];
    // There is room for two digits.
    let _ = encode_to_slice([byte], &mut digits);
    digits
}

fn put_line<E: Sink>(diag: &mut E, end: RunEnd) -> Result<(), Failed>
    ensures line { OnOk result (Appends (E.held diag.old) (E.held diag.new) (line_of end)) }
    ensures prefix { GrowsByPrefix (E.held diag.old) (E.held diag.new) (line_of end) }
    ensures cause { HasCause any_fault (E.faults diag.old) (E.faults diag.new) result }
{
    match end {
        RunEnd::Done => Ok(()),
        RunEnd::BadLine(number) => put_place(diag, "bad line ", u64::from(number), "\n"),
        RunEnd::ReadFault => put_all(diag, b"read fault\n"),
        RunEnd::WriteFault => put_all(diag, b"write fault\n"),
        RunEnd::LinkFault => put_all(diag, b"link fault\n"),
        RunEnd::Memory => put_all(diag, b"out of memory\n"),
        RunEnd::Long => put_all(diag, b"input too long\n"),
        RunEnd::Truncated(at) => put_place(diag, "truncated at ", at, "\n"),
        RunEnd::BadMessage(at) => put_place(diag, "bad message at ", at, "\n"),
        RunEnd::Closed => put_all(diag, b"link closed\n"),
        RunEnd::BadHeader => put_all(diag, b"bad header\n"),
    }
}

/// Puts the words, and then the place in decimal, and what is after it.
fn put_place<E: Sink>(diag: &mut E, words: &str, at: u64, after: &str) -> Result<(), Failed>
    requires { (length words.now ≤ 32) × (length after.now ≤ 32) }
    ensures line { OnOk result
        (Appends (E.held diag.old) (E.held diag.new) (words.now ++ decimal at ++ after.now)) }
    ensures prefix { GrowsByPrefix (E.held diag.old) (E.held diag.new)
        (words.now ++ decimal at ++ after.now) }
    ensures cause { HasCause any_fault (E.faults diag.old) (E.faults diag.new) result }
{
    put_all(diag, place_line(words, at, after).as_bytes())
}

/// The words, and then the place in decimal, and what is after it.
fn place_line(words: &str, at: u64, after: &str) -> ArrayString<96>
    requires { (length words.now ≤ 32) × (length after.now ≤ 32) }
    ensures { result.bytes ≡ words.now ++ decimal at ++ after.now }
{
    let mut digits = Buffer::new();
    let mut line = ArrayString::new();
    line.push_str(words);
    line.push_str(digits.format(at));
    line.push_str(after);
    line
}
