//! Lines of a text that comes in pieces.

ghost use Rattle.std.specs.Prelude.{◌≡◌, ◌≢◌, ℕ, ◌+◌, ◌-◌, ◌^◌, ◌<◌, ◌≤◌, ◌↔◌, ◌++◌};
ghost use Rattle.std.specs.Prelude.{◌==◌, [], false, length, take, position, true};
ghost use Rattle.std.specs.Prelude.{IsSome, IfSome, IfNone, IfOk, OnOk, OnErr};
ghost use Rattle.dp_lines.specs.Lines.{newline, Lacks, ended, open_rest, lines};
ghost use Rattle.dp_lines.specs.Lines.{is_comment, is_skipped, is_overlong};
ghost use Rattle.dp_lines.specs.Taken.{IsScanned, IsEnd};

use crate::{Line, LineBytes};
use bytes::BytesMut;
use std::alloc::{AllocError, Global};
use std::marker::Model;
use thiserror::Error;

/// How many bytes a line has at most, without its newline.
const LINE_LIMIT: usize = 131_100;

/// The byte that ends a line.
const NEWLINE: u8 = b'\n';

/// The byte that begins a comment.
const HASH: u8 = b'#';

/// Why no line is given.
#[derive(Clone, Copy, Debug, PartialEq, Eq, Error)]
pub enum LineError {
    /// The next line, which has this number, is too long.
    #[error("line {0} is too long")]
    Long(u32),
    /// Memory ran out.
    #[error("out of memory")]
    Memory,
}

/// A text that comes in pieces, given back as lines, in whatever pieces it came.
///
/// The rule: docs/protocol.md, "Lines".
#[derive(Drop, Debug)]
pub struct Lines {
    buffer: BytesMut,
    /// How many of the buffer's first bytes are known to be no newline.
    scanned: usize,
    count: u32,
    fed: u32,
}

impl Model for Lines {
    ghost use Rattle.dp_lines.specs.Held.{Held};
    ghost use Rattle.dp_lines.specs.Taken.{IsScanned};
    ghost use Rattle.std.specs.Prelude.{◌+◌, ◌-◌, ◌^◌, ◌<◌, ◌≤◌, length};

    ghost Value = { Held };

    ghost view = { λ l. record { count = l.count; bytes = l.buffer.items; fed = l.fed } };

    ghost invariant = { λ l. IsScanned l.buffer.items l.scanned
        × (l.count + length l.buffer.items ≤ l.fed)
        × (l.fed < 2 ^ 32 - 1) };
}

impl Lines {
    ghost use Rattle.dp_lines.specs.Held.{ended_from, lines_from, given, NextIsLong, IsInLimit};

    /// Holds no byte, and has taken no line.
    pub fn new(alloc: Global) -> Lines
        ensures { result ≡ record { count = 0; bytes = []; fed = 0 } }
    {
        Lines {
            buffer: BytesMut::new(alloc),
            scanned: 0,
            count: 0,
            fed: 0,
        }
    }

    /// Adds the bytes after those that are held. After an error nothing has changed.
    pub fn feed(&mut self, bytes: &[u8]) -> Result<(), AllocError>
        requires { self.old.fed + length bytes.now < 2 ^ 32 - 1 }
        ensures ok { OnOk result (self.new.bytes ≡ self.old.bytes ++ bytes.now) }
        ensures fed { OnOk result (self.new.fed ≡ self.old.fed + length bytes.now) }
        ensures count { self.new.count ≡ self.old.count }
        ensures err { OnErr result (self.new ≡ self.old) }
    {
        self.buffer.extend_from_slice(bytes)?;
        self.fed += bytes.len() as u32;
        Ok(())
    }

    /// Gives the next line that is held with its newline, if there is one. Lines that are passed
    /// over may be taken and counted whatever the answer; nothing else is lost.
    pub fn next_line(&mut self) -> Result<Option<Line>, LineError>
        // The lines to come are the one that is given, if one is, and then those that are left.
        ensures lines { ended_from self.old ≡ given result ++ ended_from self.new }
        ensures none { IfOk result (λ next. IfNone next (ended_from self.old ≡ [])) }

        // Too long is answered exactly if the next line, ended or not, is.
        ensures fits { IfOk result (λ next. IfSome next IsInLimit) }
        ensures long { (n : ℕ) → (result ≡ Err (LineError.Long n)) ↔ NextIsLong self.old n }
        ensures memory { result ≡ Err LineError.Memory → ended_from self.old ≢ [] }

        // Each line is counted once, and what stands after the last newline stays.
        ensures count { self.new.count + length (ended self.new.bytes)
            ≡ self.old.count + length (ended self.old.bytes) }
        ensures rest { open_rest self.new.bytes ≡ open_rest self.old.bytes }
        ensures fed { self.new.fed ≡ self.old.fed }
    {
        match self.pass_over() {
            Some(len) => self.take_ended(len),
            None => self.refuse_long_rest(),
        }
    }

    /// Gives the next line of what is held, if the last line needs no newline. Lines that are
    /// passed over may be taken and counted whatever the answer; nothing else is lost.
    pub fn finish(&mut self) -> Result<Option<Line>, LineError>
        // The lines to come are the one that is given, if one is, and then those that are left.
        ensures lines { lines_from self.old ≡ given result ++ lines_from self.new }
        ensures none { IfOk result (λ next. IfNone next (lines_from self.old ≡ [])) }

        // Too long is answered exactly if the next line is.
        ensures fits { IfOk result (λ next. IfSome next IsInLimit) }
        ensures long { (n : ℕ) → (result ≡ Err (LineError.Long n)) ↔ NextIsLong self.old n }
        ensures memory { result ≡ Err LineError.Memory → lines_from self.old ≢ [] }

        // Each line is counted once, and an error leaves what stands after the last newline.
        ensures count { self.new.count + length (lines self.new.bytes)
            ≡ self.old.count + length (lines self.old.bytes) }
        ensures rest { OnErr result (open_rest self.new.bytes ≡ open_rest self.old.bytes) }
        ensures fed { self.new.fed ≡ self.old.fed }
    {
        match self.pass_over() {
            Some(len) => self.take_ended(len),
            None => self.take_rest(),
        }
    }
}

impl Lines {
    ghost use Rattle.dp_lines.specs.Held.{ended_from, lines_from, given, NextIsLong, IsInLimit};
    ghost use Rattle.dp_lines.specs.Taken.{first_line, after_first, Keeps};

    /// Takes the lines off that are passed over, up to the first other one. It answers where that
    /// one's newline stands, and `None` if no further newline is held.
    fn pass_over(&mut self) -> Option<usize>
        ensures end { IfSome result (IsEnd self.new.bytes) }
        ensures first { IfSome result (λ len. is_skipped (take len self.new.bytes) ≡ false) }
        ensures none { IfNone result (Lacks newline self.new.bytes) }
        ensures keeps { Keeps self.old self.new }
    {
        'passed: while let Some(len) = self.first_end() {
            if !is_passed(&self.buffer.as_slice()[..len]) {
                return Some(len);
            }
            self.drop_line(len + 1);
        }
        None
    }

    /// Where the first newline stands that is held, if one is.
    fn first_end(&mut self) -> Option<usize>
        ensures end { IfSome result (IsEnd self.old.bytes) }
        ensures none { IfNone result (Lacks newline self.old.bytes) }
        ensures same { self.new ≡ self.old }
    {
        let found = newline_from(self.buffer.as_slice(), self.scanned);
        self.scanned = found.unwrap_or(self.buffer.len());
        found
    }

    /// Takes the first line off, which has its newline and isn't passed over, and gives it.
    fn take_ended(&mut self, len: usize) -> Result<Option<Line>, LineError>
        requires end { IsEnd self.old.bytes len }
        requires first { is_skipped (take len self.old.bytes) ≡ false }
        ensures lines { ended_from self.old ≡ given result ++ ended_from self.new }
        ensures some { IfOk result (λ next. IsSome next) }
        ensures fits { IfOk result (λ next. IfSome next IsInLimit) }
        ensures long { (n : ℕ) → (result ≡ Err (LineError.Long n)) ↔ NextIsLong self.old n }
        ensures memory { ended_from self.old ≢ [] }
        ensures count { self.new.count + length (ended self.new.bytes)
            ≡ self.old.count + length (ended self.old.bytes) }
        ensures rest { open_rest self.new.bytes ≡ open_rest self.old.bytes }
        ensures fed { self.new.fed ≡ self.old.fed }
    {
        self.take_line(len, 1)
    }

    /// Gives no line if only the rest is held, which has no newline. An error if it is too long
    /// already.
    fn refuse_long_rest(&self) -> Result<Option<Line>, LineError>
        requires { Lacks newline self.now.bytes }
        ensures none { IfOk result (λ next. next ≡ None) }
        ensures long { (n : ℕ) → (result ≡ Err (LineError.Long n)) ↔ NextIsLong self.now n }
        ensures memory { result ≢ Err LineError.Memory }
    {
        if is_long(self.buffer.as_slice()) {
            return Err(LineError::Long(self.count + 1));
        }
        Ok(None)
    }

    /// Takes what is held off as the last line, which has no newline.
    fn take_rest(&mut self) -> Result<Option<Line>, LineError>
        requires { Lacks newline self.old.bytes }
        ensures lines { lines_from self.old ≡ given result ++ lines_from self.new }
        ensures none { IfOk result (λ next. IfNone next (lines_from self.old ≡ [])) }
        ensures fits { IfOk result (λ next. IfSome next IsInLimit) }
        ensures long { (n : ℕ) → (result ≡ Err (LineError.Long n)) ↔ NextIsLong self.old n }
        ensures memory { result ≡ Err LineError.Memory → lines_from self.old ≢ [] }
        ensures count { self.new.count + length (lines self.new.bytes)
            ≡ self.old.count + length (lines self.old.bytes) }
        ensures rest { OnErr result (open_rest self.new.bytes ≡ open_rest self.old.bytes) }
        ensures fed { self.new.fed ≡ self.old.fed }
    {
        let len = self.buffer.len();
        if len == 0 {
            return Ok(None);
        }
        if is_passed(self.buffer.as_slice()) {
            self.drop_line(len);
            return Ok(None);
        }
        self.take_line(len, 0)
    }

    /// Takes a line of `len` bytes off, with `ending` bytes of its ending, and gives it.
    fn take_line(&mut self, len: usize, ending: usize) -> Result<Option<Line>, LineError>
        requires within { len + ending ≤ length self.old.bytes }
        requires some { 0 < len + ending }
        ensures line { IfOk result (λ next. next ≡ Some (first_line self.old len)) }
        ensures taken { OnOk result (self.new ≡ after_first self.old (len + ending)) }
        ensures fits { OnOk result (IsInLimit (first_line self.old len)) }
        ensures long { (n : ℕ) → (result ≡ Err (LineError.Long n))
            ↔ ((is_overlong (take len self.old.bytes) ≡ true) × (n ≡ self.old.count + 1)) }
        ensures err { OnErr result (self.new ≡ self.old) }
    {
        let number = self.count + 1;
        let held = &self.buffer.as_slice()[..len];
        if is_long(held) {
            return Err(LineError::Long(number));
        }
        let Ok(bytes) = Vec::from_slice(*self.buffer.allocator(), held) else {
            return Err(LineError::Memory);
        };
        self.drop_line(len + ending);
        let bytes = LineBytes::from_vec(bytes);
        Ok(Some(Line { number, bytes }))
    }

    /// Takes `taken` bytes off, and counts them as a line.
    fn drop_line(&mut self, taken: usize)
        requires taken { taken ≤ length self.old.bytes }
        requires some { 0 < taken }
        ensures { self.new ≡ after_first self.old taken }
    {
        self.buffer.advance(taken);
        self.scanned = 0;
        self.count += 1;
    }
}

/// Where the first newline of the bytes stands, of which those before `from` are none.
fn newline_from(bytes: &[u8], from: usize) -> Option<usize>
    requires { IsScanned bytes.now from }
    ensures end { IfSome result (IsEnd bytes.now) }
    ensures none { IfNone result (Lacks newline bytes.now) }
{
    match first_newline(&bytes[from..]) {
        Some(at) => Some(from + at),
        None => None,
    }
}

/// Where the first newline of the bytes stands.
fn first_newline(bytes: &[u8]) -> Option<usize>
    ensures { result ≡ position (λ byte. byte == newline) bytes.now }
{
    bytes.iter().position(|byte| *byte == NEWLINE)
}

/// Whether the line is a comment.
fn is_remark(line: &[u8]) -> bool
    ensures { result ≡ is_comment line.now }
{
    matches!(line, [HASH, ..])
}

/// Whether the line is passed over.
fn is_passed(line: &[u8]) -> bool
    ensures { result ≡ is_skipped line.now }
{
    line.is_empty() || is_remark(line)
}

/// Whether the line is too long, and no comment.
fn is_long(line: &[u8]) -> bool
    ensures { result ≡ is_overlong line.now }
{
    !is_remark(line) && line.len() > LINE_LIMIT
}
