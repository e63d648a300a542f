//! Reading a recording.

ghost use Rattle.std.specs.Prelude.{◌≡◌, ◌<◌, ◌≤◌, ℕ, List, [], length, IfOk, IfErr, OnOk};
ghost use Rattle.std.specs.Prelude.{Option, Some, true};
ghost use Rattle.dp_recording.specs.declared.reader.RecError.TheVariants.{Memory};
ghost use Rattle.dp_recording.specs.declared.reader.Phase.TheVariants.{New, Finished};
ghost use Rattle.dp_recording.specs.declared.reader.Phase.TheVariants.{Failed};
ghost use Rattle.dp_recording.specs.Headers.{IsHeader, IsShort};
ghost use Rattle.dp_recording.specs.Pulled.{AnswersAgain, BeginsReading, PullsNext, StopsEarly};
ghost use Rattle.dp_recording.specs.Recordings.{FaultMatchesError, EndsEarly, EndsWithInput};
ghost use Rattle.dp_recording.specs.Recordings.{GoesOn, HasReadAfter, HasReadOf, HoldsHeader};
ghost use Rattle.dp_recording.specs.Recordings.{IsReading, end_of, error_of, limit_of};
ghost use Rattle.dp_io.specs.Limits.{stream_limit};

use crate::header::{Header, HeaderError, Profile, read_header};
use dp_entries::{Anywhere, EntryReader, FirstProfile, ReadEnd, Standing};
use dp_io::{Failed as ReadFailed, Source};
use dp_lines::RunEnd;
use dp_lists::rest_of;
use dp_messages::{DecodeError, Entry};
use std::alloc::{AllocError, Global};
use std::marker::Model;
use thiserror::Error;

/// How many bytes of a recording count.
const LIMIT: u64 = 1 << 30;

/// Why a recording gives no further entry. Places are counted from the input's start.
#[derive(Clone, Copy, Debug, PartialEq, Eq, Error)]
pub enum RecError {
    /// It begins with no header.
    #[error("the recording has no header")]
    BadHeader,
    /// It ends inside the frame at this byte.
    #[error("the recording ends inside the frame at {at}")]
    Truncated { at: u64 },
    /// The frame at this byte carries no message.
    #[error("the frame at {at} carries no message: {why}")]
    Message { at: u64, why: DecodeError },
    #[error("the recording was not read")]
    ReadFault,
    /// It has more than 1 GiB.
    #[error("the recording is too long")]
    Long,
    #[error("out of memory")]
    Memory,
}

impl RecError {
    /// How a run ends for which reading its recording ended with this.
    pub fn run_end(&self) -> RunEnd
        ensures { result ≡ end_of self.now }
    {
        match self {
            RecError::BadHeader => RunEnd::BadHeader,
            RecError::Truncated { at } => RunEnd::Truncated(*at),
            RecError::Message { at, why: _ } => RunEnd::BadMessage(*at),
            RecError::ReadFault => RunEnd::ReadFault,
            RecError::Long => RunEnd::Long,
            RecError::Memory => RunEnd::Memory,
        }
    }
}

/// How far a reader is.
#[derive(Drop)]
pub enum Phase {
    /// It has read nothing.
    New,
    /// It reads the entries after the header of a recording of the first profile.
    Lifting(EntryReader<FirstProfile>),
    /// It reads those of a recording of today's.
    Reading(EntryReader<Anywhere>),
    /// It came to the end, after a whole frame.
    Finished,
    /// It ended with this error.
    Failed(RecError),
}

/// The entries of a recording, pulled one at a time of a source. Contracts see how far it is.
#[derive(Drop)]
pub struct RecordingReader {
    phase: Phase,
}

impl Model for RecordingReader {
    ghost use Rattle.dp_recording.specs.declared.reader.Phase.{Phase as Progress};

    ghost Value = { Progress };

    ghost view = { λ r. r.phase };
}

impl RecordingReader {
    /// A reader that has read nothing.
    pub fn new() -> RecordingReader
        ensures { result ≡ New }
    {
        RecordingReader { phase: Phase::New }
    }

    /// Gives the next entry; `None` at the end after a whole frame, and from then on. It reads
    /// pieces of at most 4096 bytes, and only if no whole frame is held.
    ///
    /// # Errors
    ///
    /// Each as `RecError` says. After an error it gives the same error again, and reads nothing.
    #[inline(always)]
    pub fn next<I: Source>(
        &mut self,
        alloc: Global,
        input: &mut I,
    ) -> Result<Option<Entry>, RecError>
        ensures pulled { PullsNext (I.left input.old) (I.left input.new) (I.faults input.old)
            (I.faults input.new) self.old self.new result }
        ensures again { AnswersAgain (I.left input.old) (I.left input.new) (I.faults input.old)
            (I.faults input.new) self.old result }
        ensures later { I.faults input.old ≤ I.faults input.new }
    {
        go_on(alloc, input, &mut self.phase)
    }
}

/// Gives the next entry of a reader that is so far.
#[inline(always)]
fn go_on<I: Source>(
    alloc: Global,
    input: &mut I,
    phase: &mut Phase,
) -> Result<Option<Entry>, RecError>
    ensures pulled { PullsNext (I.left input.old) (I.left input.new) (I.faults input.old)
        (I.faults input.new) phase.old phase.new result }
    ensures again { AnswersAgain (I.left input.old) (I.left input.new) (I.faults input.old)
        (I.faults input.new) phase.old result }
    ensures later { I.faults input.old ≤ I.faults input.new }
{
    match phase {
        Phase::New => match start(alloc, input, phase) {
            Ok(()) => pull(alloc, input, phase),
            Err(error) => Err(error),
        },
        Phase::Lifting(_) | Phase::Reading(_) => pull(alloc, input, phase),
        Phase::Finished => Ok(None),
        Phase::Failed(error) => Err(*error),
    }
}

/// Reads the header. (A `Phase` that is made where entries are pulled costs time at each of them.)
#[inline(never)]
fn start<I: Source>(alloc: Global, input: &mut I, phase: &mut Phase) -> Result<(), RecError>
    ensures begun { OnOk result (BeginsReading (I.left input.old) (I.left input.new)
        (I.faults input.old) (I.faults input.new) phase.new) }
    ensures ends { IfErr result (StopsEarly (I.left input.old) (I.left input.new)
        (I.faults input.old) (I.faults input.new)) }
    ensures failed { IfErr result (λ error. phase.new ≡ Failed error) }
    ensures later { I.faults input.old ≤ I.faults input.new }
{
    match open(alloc, input) {
        Ok(reading) => {
            *phase = reading;
            Ok(())
        }
        Err(error) => {
            *phase = Phase::Failed(error);
            Err(error)
        }
    }
}

/// Gives the next entry after the header.
#[inline(always)]
fn pull<I: Source>(
    alloc: Global,
    input: &mut I,
    phase: &mut Phase,
) -> Result<Option<Entry>, RecError>
    requires { IsReading phase.old }
    ensures pulled { PullsNext (I.left input.old) (I.left input.new) (I.faults input.old)
        (I.faults input.new) phase.old phase.new result }
    ensures later { I.faults input.old ≤ I.faults input.new }
{
    match phase {
        Phase::Lifting(reader) => match reader.next(alloc, input) {
            Ok(Some(entry)) => Ok(Some(entry)),
            Ok(None) => {
                finish(phase);
                Ok(None)
            }
            Err(end) => Err(fail(phase, end)),
        },
        Phase::Reading(reader) => match reader.next(alloc, input) {
            Ok(Some(entry)) => Ok(Some(entry)),
            Ok(None) => {
                finish(phase);
                Ok(None)
            }
            Err(end) => Err(fail(phase, end)),
        },
        _ => Ok(None),
    }
}

/// The recording came to its end.
#[inline(never)]
fn finish(phase: &mut Phase)
    ensures { phase.new ≡ Finished }
{
    *phase = Phase::Finished;
}

/// Notes that reading its entries ended with this.
#[inline(never)]
fn fail(phase: &mut Phase, end: ReadEnd<DecodeError>) -> RecError
    ensures value { result ≡ error_of end }
    ensures failed { phase.new ≡ Failed result }
{
    let error = error_of(end);
    *phase = Phase::Failed(error);
    error
}

/// Why a recording gives no entry if reading its entries ended with this.
fn error_of(end: ReadEnd<DecodeError>) -> RecError
    ensures { result ≡ error_of end }
{
    match end {
        ReadEnd::ReadFault => RecError::ReadFault,
        ReadEnd::Truncated(at) => RecError::Truncated { at },
        ReadEnd::BadMessage(why, at) => RecError::Message { at, why },
        ReadEnd::Long => RecError::Long,
        ReadEnd::Memory => RecError::Memory,
    }
}

/// Reads the header of an input. What comes after it is read by the profile that it tells.
fn open<I: Source>(alloc: Global, input: &mut I) -> Result<Phase, RecError>
    ensures begun { IfOk result (BeginsReading (I.left input.old) (I.left input.new)
        (I.faults input.old) (I.faults input.new)) }
    ensures ends { IfErr result (StopsEarly (I.left input.old) (I.left input.new)
        (I.faults input.old) (I.faults input.new)) }
    ensures later { I.faults input.old ≤ I.faults input.new }
{
    let mut held = Vec::new(alloc);
    'pieces: loop {
        match read_header(alloc, held.as_slice()) {
            Ok(header) => return begin(alloc, held.as_slice(), header),
            Err(HeaderError::Short) => read_piece(input, &mut held)?,
            Err(HeaderError::Bad) => return Err(RecError::BadHeader),
            Err(HeaderError::Memory) => return Err(RecError::Memory),
        }
    }
}

/// Reads a piece more of an input whose bytes so far are too few for a header.
fn read_piece<I: Source>(input: &mut I, held: &mut Vec<u8>) -> Result<(), RecError>
    requires { IsShort held.old.items }
    ensures read { OnOk result ((bytes : List ℕ)
        → HoldsHeader bytes (I.left input.old) held.old.items
        → HoldsHeader bytes (I.left input.new) held.new.items) }
    ensures more { OnOk result (length held.old.items < length held.new.items) }
    ensures inside { IfErr result (EndsWithInput (I.left input.new)) }
    ensures ends { IfErr result (λ error. (bytes : List ℕ)
        → HoldsHeader bytes (I.left input.old) held.old.items
        → EndsEarly bytes (I.left input.new) error) }
    ensures kept { OnOk result (I.faults input.new ≡ I.faults input.old) }
    ensures fault { IfErr result (FaultMatchesError (I.faults input.old) (I.faults input.new)) }
    ensures later { I.faults input.old ≤ I.faults input.new }
{
    let mut buffer = [0; 4096];
    let count = match input.read(&mut buffer) {
        Ok(count) => count,
        Err(ReadFailed) => return Err(RecError::ReadFault),
    };
    if count == 0 {
        return Err(RecError::BadHeader);
    }
    match held.extend_from_slice(&buffer[..count]) {
        Ok(()) => Ok(()),
        Err(AllocError) => Err(RecError::Memory),
    }
}

/// A reader that is past the header with which these bytes begin.
fn begin(alloc: Global, held: &[u8], header: Header) -> Result<Phase, RecError>
    requires header { IsHeader held.now header.profile header.len }
    requires few { header.len ≤ 65543 }
    ensures begun { IfOk result (λ reading. (bytes : List ℕ) (left : Option (List ℕ))
        → HoldsHeader bytes left held.now → HasReadOf bytes left [] reading) }
    ensures reading { IfOk result IsReading }
    ensures limit { IfOk result (λ reading. limit_of reading ≡ stream_limit) }
    ensures goes_on { IfOk result GoesOn }
    ensures memory { IfErr result (λ error. error ≡ Memory) }
{
    match header.profile {
        Profile::First => Ok(Phase::Lifting(reader_after(alloc, held, header)?)),
        Profile::Second => Ok(Phase::Reading(reader_after(alloc, held, header)?)),
    }
}

/// A reader of the frames after the header with which these bytes begin.
fn reader_after<S: Standing>(
    alloc: Global,
    held: &[u8],
    header: Header,
) -> Result<EntryReader<S>, RecError>
    requires header { IsHeader held.now header.profile header.len }
    requires few { header.len ≤ 65543 }
    ensures begun { IfOk result (λ reader. (bytes : List ℕ) (left : Option (List ℕ))
        → HoldsHeader bytes left held.now
        → HasReadAfter header.profile S.may_stand bytes left [] reader) }
    ensures limit { IfOk result (λ reader. reader.limit ≡ stream_limit) }
    ensures goes_on { IfOk result (λ reader. ¬ (reader.ended ≡ true)) }
    ensures memory { IfErr result (λ error. error ≡ Memory) }
{
    let mut reader = EntryReader::new(alloc, header.len as u64, LIMIT);
    match reader.push(rest_of(held, header.len)) {
        Ok(()) => Ok(reader),
        Err(AllocError) => Err(RecError::Memory),
    }
}
