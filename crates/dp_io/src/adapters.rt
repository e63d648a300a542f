//! Sources and sinks over std's readers and writers.
//!
//! std's `Read` and `Write` don't say when a call fails. So no clause here says that the device was
//! called before a fault is answered.

ghost use Rattle.std.specs.Prelude.{◌≡◌, OnErr};
ghost use Rattle.std.specs.Io.{ReadsAtMost, WritesAtMost};
ghost use Rattle.std.specs.Io.KnownBytes.{ReadConsumes, WriteAppends};
ghost use Rattle.dp_io.specs.Faults.{HasCause, any_fault, one_more};
ghost use Rattle.dp_io.specs.Streams.{EndsExactly, TakesSome};

use crate::{Failed, Sink, Source};
use std::io::{Read, Write};

/// A source over a reader. The bytes that are left are known if those of the reader are. Each
/// error of the reader is a fault, an interrupted read too.
#[derive(Drop)]
pub struct StdSource<R> {
    reader: R,
    faults: u64,
}

impl<R: Read + Drop> StdSource<R> {
    ghost use Rattle.dp_io.specs.Adapters.{reader_of, read_faults};

    /// A source over this reader, with no fault so far.
    pub fn new(reader: R) -> Self
        ensures reader { reader_of result ≡ reader }
        ensures faults { read_faults result ≡ 0 }
    {
        StdSource { reader, faults: 0 }
    }

    /// The reader, at the bytes that are left.
    pub fn into_inner(self) -> R
        ensures { result ≡ reader_of self }
    {
        self.reader
    }
}

impl<R: Read + Drop> Source for StdSource<R> {
    ghost use Rattle.dp_io.specs.Adapters.{reader_of, read_faults};

    ghost left = { λ s. R.remaining s.reader };

    ghost faults = { λ s. s.faults };

    #[tactic(auto, using(crate::proofs::ReadEnds::ends_exactly))]
    fn read(&mut self, buf: &mut [u8]) -> Result<usize, Failed>
        ensures bound { ReadsAtMost result buf.new }
        ensures bytes { ReadConsumes (R.remaining (reader_of self.old))
            (R.remaining (reader_of self.new)) result buf.new }
        ensures end { EndsExactly (R.remaining (reader_of self.old)) result buf.new }
        ensures cause { HasCause any_fault (read_faults self.old) (read_faults self.new) result }

        // Each error is counted once.
        ensures counted { OnErr result (read_faults self.new ≡ one_more (read_faults self.old)) }
    {
        match self.reader.read(buf) {
            Ok(count) => Ok(count),
            Err(_) => {
                self.faults = self.faults.saturating_add(1);
                Err(Failed)
            }
        }
    }
}

/// A sink over a writer. The bytes that it holds are known if those of the writer are. Each
/// error of the writer is a fault, an interrupted write too. It flushes nothing.
#[derive(Drop)]
pub struct StdSink<W> {
    writer: W,
    faults: u64,
}

impl<W: Write + Drop> StdSink<W> {
    ghost use Rattle.dp_io.specs.Adapters.{writer_of, write_faults};

    /// A sink over this writer, with no fault so far.
    pub fn new(writer: W) -> Self
        ensures writer { writer_of result ≡ writer }
        ensures faults { write_faults result ≡ 0 }
    {
        StdSink { writer, faults: 0 }
    }

    /// The writer, which may still have to be flushed.
    pub fn into_inner(self) -> W
        ensures { result ≡ writer_of self }
    {
        self.writer
    }
}

impl<W: Write + Drop> Sink for StdSink<W> {
    ghost use Rattle.dp_io.specs.Adapters.{writer_of, write_faults};

    ghost held = { λ s. W.contents s.writer };

    ghost faults = { λ s. s.faults };

    /// A writer that takes none of the bytes counts as one that fails.
    fn write(&mut self, bytes: &[u8]) -> Result<usize, Failed>
        ensures bound { WritesAtMost result bytes.now }
        ensures some { TakesSome result bytes.now }
        ensures bytes { WriteAppends (W.contents (writer_of self.old))
            (W.contents (writer_of self.new)) result bytes.now }
        ensures cause { HasCause any_fault (write_faults self.old) (write_faults self.new) result }

        // Each error is counted once.
        ensures counted { OnErr result (write_faults self.new ≡ one_more (write_faults self.old)) }
    {
        match self.writer.write(bytes) {
            Ok(count) if count > 0 || bytes.is_empty() => Ok(count),
            _ => {
                self.faults = self.faults.saturating_add(1);
                Err(Failed)
            }
        }
    }
}
