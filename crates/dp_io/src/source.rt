//! Where bytes come from.

ghost use Rattle.std.specs.Prelude.{ℕ, List};
ghost use Rattle.std.specs.declared.option.Option.{Option};
ghost use Rattle.std.specs.Io.{ReadsAtMost};
ghost use Rattle.std.specs.Io.KnownBytes.{ReadConsumes};
ghost use Rattle.dp_io.specs.Faults.{HasCause, any_fault};
ghost use Rattle.dp_io.specs.Streams.{EndsExactly};

/// A fault of a source or a sink, which has counted it.
#[derive(Clone, Copy, Debug, PartialEq, Eq)]
pub struct Failed;

/// Where bytes come from: a device, or what stands for one.
pub trait Source {
    /// The bytes that are left, if they are known.
    ghost left: { Self → Option (List ℕ) };

    /// How often the source has failed.
    ghost faults: { Self → ℕ };

    /// Moves the first bytes that are left into the prefix of the buffer, and answers how many.
    ///
    /// With a buffer that isn't empty, `Ok(0)` comes exactly if nothing is left.
    ///
    /// # Errors
    ///
    /// `Failed` comes only if the count of faults rose in this call, and takes no byte. `Ok`
    /// leaves the count.
    fn read(&mut self, buf: &mut [u8]) -> Result<usize, Failed>
        ensures bound { ReadsAtMost result buf.new }
        ensures bytes { ReadConsumes (left self.old) (left self.new) result buf.new }
        ensures end { EndsExactly (left self.old) result buf.new }
        ensures cause { HasCause any_fault (faults self.old) (faults self.new) result };
}
