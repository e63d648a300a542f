//! Where bytes go to.

ghost use Rattle.std.specs.Prelude.{ℕ, List, OnOk};
ghost use Rattle.std.specs.declared.option.Option.{Option};
ghost use Rattle.std.specs.Io.{WritesAtMost};
ghost use Rattle.std.specs.Io.KnownBytes.{Appends, WriteAppends};
ghost use Rattle.dp_io.specs.Faults.{HasCause, any_fault};
ghost use Rattle.dp_io.specs.Streams.{TakesSome, GrowsByPrefix};

use crate::Failed;

/// Where bytes go to: a device, or what stands for one.
pub trait Sink {
    /// The bytes that it holds, if they are known.
    ghost held: { Self → Option (List ℕ) };

    /// How often the sink has failed.
    ghost faults: { Self → ℕ };

    /// Appends the first of the bytes, and answers how many: at least 1, if there is one.
    ///
    /// # Errors
    ///
    /// `Failed` comes only if the count of faults rose in this call, and appends nothing. `Ok`
    /// leaves the count.
    fn write(&mut self, bytes: &[u8]) -> Result<usize, Failed>
        ensures bound { WritesAtMost result bytes.now }
        ensures some { TakesSome result bytes.now }
        ensures bytes { WriteAppends (held self.old) (held self.new) result bytes.now }
        ensures cause { HasCause any_fault (faults self.old) (faults self.new) result };
}

/// Writes all the bytes, in as many calls as the sink takes. It takes no memory.
///
/// # Errors
///
/// `Failed` if a write failed, which is the last call: a prefix of the bytes was written.
#[tactic(auto, using(crate::proofs::WriteRuns::appends_more))]
pub fn put_all<S: Sink>(sink: &mut S, bytes: &[u8]) -> Result<(), Failed>
    ensures written { OnOk result (Appends (S.held sink.old) (S.held sink.new) bytes.now) }
    ensures prefix { GrowsByPrefix (S.held sink.old) (S.held sink.new) bytes.now }
    ensures cause { HasCause any_fault (S.faults sink.old) (S.faults sink.new) result }
{
    let mut at = 0;
    while at < bytes.len() {
        at += sink.write(&bytes[at..])?;
    }
    Ok(())
}
