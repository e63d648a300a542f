//! How a run ends.

/// How a run ends.
#[derive(Clone, Copy, Debug, PartialEq, Eq)]
pub enum RunEnd {
    /// The input was read to its end, and all is written.
    Done,
    /// The input's line of this number is none that may stand there.
    BadLine(u32),
    /// The input failed.
    ReadFault,
    /// The output failed.
    WriteFault,
    /// The link failed.
    LinkFault,
    /// Memory ran out.
    Memory,
    /// The input has more bytes than count.
    Long,
    /// The input ends inside the frame at this byte.
    Truncated(u64),
    /// The frame at this byte carries no message that may stand there.
    BadMessage(u64),
    /// The link was closed before what was to come.
    Closed,
    /// The input doesn't begin with the header of a recording.
    BadHeader,
}
