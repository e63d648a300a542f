//! The ways in which the program ends.

use dp_keeper::Row;
use dp_lines::RunEnd;

/// A way in which the program ends.
#[derive(Debug, Drop)]
pub enum Ending {
    /// The words are no command.
    Usage,
    /// The command needs a link, and there is none.
    NoLink,
    /// Memory ran out before the words were read.
    NoWords,
    /// A run of the command came to this end.
    Run(RunEnd),
    /// The store failed.
    StoreFault,
    /// This row, at this place of the store, may not stand there.
    BadRow { n: u64, row: Row },
}
