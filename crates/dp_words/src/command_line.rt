//! Command lines.

use crate::word::Word;
use dp_msg_meta::Text;

/// What the program is asked for, by what that needs.
#[derive(Debug, Drop)]
pub enum CommandLine {
    /// A command on the input and the output alone.
    Local(LocalCommand),
    /// A script on the input, for a client of this name at the server at `addr`.
    Join {
        addr: Word,
        name: Text,
    },
    /// A server at `addr` with `workers` workers, from 1 to 64. Each worker ends after `conns`
    /// links, at least 1, or goes on if there is no such number.
    Listen {
        addr: Word,
        workers: u32,
        conns: Option<u32>,
        service: Service,
    },
}

/// A command that needs nothing beside the input and the output.
#[derive(Debug, Drop)]
pub enum LocalCommand {
    /// Frames on the input, a picture on the output.
    Replay,
    /// A schedule on the input, its report on the output.
    World,
    /// A recording on the input, a picture on the output: of its first `at` entries, or of all.
    /// From 1 to 64 workers paint it.
    Play {
        at: Option<u32>,
        workers: u32,
    },
    /// A session that is made from a number, with at most 100,000 rounds; its summary on the
    /// output. From 1 to 64 workers paint it.
    Drill {
        seed: u64,
        rounds: u32,
        workers: u32,
    },
}

/// What a server serves.
#[derive(Debug, Drop)]
pub enum Service {
    /// One session, whose rows are kept in this file, or in memory if there is none.
    Session { journal: Option<Word> },
}
