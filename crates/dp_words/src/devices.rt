//! What the program needs of the outside.

ghost use Rattle.std.specs.Prelude.{◌≡◌, map, string_bytes, IfOk};
ghost use Rattle.dp_words.specs.Wanted.{Wants, devices_of};

use crate::command_line::{CommandLine, Service};
use crate::parser::read_words;
use crate::word::Word;
use std::alloc::{AllocError, Global};

/// What is to be made before the program runs, beside its input and its outputs.
#[derive(Debug, Drop)]
pub enum Devices {
    /// Nothing.
    Nothing,
    /// A link to the server at this address.
    Dial {
        addr: Word,
    },
    /// `workers` wires that hand out the links that are made to this address. Then a store of rows
    /// in this file, if there is one.
    Listen {
        addr: Word,
        workers: u32,
        journal: Option<Word>,
    },
}

/// The devices that the words want. Words that are no command line want none.
pub fn wanted(alloc: Global, words: &[String]) -> Result<Devices, AllocError>
    ensures { IfOk result (Wants (map string_bytes words.now)) }
{
    match read_words(alloc, words)? {
        Some(line) => Ok(devices_of(line)),
        None => Ok(Devices::Nothing),
    }
}

/// The devices of a command line.
fn devices_of(line: CommandLine) -> Devices
    ensures { result ≡ devices_of line }
{
    match line {
        CommandLine::Local(_) => Devices::Nothing,
        CommandLine::Join { addr, name: _ } => Devices::Dial { addr },
        CommandLine::Listen {
            addr,
            workers,
            conns: _,
            service,
        } => {
            let Service::Session { journal } = service;
            Devices::Listen {
                addr,
                workers,
                journal,
            }
        }
    }
}
