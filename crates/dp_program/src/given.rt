//! What a machine gives the program, by its words.

ghost use Rattle.std.specs.Prelude.{◌≡◌, [], false, map, string_bytes, is_some, IfOk};
ghost use Rattle.dp_sockets.specs.Wires.{WordsWant};
ghost use Rattle.dp_program.specs.declared.store.Store.TheVariants.{Memory};
ghost use Rattle.dp_program.specs.Stores.{HasFile, NameFile, is_file};

use crate::store::Store;
use dp_io::{StdSink, StdSource, put_all};
use dp_keeper::KeepError;
use dp_sockets::wires_for;
use dp_wire::TcpWire;
use dp_words::{Devices, Word, wanted};
use std::alloc::{AllocError, Global};
use std::env;
use std::io::{ErrorKind, Stderr, Stdin, Stdout};

/// A wire over TCP.
type Socket<'a> = TcpWire<&'a HostRuntime>;

/// The standard streams. On `diag` the program says why it ended.
#[derive(Drop)]
pub struct StdStreams {
    pub input: StdSource<Stdin>,
    pub output: StdSink<Stdout>,
    pub diag: StdSink<Stderr>,
}

/// What a machine gives the program: the words after its name, its streams, the wires that the
/// words want, and the store. Its rows are those of the file that the words name for a server, if
/// the wires are there.
pub struct Given<'a> {
    pub words: Vec<String>,
    pub streams: StdStreams,
    pub wires: Vec<TcpWire<&'a HostRuntime>>,
    pub store: Store,
}

/// The words after the program's name, the wires that they want, and the file that they name, if
/// the wires are there.
struct Asked<'a> {
    words: Vec<String>,
    wires: Vec<Socket<'a>>,
    journal: Option<Word>,
}

impl<'a> Given<'a> {
    /// Opens what the program's words want. Without a wire no file is made. A store that is no
    /// file has no rows.
    ///
    /// # Errors
    ///
    /// The program's status, if memory ran out or the store can't be opened. Standard error then
    /// has the reason.
    pub fn open(rt: &'a HostRuntime) -> Result<Given<'a>, u8>
        ensures wires { IfOk result (λ given.
            WordsWant (map string_bytes given.words.items) given.wires.items) }
        ensures file { IfOk result (λ given.
            HasFile (map string_bytes given.words.items) given.wires.items
            (is_file given.store)) }
        ensures memory { IfOk result (λ given.
            is_file given.store ≡ false → given.store ≡ Memory []) }
    {
        match read_asked(rt) {
            Ok(asked) => with_store(rt, asked),
            Err(AllocError) => Err(refuse(rt, KeepError::Memory)),
        }
    }
}

/// Lets go of the words and of the wires, and closes the store.
pub fn close(words: Vec<String>, wires: Vec<TcpWire<&HostRuntime>>, store: Store) {
    drop(words);
    drop(wires);
    store.close();
}

/// Opens the store, and has the rest beside it.
fn with_store<'a>(rt: &'a HostRuntime, asked: Asked<'a>) -> Result<Given<'a>, u8>
    ensures words { IfOk result (λ given. given.words ≡ asked.entry.words) }
    ensures wires { IfOk result (λ given. given.wires ≡ asked.entry.wires) }
    ensures file { IfOk result (λ given. is_file given.store ≡ is_some asked.entry.journal) }
    ensures memory { IfOk result (λ given. is_file given.store ≡ false → given.store ≡ Memory []) }
{
    let Asked {
        words,
        wires,
        journal,
    } = asked;
    match Store::open(rt, journal.as_ref()) {
        Ok(store) => Ok(Given {
            words,
            streams: StdStreams {
                input: StdSource::new(rt.stdin()),
                output: StdSink::new(rt.stdout()),
                diag: StdSink::new(rt.stderr()),
            },
            wires,
            store,
        }),
        Err(error) => {
            drop(words);
            drop(wires);
            Err(refuse(rt, error))
        }
    }
}

/// Says why nothing is run, and answers the status.
fn refuse(rt: &HostRuntime, error: KeepError) -> u8 {
    let (line, status): (&[u8], u8) = match error {
        KeepError::Failed => (b"store fault\n", 6),
        KeepError::Memory => (b"out of memory\n", 7),
    };
    match put_all(&mut StdSink::new(rt.stderr()), line) {
        Ok(()) => status,
        Err(_) => 4,
    }
}

/// Reads the words, and opens the wires that they want. No file is made for a server that has no
/// wires.
fn read_asked(rt: &HostRuntime) -> Result<Asked<'_>, AllocError>
    ensures wires { IfOk result (λ asked.
        WordsWant (map string_bytes asked.words.items) asked.wires.items) }
    ensures file { IfOk result (λ asked. HasFile (map string_bytes asked.words.items)
        asked.wires.items (is_some asked.journal)) }
{
    let words = words(rt)?;
    let journal = journal_of(rt.alloc(), &words)?;
    let wires = wires_for(&rt, rt.alloc(), &words)?;
    let journal = if wires.is_empty() { None } else { journal };
    Ok(Asked {
        words,
        wires,
        journal,
    })
}

/// The file that the words name for a server's rows, if they name one.
fn journal_of(alloc: Global, words: &[String]) -> Result<Option<Word>, AllocError>
    ensures { IfOk result (λ journal. NameFile (map string_bytes words.now) (is_some journal)) }
{
    match wanted(alloc, words)? {
        Devices::Listen {
            addr: _,
            workers: _,
            journal,
        } => Ok(journal),
        _ => Ok(None),
    }
}

/// The words after the program's name. Words that are no text are no command, and given as none.
fn words(rt: &HostRuntime) -> Result<Vec<String>, AllocError> {
    match env::args(rt) {
        Ok(args) => args.skip(1).collect(rt.alloc()),
        Err(error) if error.kind() == ErrorKind::OutOfMemory => Err(AllocError),
        Err(_) => Ok(Vec::new(rt.alloc())),
    }
}
