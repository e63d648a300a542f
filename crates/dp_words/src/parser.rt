//! Reading a command line.

ghost use Rattle.std.specs.Prelude.{◌≡◌, ◌≤◌, ℕ, Option, codes, map, option_map, string_bytes};
ghost use Rattle.std.specs.Prelude.{IfNone, IfOk, IfSome};
ghost use Rattle.clap.specs.Words.{first_of, found_of, rows_of, subcommand_rows_of};
ghost use Rattle.dp_words.specs.declared.command_line.CommandLine.{CommandLine};
ghost use Rattle.dp_words.specs.CommandLines.{AsksBy, AsksFor, AsksIn, FitsLimits, IsCommandLine};
ghost use Rattle.dp_words.specs.Forms.{drill_form, join_form, play_form, serve_form};
ghost use Rattle.dp_words.specs.Values.{HasAt, HasRounds, HasSeed, HasWorkers, HasWorkersOrOne};
ghost use Rattle.dp_words.specs.Values.{IsConns};

use crate::app::drawpile_of;
use crate::command_line::{CommandLine, LocalCommand, Service};
use crate::word::{Word, word_of};
use clap::ArgMatches;
use clap::error::ErrorKind;
use dp_lines::{long_number, number, one_number};
use dp_msg_meta::Text;
use std::alloc::{AllocError, Global};

/// What the words ask for, which stand after the program's name. `None` if they are no command
/// line; so are words that ask for help.
pub fn read_words(alloc: Global, words: &[String]) -> Result<Option<CommandLine>, AllocError>
    ensures some { IfOk result (λ line. IfSome line (AsksFor (map string_bytes words.now))) }
    ensures none { IfOk result (λ line. IfNone line
        (¬ IsCommandLine (map string_bytes words.now))) }
    ensures limits { IfOk result (λ line. IfSome line FitsLimits) }
{
    match drawpile_of(alloc)?.try_get_matches_from(words) {
        Ok(matches) => line_of(alloc, &matches),
        Err(error) if error.kind() == ErrorKind::OutOfMemory => Err(AllocError),
        Err(_) => Ok(None),
    }
}

/// What the matches of a parse ask for, if they are a command line.
fn line_of(alloc: Global, matches: &ArgMatches) -> Result<Option<CommandLine>, AllocError>
    ensures some { IfOk result (λ line. IfSome line (AsksIn (subcommand_rows_of matches.now))) }
    ensures none { IfOk result (λ line. IfNone line ((other : CommandLine)
        → ¬ AsksIn (subcommand_rows_of matches.now) other)) }
    ensures limits { IfOk result (λ line. IfSome line FitsLimits) }
{
    match matches.subcommand() {
        Some((name, given)) => asked_by(alloc, name, given),
        None => Ok(None),
    }
}

/// What the command of this name asks for, with what it was given.
fn asked_by(
    alloc: Global,
    name: &str,
    given: &ArgMatches,
) -> Result<Option<CommandLine>, AllocError>
    ensures some { IfOk result (λ line. IfSome line
        (AsksBy name.now (rows_of (found_of given.now)))) }
    ensures none { IfOk result (λ line. IfNone line ((other : CommandLine)
        → ¬ AsksBy name.now (rows_of (found_of given.now)) other)) }
    ensures limits { IfOk result (λ line. IfSome line FitsLimits) }
{
    match name {
        "replay" => Ok(Some(CommandLine::Local(LocalCommand::Replay))),
        "world" => Ok(Some(CommandLine::Local(LocalCommand::World))),
        "play" => Ok(played(given)),
        "drill" => Ok(drilled(given)),
        "join" => joined(alloc, given),
        "serve" => served(alloc, given),
        _ => Ok(None),
    }
}

/// `play` with its options, if their numbers are ones that it takes.
fn played(given: &ArgMatches) -> Option<CommandLine>
    ensures some { IfSome result (play_form.asks (rows_of (found_of given.now))) }
    ensures none { IfNone result ((other : CommandLine)
        → ¬ AsksBy (codes "play") (rows_of (found_of given.now)) other) }
    ensures limits { IfSome result FitsLimits }
{
    let at = match value_of(given, "at") {
        Some(word) => Some(number(word.as_bytes())?),
        None => None,
    };
    let workers = workers_or_one(given)?;
    Some(CommandLine::Local(LocalCommand::Play { at, workers }))
}

/// `drill` with its words, if they are numbers that it takes.
fn drilled(given: &ArgMatches) -> Option<CommandLine>
    ensures some { IfSome result (drill_form.asks (rows_of (found_of given.now))) }
    ensures none { IfNone result ((other : CommandLine)
        → ¬ AsksBy (codes "drill") (rows_of (found_of given.now)) other) }
    ensures limits { IfSome result FitsLimits }
{
    let seed = seed_of(given)?;
    let rounds = rounds_of(given)?;
    let workers = workers_of(given)?;
    Some(CommandLine::Local(LocalCommand::Drill {
        seed,
        rounds,
        workers,
    }))
}

/// `join` with its words, if the name has from 1 to 32 bytes.
fn joined(alloc: Global, given: &ArgMatches) -> Result<Option<CommandLine>, AllocError>
    ensures some { IfOk result (λ line. IfSome line
        (join_form.asks (rows_of (found_of given.now)))) }
    ensures none { IfOk result (λ line. IfNone line ((other : CommandLine)
        → ¬ AsksBy (codes "join") (rows_of (found_of given.now)) other)) }
    ensures limits { IfOk result (λ line. IfSome line FitsLimits) }
{
    let (Some(addr), Some(name)) = (value_of(given, "addr"), value_of(given, "name")) else {
        return Ok(None);
    };
    if name.is_empty() || name.len() > 32 {
        return Ok(None);
    }
    let addr = Word::from_str(alloc, addr)?;
    let name = Text::from_str(alloc, name)?;
    Ok(Some(CommandLine::Join { addr, name }))
}

/// `serve` with its word and its options, if their numbers are ones that it takes.
fn served(alloc: Global, given: &ArgMatches) -> Result<Option<CommandLine>, AllocError>
    ensures some { IfOk result (λ line. IfSome line
        (serve_form.asks (rows_of (found_of given.now)))) }
    ensures none { IfOk result (λ line. IfNone line ((other : CommandLine)
        → ¬ AsksBy (codes "serve") (rows_of (found_of given.now)) other)) }
    ensures limits { IfOk result (λ line. IfSome line FitsLimits) }
{
    let Some(addr) = value_of(given, "addr") else {
        return Ok(None);
    };
    let (Some(workers), Some(conns)) = (workers_of(given), conns_of(given)) else {
        return Ok(None);
    };
    let addr = Word::from_str(alloc, addr)?;
    let journal = word_of(alloc, value_of(given, "journal"))?;
    Ok(Some(CommandLine::Listen {
        addr,
        workers,
        conns,
        service: Service::Session { journal },
    }))
}

/// The number from which a drill is made, if it is one of 64 bits.
fn seed_of(given: &ArgMatches) -> Option<u64>
    ensures some { IfSome result
        (HasSeed (first_of (codes "seed") (rows_of (found_of given.now)))) }
    ensures none { IfNone result ((n : ℕ)
        → ¬ HasSeed (first_of (codes "seed") (rows_of (found_of given.now))) n) }
{
    long_number(value_of(given, "seed")?.as_bytes())
}

/// The number of rounds of a drill, if it is at most 100,000.
fn rounds_of(given: &ArgMatches) -> Option<u32>
    ensures some { IfSome result
        (HasRounds (first_of (codes "rounds") (rows_of (found_of given.now)))) }
    ensures none { IfNone result ((n : ℕ)
        → ¬ HasRounds (first_of (codes "rounds") (rows_of (found_of given.now))) n) }
    ensures range { IfSome result (λ n. n ≤ 100000) }
{
    one_number();
    let rounds = number(value_of(given, "rounds")?.as_bytes())?;
    if rounds <= 100_000 {
        Some(rounds)
    } else {
        None
    }
}

/// The number of workers, if it is from 1 to 64.
fn workers_of(given: &ArgMatches) -> Option<u32>
    ensures some { IfSome result
        (HasWorkers (first_of (codes "workers") (rows_of (found_of given.now)))) }
    ensures none { IfNone result ((n : ℕ)
        → ¬ HasWorkers (first_of (codes "workers") (rows_of (found_of given.now))) n) }
    ensures range { IfSome result (λ n. (1 ≤ n) × (n ≤ 64)) }
{
    one_number();
    let workers = number(value_of(given, "workers")?.as_bytes())?;
    if workers >= 1 && workers <= 64 {
        Some(workers)
    } else {
        None
    }
}

/// The number of workers, if it is from 1 to 64; 1 if none is given.
fn workers_or_one(given: &ArgMatches) -> Option<u32>
    ensures some { IfSome result
        (HasWorkersOrOne (first_of (codes "workers") (rows_of (found_of given.now)))) }
    ensures none { IfNone result ((n : ℕ)
        → ¬ HasWorkersOrOne (first_of (codes "workers") (rows_of (found_of given.now))) n) }
    ensures range { IfSome result (λ n. (1 ≤ n) × (n ≤ 64)) }
{
    match value_of(given, "workers") {
        Some(_) => workers_of(given),
        None => Some(1),
    }
}

/// The number of links, if there is one. `None` if it is there and not at least 1.
fn conns_of(given: &ArgMatches) -> Option<Option<u32>>
    ensures some { IfSome result (λ conns. IsConns conns
        × HasAt (first_of (codes "conns") (rows_of (found_of given.now))) conns) }
    ensures none { IfNone result ((conns : Option ℕ) → IsConns conns
        → ¬ HasAt (first_of (codes "conns") (rows_of (found_of given.now))) conns) }
{
    one_number();
    let Some(word) = value_of(given, "conns") else {
        return Some(None);
    };
    let conns = number(word.as_bytes())?;
    if conns >= 1 { Some(Some(conns)) } else { None }
}

/// The value that an option or a word of this name was given.
fn value_of<'a>(given: &ArgMatches<'a>, id: &str) -> Option<&'a str>
    ensures { option_map (λ s. s.now) result ≡ first_of id.now (rows_of (found_of given.now)) }
{
    given.get_str(id)
}
