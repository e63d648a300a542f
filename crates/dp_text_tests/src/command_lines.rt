//! Word lists of each kind, and the devices that they want.

use Wanted::*;
use clap::ArgMatches;
use dp_lines::long_number;
use dp_words::{
    CommandLine, Devices, Form, Kind, LocalCommand, Service, Word, program_of, read_words,
    several_words_are_found, wanted,
};
use std::alloc::Global;
use std::process::Abort;

/// A command line.
#[derive(Clone, Copy)]
enum Wanted {
    Replay,
    World,
    Play(Option<u32>, u32),
    Drill(u64, u32, u32),
    Join(&'static str, &'static str),
    Serve(&'static str, u32, Option<u32>, Option<&'static str>),
}

/// Words that are separated by bars, and the command line that they are.
static LINES: [(&str, Wanted); 23] = [
    ("replay", Replay),
    ("replay|--", Replay),
    ("world", World),
    ("play", Play(None, 1)),
    ("play|--at|0", Play(Some(0), 1)),
    ("play|--at=7", Play(Some(7), 1)),
    ("play|--at|4294967295", Play(Some(4_294_967_295), 1)),
    ("play|--workers|1", Play(None, 1)),
    ("play|--workers=64", Play(None, 64)),
    ("play|--workers|7|--at=3", Play(Some(3), 7)),
    ("drill|0|0|1", Drill(0, 0, 1)),
    (
        "drill|18446744073709551615|100000|64",
        Drill(18_446_744_073_709_551_615, 100_000, 64),
    ),
    ("join|localhost:4000|ann", Join("localhost:4000", "ann")),
    ("join|--|-a|-b", Join("-a", "-b")),
    ("join||ann", Join("", "ann")),
    (
        "join|a|12345678901234567890123456789012",
        Join("a", "12345678901234567890123456789012"),
    ),
    ("serve|a:1|--workers|2", Serve("a:1", 2, None, None)),
    (
        "serve|a:1|--workers=2|--conns=1",
        Serve("a:1", 2, Some(1), None),
    ),
    (
        "serve|--conns|3|--workers|1|a:1",
        Serve("a:1", 1, Some(3), None),
    ),
    (
        "serve|a:1|--workers|64|--conns|4294967295",
        Serve("a:1", 64, Some(4_294_967_295), None),
    ),
    (
        "serve|a:1|--workers|2|--journal|b",
        Serve("a:1", 2, None, Some("b")),
    ),
    (
        "serve|--journal=./b.db|a:1|--conns|1|--workers|2",
        Serve("a:1", 2, Some(1), Some("./b.db")),
    ),
    (
        "serve|a:1|--workers|2|--journal|",
        Serve("a:1", 2, None, Some("")),
    ),
];

/// Lines of words that ask for nothing. One of them is empty.
static REFUSED: &str = "\
paint

Replay
rep
replay|replay
replay|--at|1
world|x
play|--at
play|--at|
play|--at|+3
play|--at|03
play|--at|-1
play|--at|4294967296
play|--at|1|--at|2
play|7
play|--workers|0
play|--workers|65
play|--workers|+3
play|--workers|1|--workers|1
drill
drill|1
drill|1|1
drill|1|1|1|1
drill|1|1|0
drill|1|1|65
drill|1|100001|1
drill|18446744073709551616|1|1
drill|-1|1|1
drill|01|1|1
drill|x|1|1
drill|1|+1|1
join
join|a
join|a|
join|a|b|c
join|a|123456789012345678901234567890123
serve
serve|a:1
serve|a:1|--conns|1
serve|a:1|--workers
serve|--workers|2
serve|a:1|b|--workers|2
serve|a:1|--workers|0
serve|a:1|--workers|65
serve|a:1|--workers|+3
serve|a:1|--workers|03
serve|a:1|--workers|2|--workers|2
serve|a:1|--workers|2|--conns
serve|a:1|--workers|2|--conns|0
serve|a:1|--workers|2|--conns|+3
serve|a:1|--workers|2|--conns|03
serve|a:1|--workers|2|--conns|4294967296
serve|a:1|--workers|2|--journal
serve|a:1|--workers|2|--journal|b|--journal|b
--help
help
play|--version
";

/// The words of a line.
fn words_of(rt: &impl Abort, alloc: Global, line: &str) -> Vec<String> {
    let mut words = Vec::new(alloc);
    for word in line.split('|') {
        let word = String::from_str(alloc, word).expect(rt, "memory");
        words.push(word).expect(rt, "memory");
    }
    words
}

/// Whether a command on the input and the output is the one that is wanted.
fn is_wanted_local(command: &LocalCommand, wanted: Wanted) -> bool {
    match (command, wanted) {
        (LocalCommand::Replay, Replay) | (LocalCommand::World, World) => true,
        (LocalCommand::Play { at, workers }, Play(wanted, by)) => *at == wanted && *workers == by,
        (
            LocalCommand::Drill {
                seed,
                rounds,
                workers,
            },
            Drill(from, times, by),
        ) => *seed == from && *rounds == times && *workers == by,
        _ => false,
    }
}

/// Whether there is such a word, or none.
fn is_word(word: &Option<Word>, wanted: Option<&str>) -> bool {
    match (word, wanted) {
        (Some(word), Some(wanted)) => word.as_str() == wanted,
        (None, None) => true,
        _ => false,
    }
}

/// Whether a command line is the one that is wanted.
fn is_wanted(line: &Option<CommandLine>, wanted: Wanted) -> bool {
    match (line, wanted) {
        (Some(CommandLine::Local(command)), _) => is_wanted_local(command, wanted),
        (Some(CommandLine::Join { addr, name }), Join(to, by)) => {
            addr.as_str() == to && name.as_str() == by
        }
        (
            Some(
                CommandLine::Listen {
                    addr,
                    workers,
                    conns,
                    service: Service::Session { journal },
                },
            ),
            Serve(at, count, links, file),
        ) => {
            addr.as_str() == at && *workers == count && *conns == links && is_word(journal, file)
        }
        _ => false,
    }
}

/// The command line that words are, if they are one.
fn line_of(rt: &impl Abort, alloc: Global, line: &str) -> Option<CommandLine> {
    let words = words_of(rt, alloc, line);
    let read = read_words(alloc, &words);
    drop(words);
    read.expect(rt, "memory")
}

/// The test ends if this doesn't hold of a line.
fn check(rt: &impl Abort, holds: bool, line: &str) {
    assert!(rt; holds, "{line}");
}

#[test]
fn each_kind_of_line(rt: HostRuntime) {
    for (line, wanted) in &LINES {
        let read = line_of(&rt, rt.alloc(), line);
        check(&rt, is_wanted(&read, *wanted), line);
        drop(read);
    }
}

#[test]
fn lines_that_ask_for_nothing(rt: HostRuntime) {
    let mut count = 0u64;
    for line in REFUSED.lines() {
        let read = line_of(&rt, rt.alloc(), line);
        check(&rt, read.is_none(), line);
        drop(read);
        count = count.saturating_add(1);
    }
    assert!(rt; count == 57);
    let read = read_words(rt.alloc(), &[]).expect(&rt, "memory");
    assert!(rt; read.is_none());
    drop(read);
}

/// Whether these devices are a dial, or some wires, at an address, with such a file, or none.
fn is_device(devices: &Devices, dials: bool, count: u32, at: &str, file: Option<&str>) -> bool {
    match devices {
        Devices::Dial { addr } => dials && addr.as_str() == at,
        Devices::Listen {
            addr,
            workers,
            journal,
        } => {
            !dials
                && count > 0
                && *workers == count
                && addr.as_str() == at
                && is_word(journal, file)
        }
        Devices::Nothing => !dials && count == 0,
    }
}

/// Words that are separated by bars, and what they want: whether a dial, how many wires, the
/// address and the file.
static DEVICES: [(&str, bool, u32, &str, Option<&str>); 6] = [
    ("join|a:1|ann", true, 0, "a:1", None),
    ("serve|a:1|--workers|2|--conns|3", false, 2, "a:1", None),
    (
        "serve|a:1|--journal|b|--workers|2",
        false,
        2,
        "a:1",
        Some("b"),
    ),
    ("play|--at|3", false, 0, "", None),
    ("join|a:1", false, 0, "", None),
    ("serve|a:1|--workers|0|--journal|b", false, 0, "", None),
];

/// The devices that words want.
fn devices_of(rt: &impl Abort, alloc: Global, line: &str) -> Devices {
    let words = words_of(rt, alloc, line);
    let devices = wanted(alloc, &words);
    drop(words);
    devices.expect(rt, "memory")
}

#[test]
fn devices_of_lines(rt: HostRuntime) {
    for (line, dials, count, at, file) in &DEVICES {
        let devices = devices_of(&rt, rt.alloc(), line);
        check(&rt, is_device(&devices, *dials, *count, at, *file), line);
        drop(devices);
    }
}

/// Forms of the test's own: the last words of one are several, and the other's number has 64 bits.
static FORMS: [Form; 2] = [
    Form {
        name: "seek",
        params: &[("every", Kind::Word), ("places", Kind::Words)],
    },
    Form {
        name: "drill",
        params: &[("seed", Kind::Named { required: true })],
    },
];

/// Words that are separated by bars, a name, and the numbers that it is given, if it is given any.
static NUMBERS: [(&str, &str, Option<&[u64]>); 14] = [
    ("seek|5|7", "every", Some(&[5])),
    ("seek|5|7", "places", Some(&[7])),
    ("seek|5|7|0|7", "places", Some(&[7, 0, 7])),
    (
        "seek|5|18446744073709551615|1",
        "places",
        Some(&[u64::MAX, 1]),
    ),
    ("drill|--seed|0", "seed", Some(&[0])),
    ("drill|--seed=4294967296", "seed", Some(&[4_294_967_296])),
    (
        "drill|--seed|18446744073709551615",
        "seed",
        Some(&[u64::MAX]),
    ),
    ("seek|5", "places", None),
    ("seek", "places", None),
    ("seek|5|7|x", "places", None),
    ("drill", "seed", None),
    ("drill|--seed|18446744073709551616", "seed", None),
    ("drill|--seed|07", "seed", None),
    ("drill|--seed|1|2", "seed", None),
];

/// The numbers of 64 bits that are given to a name, if they are such numbers.
fn given_numbers(
    rt: &impl Abort,
    alloc: Global,
    matches: &ArgMatches,
    id: &str,
) -> Option<Vec<u64>> {
    let (_, given) = matches.subcommand()?;
    let mut numbers = Vec::new(alloc);
    for word in given.get_strs(id)? {
        let number = long_number(word.as_bytes())?;
        numbers.push(number).expect(rt, "memory");
    }
    Some(numbers)
}

/// The numbers of 64 bits that words give to a name, if they are words of a form.
fn matched_numbers(rt: &impl Abort, alloc: Global, words: &[String], id: &str) -> Option<Vec<u64>> {
    let program = program_of(alloc, "test", &FORMS).expect(rt, "memory");
    match program.try_get_matches_from(words) {
        Ok(matches) => {
            let numbers = given_numbers(rt, alloc, &matches, id);
            drop(matches);
            numbers
        }
        Err(error) => {
            drop(error);
            None
        }
    }
}

/// The numbers that the words of a line give to a name.
fn numbers_of(rt: &impl Abort, alloc: Global, line: &str, id: &str) -> Option<Vec<u64>> {
    let words = words_of(rt, alloc, line);
    let numbers = matched_numbers(rt, alloc, &words, id);
    drop(words);
    numbers
}

/// Whether these are the numbers that are wanted.
fn are_numbers(numbers: &Option<Vec<u64>>, wanted: Option<&[u64]>) -> bool {
    match (numbers, wanted) {
        (Some(numbers), Some(wanted)) => numbers.as_slice() == wanted,
        (None, None) => true,
        _ => false,
    }
}

#[test]
fn forms_of_a_table(rt: HostRuntime) {
    several_words_are_found();
    for (line, id, wanted) in &NUMBERS {
        let numbers = numbers_of(&rt, rt.alloc(), line, id);
        check(&rt, are_numbers(&numbers, *wanted), line);
    }
}
