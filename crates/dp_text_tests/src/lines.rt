//! Lines cut at every place, the limit of their length, and tables of words, numbers and digits.

ghost use Rattle.std.specs.Prelude.{◌≡◌, ◌+◌, ◌≤◌, length, ⊤};

use dp_lines::{
    Line, LineBytes, LineError, Lines, RunEnd, StepRule, further_step, hex_of, hex_read_back,
    lines_seen, number, one_end, one_number, one_way, put_hex, put_number, still_left, whole_lines,
    word, word_count,
};
use std::alloc::Global;
use std::process::Abort;

/// A text, and its lines that aren't passed over.
type Row = (&'static [u8], &'static [(u32, &'static [u8])]);

static ROWS: [Row; 6] = [
    (b"", &[]),
    (b"\n\n", &[]),
    (b"# only\n#", &[]),
    (b"\r\n \n#", &[(1, b"\r"), (2, b" ")]),
    (b"a\n\nb\n", &[(1, b"a"), (3, b"b")]),
    (
        b"one\n\n# two\n  three\nfour\r\n #five\n#\n\nsix 6  \nlast",
        &[
            (1, b"one"),
            (4, b"  three"),
            (5, b"four\r"),
            (6, b" #five"),
            (9, b"six 6  "),
            (10, b"last"),
        ],
    ),
];

/// Feeds a piece, and adds the lines that are held with their newlines.
fn feed(rt: &impl Abort, lines: &mut Lines, piece: &[u8], given: &mut Vec<Line>)
    requires { lines.old.fed ≤ 100 }
    ensures { lines.new.fed ≡ lines.old.fed + length piece.now }
{
    assert!(rt; piece.len() < 1000);
    lines.feed(piece).expect(rt, "memory");
    'lines: for _ in 0..20 {
        match lines.next_line().expect(rt, "a line") {
            Some(line) => given.push(line).expect(rt, "memory"),
            None => return,
        }
    }
}

/// Adds the lines that are left at the end of the text.
fn finish(rt: &impl Abort, lines: &mut Lines, given: &mut Vec<Line>) {
    for _ in 0..20 {
        match lines.finish().expect(rt, "a line") {
            Some(line) => given.push(line).expect(rt, "memory"),
            None => return,
        }
    }
}

/// Whether lines are those that are wanted.
fn are_lines(given: &[Line], wanted: &[(u32, &[u8])]) -> bool {
    for (line, (number, bytes)) in given.iter().zip(wanted) {
        if line.number != *number || line.bytes.as_slice() != *bytes {
            return false;
        }
    }
    given.len() == wanted.len()
}

/// The test ends if this doesn't hold at a place of a table.
fn check(rt: &impl Abort, holds: bool, table: &str, place: usize) {
    assert!(rt; holds, "{table}: {place}");
}

/// Feeds a text that is cut at this place. Its lines are those that are wanted.
fn check_cut(rt: &impl Abort, alloc: Global, (text, wanted): &Row, cut: usize) {
    let mut lines = Lines::new(alloc);
    let mut given = Vec::new(alloc);
    assert!(rt; text.len() <= 100 && cut <= text.len());
    feed(rt, &mut lines, &text[..cut], &mut given);
    feed(rt, &mut lines, &text[cut..], &mut given);
    finish(rt, &mut lines, &mut given);
    check(rt, are_lines(&given, wanted), "a cut", cut);
    drop(given);
    drop(lines);
}

#[test]
fn lines_do_not_depend_on_the_pieces(rt: HostRuntime) {
    for row in &ROWS {
        for cut in 0..=row.0.len() {
            check_cut(&rt, rt.alloc(), row, cut);
        }
    }
}

/// The number and the length of a line that is given.
type Told = Result<Option<(u32, usize)>, LineError>;

/// What is given.
fn told(answer: Result<Option<Line>, LineError>) -> Told {
    match answer {
        Ok(Some(line)) => Ok(Some((line.number, line.bytes.as_slice().len()))),
        Ok(None) => Ok(None),
        Err(error) => Err(error),
    }
}

/// The first byte of a line, how many bytes it has, whether it has its newline, and what
/// `next_line` and then `finish` give.
static LENGTHS: [(u8, usize, bool, Told, Told); 7] = [
    (b'x', 131_100, true, Ok(Some((3, 131_100))), Ok(None)),
    (b'x', 131_101, true, LONG, LONG),
    (b'x', 131_100, false, Ok(None), Ok(Some((3, 131_100)))),
    (b'x', 131_101, false, LONG, LONG),
    (b' ', 131_101, false, LONG, LONG),
    (b'#', 131_101, true, Ok(None), Ok(None)),
    (b'#', 131_101, false, Ok(None), Ok(None)),
];

const LONG: Told = Err(LineError::Long(3));

/// Two lines that are passed over, and after them one with this first byte, of this length, with
/// its newline or not.
fn long_line(rt: &impl Abort, alloc: Global, first: u8, len: usize, ended: bool) -> Lines {
    let mut text = vec![in alloc; b'#'; len].expect(rt, "memory");
    assert!(rt; 0 < text.len() && text.len() < 1_000_000);
    text[0] = first;
    let mut lines = Lines::new(alloc);
    lines.feed(b"#\n\n").expect(rt, "memory");
    lines.feed(&text).expect(rt, "memory");
    if ended {
        lines.feed(b"\n").expect(rt, "memory");
    }
    lines
}

/// Whether this is given.
fn is_told(answer: Result<Option<Line>, LineError>, wanted: &Told) -> bool {
    told(answer) == *wanted
}

#[test]
fn a_line_has_at_most_131100_bytes(rt: HostRuntime) {
    for (k, (first, len, ended, next, last)) in LENGTHS.iter().enumerate() {
        let mut lines = long_line(&rt, rt.alloc(), *first, *len, *ended);
        check(&rt, is_told(lines.next_line(), next), "a next line", k);
        check(&rt, is_told(lines.finish(), last), "a last line", k);
    }
}

#[test]
fn a_comment_without_end_is_counted(rt: HostRuntime) {
    let mut lines = Lines::new(rt.alloc());
    lines.feed(b"#a").expect(&rt, "memory");
    assert!(rt; is_told(lines.next_line(), &Ok(None)));
    lines.feed(b"b\n#c").expect(&rt, "memory");
    assert!(rt; is_told(lines.finish(), &Ok(None)));
    lines.feed(b"last").expect(&rt, "memory");
    assert!(rt; is_told(lines.finish(), &Ok(Some((3, 4)))));
    assert!(rt; is_told(lines.finish(), &Ok(None)));
}

/// Lines, and their words.
static WORDS: [(&[u8], &[&[u8]]); 6] = [
    (b"", &[b""]),
    (b"join", &[b"join"]),
    (b"join ", &[b"join", b""]),
    (b" up", &[b"", b"up"]),
    (b"say  1\tff", &[b"say", b"", b"1\tff"]),
    (b"a b\r", &[b"a", b"b\r"]),
];

/// The first line, of these bytes.
fn line_of(rt: &impl Abort, alloc: Global, bytes: &[u8]) -> Line {
    let bytes = LineBytes::from_vec(Vec::from_slice(alloc, bytes).expect(rt, "memory"));
    Line { number: 1, bytes }
}

/// Whether a line has these words, and no others.
fn has_words(line: &Line, words: &[&[u8]]) -> bool {
    for (k, text) in words.iter().enumerate() {
        if !word(line, k).is_some_and(|word| word == *text) {
            return false;
        }
    }
    word_count(line) == words.len() && word(line, words.len()).is_none()
}

#[test]
fn words_are_parted_by_single_spaces(rt: HostRuntime) {
    for (k, (bytes, wanted)) in WORDS.iter().enumerate() {
        let line = line_of(&rt, rt.alloc(), bytes);
        check(&rt, has_words(&line, wanted), "words", k);
    }
    let bytes = LineBytes::new(rt.alloc());
    assert!(rt; (word_count(&Line { number: 1, bytes })) == 1);
}

/// Words, and the numbers that they are.
static NUMBERS: [(&[u8], Option<u32>); 12] = [
    (b"0", Some(0)),
    (b"7", Some(7)),
    (b"10", Some(10)),
    (b"4294967295", Some(4_294_967_295)),
    (b"4294967296", None),
    (b"00", None),
    (b"03", None),
    (b"", None),
    (b"+3", None),
    (b"-0", None),
    (b"3 ", None),
    (b"\xff3", None),
];

/// Whether a number is written as this text.
fn is_written(rt: &impl Abort, alloc: Global, number: u32, text: &[u8]) -> bool {
    let mut out = Vec::from_slice(alloc, b"n ").expect(rt, "memory");
    put_number(number, &mut out).expect(rt, "memory");
    assert!(rt; out.len() > 2);
    &out[2..] == text
}

#[test]
fn numbers_at_the_edges(rt: HostRuntime) {
    for (k, (text, wanted)) in NUMBERS.iter().enumerate() {
        check(&rt, number(text) == *wanted, "numbers", k);
        if let Some(number) = wanted {
            let is_written = is_written(&rt, rt.alloc(), *number, text);
            check(&rt, is_written, "numbers written", k);
        }
    }
}

/// Words, and the bytes that they spell.
static DIGITS: [(&[u8], Option<&[u8]>); 7] = [
    (b"", Some(b"")),
    (b"00ff", Some(b"\x00\xff")),
    (b"0aA9Fe", Some(b"\x0a\xa9\xfe")),
    (b"0", None),
    (b"0aA", None),
    (b"0g", None),
    (b"0 ", None),
];

#[test]
fn digits_of_either_case(rt: HostRuntime) {
    for (k, (text, wanted)) in DIGITS.iter().enumerate() {
        let found = hex_of(rt.alloc(), text).expect(&rt, "memory");
        let is_wanted = found.as_ref().map(|bytes| bytes.as_slice()) == *wanted;
        check(&rt, is_wanted, "digits", k);
    }
    let mut out = Vec::from_slice(rt.alloc(), b"rec ").expect(&rt, "memory");
    put_hex(b"\x00\xab\x0f", &mut out).expect(&rt, "memory");
    assert!(rt; out.as_slice() == b"rec 00ab0f".as_slice());
}

#[test]
fn ends_and_errors_are_told_apart(rt: HostRuntime) {
    assert!(rt; RunEnd::BadLine(3) == RunEnd::BadLine(3));
    assert!(rt; RunEnd::Closed != RunEnd::LinkFault);
    let text = format!(in rt.alloc(); "{}, {}", LineError::Long(3), LineError::Memory).expect(
        &rt, "memory",
    );
    assert!(rt; text.as_str() == "line 3 is too long, out of memory");
}

/// Any line is a step.
struct AnyLine;

impl StepRule for AnyLine {
    ghost is_step = { λ _ _. ⊤ };
}

#[test]
fn laws_are_called() {
    one_way();
    whole_lines();
    still_left();
    lines_seen();
    further_step::<AnyLine>();
    one_end::<AnyLine>();
    one_number();
    hex_read_back();
}
