//! Forks of a row of numbers beside the plain rule.

ghost use Rattle.std.specs.Prelude.{◌≡◌, ◌<◌};

use crate::numbers::{NUMBERS, check, numbers_of, replayed, set};
use dp_board::{Act, Change, NumberBoard, SetNumber, UserAct};
use dp_fork::{Fork, Own};
use dp_rollback::Rollback;
use dp_steps::Steps;
use std::alloc::{AllocError, Global};
use std::collections::VecDeque;
use std::marker::Brand;
use std::process::Abort;
use std::sync::ledger::{Blank, Ledger};

/// The context id of the painter whose fork it is.
const SELF: u8 = 1;

/// What a script's word does: whose the act is, what it does, and its digit and place.
#[derive(Clone, Copy)]
struct Word {
    user: u8,
    kind: u8,
    digit: u8,
    place: usize,
}

impl Word {
    /// The act: P is a point, and D a command that sets the number at the digit. U is an undo and R
    /// a redo of the user's own groups, and O another.
    fn act(self) -> Act<SetNumber> {
        match self.kind {
            b'P' => Act::Point,
            b'D' => Act::Draw(SetNumber {
                place: usize::from(self.digit % 8),
                value: (self.place as u64).saturating_add(1),
            }),
            b'U' => Act::Undo { who: self.user },
            b'R' => Act::Redo { who: self.user },
            _ => Act::Other,
        }
    }
}

/// How a fork goes on that is quiet.
#[derive(Clone, Copy)]
enum Quietly {
    Settles,
    Answers,
    Follows,
}

/// A client: the confirmed board, the fork, the acts that were taken, and the words that were said
/// and aren't answered.
#[derive(Drop)]
struct Painter {
    confirmed: Rollback<NumberBoard>,
    fork: Fork<NumberBoard>,
    taken: Vec<UserAct<SetNumber>>,
    said: VecDeque<Word>,
}

/// The numbers with the commands of the words said.
fn with_said(mut numbers: [u64; NUMBERS], said: &VecDeque<Word>) -> [u64; NUMBERS] {
    for word in said {
        if let Act::Draw(op) = word.act() {
            set(&mut numbers, &op);
        }
    }
    numbers
}

/// Says a word, and once more if memory was refused.
fn say<D: Ledger, T: Ledger>(
    painter: &mut Painter,
    word: Word,
    draws: &mut Steps<D>,
    tiles: &mut Steps<T>,
) -> Result<(), AllocError> {
    let board = painter.confirmed.board();
    match painter.fork.say(board, word.act(), draws, tiles) {
        Ok(()) => Ok(()),
        Err(_) => painter.fork.say(board, word.act(), draws, tiles),
    }
}

/// Goes on with the confirmed board, and once more if memory was refused.
fn take<D: Ledger, T: Ledger>(
    painter: &mut Painter,
    word: Word,
    draws: &mut Steps<D>,
    tiles: &mut Steps<T>,
) -> Result<Change, AllocError> {
    match painter.confirmed.take(word.user, &word.act(), draws, tiles) {
        Ok(change) => Ok(change),
        Err(_) => painter.confirmed.take(word.user, &word.act(), draws, tiles),
    }
}

/// Goes on with the fork, and once more if memory was refused. If it is quiet, by the call that is
/// asked for.
fn answer<D: Ledger, T: Ledger>(
    painter: &mut Painter,
    (word, own, change): (Word, Own, Change),
    quietly: Quietly,
    draws: &mut Steps<D>,
    tiles: &mut Steps<T>,
) -> Result<(), AllocError> {
    let act = word.act();
    if painter.fork.is_quiet(&act, own) {
        match quietly {
            Quietly::Settles => {}
            Quietly::Answers => {
                painter.fork.answer(own);
                return Ok(());
            }
            Quietly::Follows => {
                painter.fork.follow(&act, change, own, draws, tiles);
                return Ok(());
            }
        }
    }
    let board = painter.confirmed.board();
    match painter.fork.settle(board, &act, change, own, draws, tiles) {
        Ok(()) => Ok(()),
        Err(_) => painter.fork.settle(board, &act, change, own, draws, tiles),
    }
}

/// Takes a word that was sent, as this to the fork.
fn receive<D: Ledger, T: Ledger>(
    rt: &impl Abort,
    painter: &mut Painter,
    (word, own): (Word, Own),
    quietly: Quietly,
    draws: &mut Steps<D>,
    tiles: &mut Steps<T>,
) {
    let change = take(painter, word, draws, tiles).expect(rt, "memory");
    let answered = answer(painter, (word, own, change), quietly, draws, tiles);
    answered.expect(rt, "memory");
    let act = UserAct {
        user: word.user,
        act: word.act(),
    };
    painter.taken.push(act).expect(rt, "memory");
    match own {
        Own::Stranger => {}
        Own::Echo | Own::Dropped => {
            let _answered = painter.said.pop_front();
        }
        Own::Lost => painter.said.clear(),
    }
}

/// Says a word and takes its echo, so often that the fork's board stays from then on.
fn say_much<D: Ledger, T: Ledger>(
    rt: &impl Abort,
    painter: &mut Painter,
    word: Word,
    quietly: Quietly,
    draws: &mut Steps<D>,
    tiles: &mut Steps<T>,
) {
    for _said in 0..130 {
        say(painter, word, draws, tiles).expect(rt, "memory");
        painter.said.push_back(word).expect(rt, "memory");
        receive(rt, painter, (word, Own::Echo), quietly, draws, tiles);
    }
}

/// The three letters of a word.
fn letters_of(rt: &impl Abort, word: &str) -> (u8, u8, u8) {
    let [how, kind, digit] = word.as_bytes() else {
        panic!(rt; "{word} has not three letters");
    };
    (*how, *kind, *digit)
}

/// The word that was sent, and as what the fork takes it: an echo of the first that was said, or
/// another's word.
fn sent_of(rt: &impl Abort, said: &VecDeque<Word>, how: u8, other: Word) -> (Word, Own) {
    match how {
        b'e' => (said.front().copied().expect(rt, "a word said"), Own::Echo),
        b'd' => (other, Own::Dropped),
        b'l' => (other, Own::Lost),
        _ => (other, Own::Stranger),
    }
}

/// A step by a word of three letters: what comes, what it does, and a digit. Of what comes s is
/// said, t a stranger's and e an echo. A d stands in place of the first that was said, and l has
/// all lost. An x is said 130 times, and each time answered by its echo.
fn step<D: Ledger, T: Ledger>(
    rt: &impl Abort,
    painter: &mut Painter,
    (letters, place): (&str, usize),
    quietly: Quietly,
    draws: &mut Steps<D>,
    tiles: &mut Steps<T>,
) {
    let (how, kind, digit) = letters_of(rt, letters);
    let own_word = Word {
        user: SELF,
        kind,
        digit,
        place,
    };
    let other = Word {
        user: 2,
        kind,
        digit,
        place,
    };
    match how {
        b's' => {
            say(painter, own_word, draws, tiles).expect(rt, "memory");
            painter.said.push_back(own_word).expect(rt, "memory");
        }
        b'x' => say_much(rt, painter, own_word, quietly, draws, tiles),
        _ => {
            let sent = sent_of(rt, &painter.said, how, other);
            receive(rt, painter, sent, quietly, draws, tiles);
        }
    }
}

/// What is seen is what the plain rule says, and so is how many words aren't answered.
fn is_as_wanted(rt: &impl Abort, alloc: Global, painter: &Painter) -> bool {
    let view = painter.fork.view(painter.confirmed.board());
    let numbers = with_said(replayed(rt, alloc, 30, &painter.taken), &painter.said);
    painter.fork.pending_len() == painter.said.len() && numbers_of(rt, view) == numbers
}

/// A painter who sees a blank row of numbers.
fn painter_of(rt: &impl Abort, alloc: Global) -> Painter {
    let blank = NumberBoard::new(alloc, NUMBERS).expect(rt, "memory");
    Painter {
        confirmed: Rollback::new(alloc, blank, 30).expect(rt, "memory"),
        fork: Fork::new(alloc),
        taken: Vec::new(alloc),
        said: VecDeque::new(alloc),
    }
}

/// Runs a script, and compares what is seen with the plain rule after each word.
fn check_script<D: Ledger, T: Ledger>(
    rt: &impl Abort,
    alloc: Global,
    (script, quietly): (&str, Quietly),
    draws: &mut Steps<D>,
    tiles: &mut Steps<T>,
) {
    let mut painter = painter_of(rt, alloc);
    for (place, letters) in script.split_whitespace().enumerate() {
        step(rt, &mut painter, (letters, place), quietly, draws, tiles);
        check(rt, is_as_wanted(rt, alloc, &painter), letters, script);
    }
    drop(painter);
}

/// Scripts: echoes, strangers that meet the fork or don't, undo on both sides, and words that were
/// not permitted. Then a fork that is lost, and a painter who says much before others do.
static SCRIPTS: [&str; 14] = [
    "",
    "sD1 eD1",
    "sP0 sD1 tD2 eP0 eD1",
    "sP0 sD1 tD1 eP0 eD1",
    "sD1 sD1 sD2 eD1 tD1 eD1 tD2 eD2",
    "tP0 tD1 tD2 sD1 tU0 eD1 tR0",
    "sP0 sD3 eP0 eD3 sU0 tD3 eU0 sR0 tD4 eR0",
    "sP0 sD3 sU0 eP0 eD3 eU0 sR0 eR0",
    "sD1 sD2 dO0 eD2",
    "sD1 sD2 dD2 eD2 sO0 sD4 dO0 tD4",
    "sD1 sD2 sP0 lO0 tD1 sD1 eD1",
    "tP0 tD1 sD2 sD1 lD1 tU0 sD3 tR0 eD3",
    "xO0 sD1 eD1 sD2 eD2 sD3 eD3 tD2 sD2 eD2 tD1 tD2 tD3 tD4 tD5 sD1 tO0 eD1 tD3",
    "xO0 tP0 sD1 eD1 sD2 eD2 sD3 eD3 tD4 tU0 tR0 sP0 sD2 eP0 eD2 sU0 eU0 tD2 sD5 lD5 tD5",
];

/// Runs each script in all three ways, with counters over these blanks.
fn check_all<D: Ledger, T: Ledger>(
    rt: &impl Abort,
    alloc: Global,
    draw_blank: Blank,
    tile_blank: Blank,
)
    requires draws { (draw_blank.name ≡ D.name) × (draw_blank.parts ≡ D.parts)
        × (0 < draw_blank.parts) }
    requires tiles { (tile_blank.name ≡ T.name) × (tile_blank.parts ≡ T.parts)
        × (0 < tile_blank.parts) }
{
    let mut draws = Steps::<D>::new(draw_blank);
    let mut tiles = Steps::<T>::new(tile_blank);
    for script in &SCRIPTS {
        let row = (*script, Quietly::Settles);
        check_script(rt, alloc, row, &mut draws, &mut tiles);
        let row = (*script, Quietly::Answers);
        check_script(rt, alloc, row, &mut draws, &mut tiles);
        let row = (*script, Quietly::Follows);
        check_script(rt, alloc, row, &mut draws, &mut tiles);
    }
}

#[test]
fn scripts_of_two_painters(rt: HostRuntime) {
    check_all::<Brand, Brand>(&rt, rt.alloc(), Blank::new(1), Blank::new(1));
}
