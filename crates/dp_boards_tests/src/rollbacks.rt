//! Rollbacks of a row of numbers beside the plain replay.

ghost use Rattle.std.specs.Prelude.{◌≡◌, ◌<◌};

use crate::numbers::{NUMBERS, check, numbers_of, replayed};
use dp_board::{Act, Change, NumberBoard, SetNumber, UserAct};
use dp_rollback::{Rollback, few_are_due};
use dp_steps::Steps;
use dp_trailing::TrailingBoard;
use std::alloc::{AllocError, Global};
use std::marker::Brand;
use std::process::Abort;
use std::sync::ledger::{Blank, Ledger};

/// What the letter S sets the depth to, by its digit.
static DEPTHS: [u8; 4] = [1, 2, 30, 255];

/// The two letters of a word.
fn letters_of(rt: &impl Abort, word: &str) -> (u8, u8) {
    let [kind, digit] = word.as_bytes() else {
        panic!(rt; "{word} has not two letters");
    };
    (*kind, *digit)
}

/// The act of a word: what it does (Point, Draw, Undo, Redo, Set the depth, Other) and a user. A
/// command sets the number of its user to its place in the history.
fn act_of(rt: &impl Abort, word: &str, place: usize) -> UserAct<SetNumber> {
    let (kind, digit) = letters_of(rt, word);
    let user = digit % 8;
    let act = match kind {
        b'P' => Act::Point,
        b'D' => Act::Draw(SetNumber {
            place: usize::from(user),
            value: (place as u64).saturating_add(1),
        }),
        b'U' => Act::Undo { who: user },
        b'R' => Act::Redo { who: user },
        b'S' => Act::Depth(DEPTHS[usize::from(user) % 4]),
        _ => Act::Other,
    };
    UserAct { user, act }
}

/// A rollback of a blank row of numbers.
fn blank_rollback(rt: &impl Abort, alloc: Global, depth: u32) -> Rollback<NumberBoard> {
    let blank = NumberBoard::new(alloc, NUMBERS).expect(rt, "memory");
    Rollback::new(alloc, blank, depth).expect(rt, "memory")
}

/// Takes an act, and once more if memory was refused.
fn take<D: Ledger, T: Ledger>(
    rollback: &mut Rollback<NumberBoard>,
    act: &UserAct<SetNumber>,
    draws: &mut Steps<D>,
    tiles: &mut Steps<T>,
) -> Result<Change, AllocError> {
    match rollback.take(act.user, &act.act, draws, tiles) {
        Ok(change) => Ok(change),
        Err(_) => rollback.take(act.user, &act.act, draws, tiles),
    }
}

/// Takes an act, and adds it to those that were taken.
fn take_one<D: Ledger, T: Ledger>(
    rt: &impl Abort,
    rollback: &mut Rollback<NumberBoard>,
    acts: &mut Vec<UserAct<SetNumber>>,
    act: UserAct<SetNumber>,
    draws: &mut Steps<D>,
    tiles: &mut Steps<T>,
) -> Change {
    let change = take(rollback, &act, draws, tiles).expect(rt, "memory");
    acts.push(act).expect(rt, "memory");
    change
}

/// The letter of a change.
fn letter(change: Change) -> u8 {
    match change {
        Change::Drew => b'd',
        Change::Rebuilt => b'r',
        Change::Nothing => b'-',
    }
}

/// The change has the letter at this place, if letters are given.
fn has_letter(change: Change, place: usize, letters: Option<&str>) -> bool {
    match letters {
        Some(letters) => letters.as_bytes().get(place) == Some(&letter(change)),
        None => true,
    }
}

/// Takes the acts of a script one by one, and compares the numbers with the replay after each. The
/// changes have these letters, if any are given.
fn check_script<D: Ledger, T: Ledger>(
    rt: &impl Abort,
    alloc: Global,
    (depth, script, changes): (u32, &str, Option<&str>),
    draws: &mut Steps<D>,
    tiles: &mut Steps<T>,
) {
    let mut rollback = blank_rollback(rt, alloc, depth);
    let mut acts = Vec::new(alloc);
    for (k, word) in script.split_whitespace().enumerate() {
        let act = act_of(rt, word, k);
        let change = take_one(rt, &mut rollback, &mut acts, act, draws, tiles);
        let is_so = has_letter(change, k, changes) && shows(rt, alloc, &rollback, depth, &acts);
        check(rt, is_so, word, script);
    }
    drop(rollback);
}

/// Whether a rollback shows the replay of these acts.
fn shows(
    rt: &impl Abort,
    alloc: Global,
    rollback: &Rollback<NumberBoard>,
    depth: u32,
    acts: &[UserAct<SetNumber>],
) -> bool {
    numbers_of(rt, rollback.board()) == replayed(rt, alloc, depth, acts)
}

/// A depth, a script and the letters of its changes.
static SCRIPTS: [(u32, &str, &str); 16] = [
    (30, "", ""),
    (30, "D1 P1 D1 U1 U1", "d-dr-"),
    (30, "P1 D1 P2 D2 U1 D1 R1", "-d-drd-"),
    (30, "P1 D1 D2 U1 R1 U1 O1 R1", "-ddrrr-r"),
    // Undo of another user's group leaves the sender's.
    (30, "P1 D1 P2 D2 U2 U2 R2", "-d-dr-r"),
    (0, "P1 D1 U1", "-d-"),
    (1, "P1 D1 P2 U1 U2", "-d--r"),
    (2, "P1 D1 P1 D1 P1 D1 U1 U1 U1 R1 R1", "-d-d-drr-rr"),
    // A depth of 1, 2, 30 or 255 (S0 to S3): it is no point, what it cuts out stays out, undone
    // groups stay.
    (30, "S0 P1 D1 U1", "--dr"),
    (30, "S0 P1 D1 P2 S3 U1", "--d---"),
    (30, "S1 P1 D1 P2 U1", "--d-r"),
    (30, "P1 D1 P2 S0 U1 U2", "-d---r"),
    (30, "P1 D1 U1 S0 R1", "-dr-r"),
    (30, "P1 D1 U1 P2 S0 R1", "-dr---"),
    (30, "S0 P1 D1 P1 D1 U1 U1", "--d-dr-"),
    (30, "S0 P1 D1 S0 U1", "--d-r"),
];

/// The words of the group of a number, if each third group is undone and each sixth comes back.
/// Before each fifth a depth is set.
fn add_group(script: &mut String, number: usize, commands: usize) -> Result<(), AllocError> {
    let (point, command, undo) = match number % 3 {
        0 => (" P1", " D1", ""),
        1 => (" P2", " D2", ""),
        _ => (" P3", " D3", " U3"),
    };
    script.push_str(match number % 20 {
        0 => " S0",
        5 => " S1",
        10 => " S2",
        15 => " S3",
        _ => "",
    })?;
    script.push_str(point)?;
    for _ in 0..commands {
        script.push_str(command)?;
    }
    script.push_str(undo)?;
    script.push_str(if number % 6 == 5 { " U1 R3" } else { "" })
}

/// A script of this number of groups. Each has `commands` commands, or, if that is `None`, from 0
/// to 19 in turn.
fn script_of(rt: &impl Abort, alloc: Global, groups: usize, commands: Option<usize>) -> String {
    let mut script = String::new(alloc);
    for number in 0..groups {
        let count = commands.unwrap_or(number % 20);
        add_group(&mut script, number, count).expect(rt, "memory");
    }
    script
}

/// How many acts were taken, and the most that were held among the first ten thousand.
#[derive(Clone, Copy)]
struct Held {
    count: usize,
    most: usize,
}

/// Gets an act ready, and takes it.
fn put_act<D: Ledger, T: Ledger>(
    rt: &impl Abort,
    rollback: &mut Rollback<NumberBoard>,
    act: &UserAct<SetNumber>,
    draws: &mut Steps<D>,
    tiles: &mut Steps<T>,
) {
    let ready = rollback.ready(act.user, &act.act, draws, tiles);
    let ready = ready.expect(rt, "memory");
    assert!(rt; rollback.spare() > 0);
    rollback.put(ready);
}

/// Takes the acts of a script. From the ten thousandth act on, no more are held than before it.
fn put_script<D: Ledger, T: Ledger>(
    rt: &impl Abort,
    rollback: &mut Rollback<NumberBoard>,
    script: &str,
    mut held: Held,
    draws: &mut Steps<D>,
    tiles: &mut Steps<T>,
) -> Held {
    for word in script.split_whitespace() {
        let act = act_of(rt, word, held.count % 1000);
        put_act(rt, rollback, &act, draws, tiles);
        held.count = held.count.saturating_add(1);
        if held.count < 10_000 {
            held.most = rollback.kept().max(held.most);
        }
        assert!(rt; rollback.kept() <= held.most || held.count < 10_000);
    }
    held
}

/// Takes a script again and again, more than a hundred thousand acts. None is held beyond as many
/// as were held among the first ten thousand.
fn check_memory<D: Ledger, T: Ledger>(
    rt: &impl Abort,
    alloc: Global,
    draws: &mut Steps<D>,
    tiles: &mut Steps<T>,
) {
    let mut rollback = blank_rollback(rt, alloc, 30);
    let script = script_of(rt, alloc, 60, Some(8));
    let mut held = Held { count: 0, most: 0 };
    for _ in 0..175 {
        let script = script.as_str();
        held = put_script(rt, &mut rollback, script, held, draws, tiles);
    }
    assert!(rt; held.count > 100_000);
    assert!(rt; held.most < 500);
}

/// A script of one point, and of some thousand commands after it. The point is undone, brought back
/// and undone.
fn long_script(alloc: Global) -> Result<String, AllocError> {
    let mut script = String::new(alloc);
    script.push_str("D2 D1 P1")?;
    for _ in 0..1500 {
        script.push_str(" D1")?;
    }
    script.push_str(" U1 R1 D1 U1")?;
    Ok(script)
}

/// Takes the acts of a script, and gives them: two savepoints at most are held.
fn take_acts<D: Ledger, T: Ledger>(
    rt: &impl Abort,
    alloc: Global,
    rollback: &mut Rollback<NumberBoard>,
    script: &str,
    draws: &mut Steps<D>,
    tiles: &mut Steps<T>,
) -> Vec<UserAct<SetNumber>> {
    let mut acts = Vec::new(alloc);
    for (place, word) in script.split_whitespace().enumerate() {
        let act = act_of(rt, word, place);
        let _change = take_one(rt, rollback, &mut acts, act, draws, tiles);
        assert!(rt; rollback.saves() <= 2);
    }
    acts
}

/// Takes one point and some thousand commands, with two savepoints at most, and compares at the
/// end.
fn check_saves<D: Ledger, T: Ledger>(
    rt: &impl Abort,
    alloc: Global,
    draws: &mut Steps<D>,
    tiles: &mut Steps<T>,
) {
    let mut rollback = blank_rollback(rt, alloc, 30);
    let script = long_script(alloc).expect(rt, "memory");
    let acts = take_acts(rt, alloc, &mut rollback, script.as_str(), draws, tiles);
    let numbers = numbers_of(rt, rollback.board());
    assert!(rt; numbers == replayed(rt, alloc, 30, &acts));
    assert!(rt; numbers[1] == 2);
}

/// The acts of a script.
fn acts_of(rt: &impl Abort, alloc: Global, script: &str) -> Vec<UserAct<SetNumber>> {
    let mut acts = Vec::new(alloc);
    for (place, word) in script.split_whitespace().enumerate() {
        acts.push(act_of(rt, word, place)).expect(rt, "memory");
    }
    acts
}

/// Has a board trail the acts of a script.
fn trail<D: Ledger, T: Ledger>(
    rt: &impl Abort,
    board: &mut TrailingBoard<NumberBoard>,
    script: &str,
    draws: &mut Steps<D>,
    tiles: &mut Steps<T>,
) {
    for (place, word) in script.split_whitespace().enumerate() {
        let act = act_of(rt, word, place);
        board.take(act, draws, tiles).expect(rt, "memory");
    }
}

/// The numbers of a board that trailed the acts of a script.
fn trailed<D: Ledger, T: Ledger>(
    rt: &impl Abort,
    alloc: Global,
    (depth, script): (u32, &str),
    draws: &mut Steps<D>,
    tiles: &mut Steps<T>,
) -> [u64; NUMBERS] {
    let blank = NumberBoard::new(alloc, NUMBERS).expect(rt, "memory");
    let mut board = TrailingBoard::new(alloc, depth, blank).expect(rt, "memory");
    trail(rt, &mut board, script, draws, tiles);
    let board = board.finish(draws, tiles).expect(rt, "memory");
    numbers_of(rt, &board)
}

/// The numbers by the plain replay of a script of more than two thousand acts.
fn replayed_script(rt: &impl Abort, alloc: Global, depth: u32, script: &str) -> [u64; NUMBERS] {
    let acts = acts_of(rt, alloc, script);
    assert!(rt; acts.len() > 2000);
    replayed(rt, alloc, depth, &acts)
}

/// Has a board trail some two thousand acts, many more than it holds, and compares at the end.
fn check_trailing<D: Ledger, T: Ledger>(
    rt: &impl Abort,
    alloc: Global,
    depth: u32,
    draws: &mut Steps<D>,
    tiles: &mut Steps<T>,
) {
    let script = script_of(rt, alloc, 200, None);
    let numbers = trailed(rt, alloc, (depth, script.as_str()), draws, tiles);
    assert!(rt; numbers == replayed_script(rt, alloc, depth, script.as_str()));
}

/// Checks scripts, savepoints, two hundred groups of a command, boards that trail, and what is held
/// of a hundred thousand acts, with counters over these blanks.
fn check_all<D: Ledger, T: Ledger>(
    rt: &impl Abort,
    alloc: Global,
    draw_blank: Blank,
    tile_blank: Blank,
)
    requires draws { (draw_blank.name ≡ D.name) × (draw_blank.parts ≡ D.parts)
        × (0 < draw_blank.parts) }
    requires tiles { (tile_blank.name ≡ T.name) × (tile_blank.parts ≡ T.parts)
        × (0 < tile_blank.parts) }
{
    let mut draws = Steps::<D>::new(draw_blank);
    let mut tiles = Steps::<T>::new(tile_blank);
    for (depth, script, changes) in &SCRIPTS {
        let row = (*depth, *script, Some(*changes));
        check_script(rt, alloc, row, &mut draws, &mut tiles);
    }
    check_saves(rt, alloc, &mut draws, &mut tiles);
    let script = script_of(rt, alloc, 200, Some(1));
    for depth in [30, 3] {
        let row = (depth, script.as_str(), None);
        check_script(rt, alloc, row, &mut draws, &mut tiles);
        check_trailing(rt, alloc, depth, &mut draws, &mut tiles);
    }
    check_memory(rt, alloc, &mut draws, &mut tiles);
}

#[test]
fn scripts_and_groups(rt: HostRuntime) {
    few_are_due::<u8>();
    check_all::<Brand, Brand>(&rt, rt.alloc(), Blank::new(1), Blank::new(1));
}
