//! Which commands of a history are drawn, and what each act moves and joins.

use dp_board::{
    Act, Join, StrokeTable, UserAct, commands_do_not_count, drawn_flags, each_act_has_a_flag,
    final_flags_stay, flags_go_on, groups_are_points, groups_come_first, strokes_go_on,
    tables_follow, window_is_of_last_points,
};
use std::alloc::Global;
use std::process::Abort;

/// What the letter S sets the depth to, by its digit.
static DEPTHS: [u8; 4] = [1, 2, 30, 255];

/// The test ends if this doesn't hold of a word or a script.
fn check(rt: &impl Abort, holds: bool, words: &str) {
    assert!(rt; holds, "at {words}");
}

/// The three letters of a word.
fn letters_of(rt: &impl Abort, word: &str) -> (u8, u8, u8) {
    let [user, kind, last] = word.as_bytes() else {
        panic!(rt; "{word} has not three letters");
    };
    (*user, *kind, *last)
}

/// The act of a word: its user, what it does (Point, Draw, Undo, Redo, Set the depth, Other) and
/// the user of an Undo or a Redo. A Draw that is expected to be drawn ends in `+`.
fn act_of(rt: &impl Abort, word: &str) -> UserAct<u8> {
    let (user, kind, last) = letters_of(rt, word);
    check(
        rt,
        matches!(kind, b'P' | b'D' | b'U' | b'R' | b'S' | b'O'),
        word,
    );
    let act = match kind {
        b'P' => Act::Point,
        b'D' => Act::Draw(last),
        b'U' => Act::Undo { who: last },
        b'R' => Act::Redo { who: last },
        b'S' => Act::Depth(DEPTHS[usize::from(last) % 4]),
        _ => Act::Other,
    };
    UserAct { user, act }
}

/// Adds the acts of a script, which has a word for each.
fn push_acts(rt: &impl Abort, acts: &mut Vec<UserAct<u8>>, script: &str) {
    for word in script.split_whitespace() {
        acts.push(act_of(rt, word)).expect(rt, "memory");
    }
}

/// Whether each command is drawn, and no other act, that `push_acts` made for it.
fn is_as_expected(acts: &[UserAct<u8>], flags: &[bool]) -> bool {
    acts.iter().zip(flags).all(|(act, drawn)| matches!(act.act, Act::Draw(b'+')) == *drawn)
}

/// The depth of undo, and a history: one script, points of user 2 and another script.
static HISTORIES: [(u32, &str, u32, &str); 42] = [
    // A depth that is set: 1, 2, 30 or 255 (S0 to S3).
    (30, "1S0 1P. 1D-", 0, "1U1"),
    (30, "1S0 1P. 1D+", 1, "1S3 1U1"),
    (30, "1S1 1P. 1D-", 1, "1U1"),
    (30, "1P. 1D+", 1, "1S0 1S3 1U1"),
    (30, "1P. 1D+ 1U1 1S0 1R1", 0, ""),
    (30, "2S0 1P. 1D+", 1, "1U1"),
    (30, "", 0, ""),
    (30, "1P. 1D- 1U1", 0, ""),
    (30, "1P. 1D- 1D- 1U1", 0, ""),
    (30, "1D+ 1P. 1D- 1U1", 0, ""),
    // Group 0 is never undone.
    (30, "1D+ 1U1 1U1", 0, ""),
    (30, "1D+ 1P. 1D- 1U1 1U1", 0, ""),
    // Each of these rows has more acts of one history.
    (30, "1P. 1D+", 0, ""),
    (30, "1P. 1D+ 1U1 1R1", 0, ""),
    (30, "1P. 1D+ 1U1 1R1 1R1", 0, ""),
    (30, "1P. 1D- 1U1 1R1 1R1 1U1", 0, ""),
    (30, "1P. 1D- 1U1 1R1 1R1 1U1 1D+", 0, ""),
    (30, "1P. 1D- 1U1 1R1 1R1 1U1 1D+ 1R1", 0, ""),
    // Undo and redo of another user's group.
    (30, "1P. 1D- 2U1", 0, ""),
    (30, "2P. 2D- 1P. 1D+ 1U2", 0, ""),
    (30, "1P. 1D+ 2U1 2R1", 0, ""),
    // A point and a command of the user empty the undone groups; those of another do not.
    (30, "1P. 1D- 1U1 1P. 1R1 1D+", 0, ""),
    (30, "1P. 1D- 1U1 1D+ 1R1", 0, ""),
    (30, "1P. 1D+ 1U1 2P. 2D+ 1R1", 0, ""),
    // The latest undone group comes back first, and a command joins the last done group.
    (30, "1P. 1D+ 1P. 1D- 1U1 1U1 1R1", 0, ""),
    (30, "1P. 1D+ 1P. 1D- 1U1 1D+", 0, ""),
    (30, "1P. 1D- 1P. 1D- 1U1 1D- 1U1", 0, ""),
    (30, "1P. 2P. 1D- 2D+ 1D- 2D+ 1U1", 0, ""),
    (30, "1O. 1P. 1O. 1D+ 1O.", 0, ""),
    // The last points of all are in reach.
    (30, "1P. 1D-", 29, "1U1"),
    (30, "1P. 1D+", 30, "1U1"),
    (30, "1P. 1D+", 30, ""),
    (30, "1P. 1D+ 1U1", 29, "1R1"),
    (30, "1P. 1D- 1U1", 30, "1R1"),
    // Redo passes over a group that is out of reach.
    (30, "1P. 1D+ 1P. 1D- 1U1 1U1", 28, "1R1"),
    (30, "1P. 1D- 1P. 1D+ 1U1 1U1", 29, "1R1"),
    (30, "1P. 1D- 1P. 1D- 1U1 1U1", 30, "1R1"),
    // Other depths.
    (0, "1P. 1D+", 0, "1U1"),
    (1, "1P. 1D-", 0, "1U1"),
    (1, "1P. 1D+", 1, "1U1"),
    (1, "1P. 1D+ 1P. 1D-", 0, "1U1 1U1"),
    (2, "1P. 1D- 1P. 1D-", 0, "1U1 1U1"),
];

/// Adds points of user 2.
fn push_points(rt: &impl Abort, acts: &mut Vec<UserAct<u8>>, points: u32) {
    for _ in 0..points {
        let point = UserAct {
            user: b'2',
            act: Act::Point,
        };
        acts.push(point).expect(rt, "memory");
    }
}

/// Each act has a flag, and each command is drawn as expected.
fn check_flags(rt: &impl Abort, alloc: Global, depth: u32, acts: &[UserAct<u8>], words: &str) {
    let flags = drawn_flags(alloc, depth, acts).expect(rt, "memory");
    check(rt, flags.len() == acts.len(), words);
    check(rt, is_as_expected(acts, &flags), words);
}

/// The acts of a history, and what is drawn of them.
fn check_history(
    rt: &impl Abort,
    alloc: Global,
    (depth, first, points, last): (u32, &str, u32, &str),
) {
    let mut acts = Vec::new(alloc);
    push_acts(rt, &mut acts, first);
    push_points(rt, &mut acts, points);
    push_acts(rt, &mut acts, last);
    check_flags(rt, alloc, depth, &acts, first);
}

#[test]
fn drawn_commands(rt: HostRuntime) {
    for row in &HISTORIES {
        check_history(&rt, rt.alloc(), *row);
    }
}

/// Ten thousand groups of ten commands. Every third is undone, and every second of these comes
/// back.
#[test]
fn many(rt: HostRuntime) {
    let mut acts = Vec::new(rt.alloc());
    let group = "1P. 1D. 1D. 1D. 1D. 1D. 1D. 1D. 1D. 1D. 1D.";
    for number in 0..10_000_u32 {
        push_acts(&rt, &mut acts, group);
        let moves = match number % 6 {
            0 => "1U1 1R1",
            3 => "1U1",
            _ => "",
        };
        push_acts(&rt, &mut acts, moves);
    }
    let flags = drawn_flags(rt.alloc(), 30, &acts).expect(&rt, "memory");
    assert!(rt; flags.iter().filter(|flag| **flag).count() == 83_330);
}

/// An act of user 1.
fn of_one(act: Act<()>) -> UserAct<()> {
    UserAct { user: 1, act }
}

#[test]
fn without_commands(rt: HostRuntime) {
    commands_do_not_count::<u8, ()>();
    each_act_has_a_flag::<u8>();
    strokes_go_on::<u8>();
    window_is_of_last_points::<u8>();
    groups_are_points::<u8>();
    groups_come_first::<u8>();
    flags_go_on::<u8>();
    final_flags_stay::<u8>();
    tables_follow::<u8>();
    let acts = [
        of_one(Act::Point),
        of_one(Act::Draw(())),
        of_one(Act::Undo { who: 1 }),
        of_one(Act::Draw(())),
    ];
    let flags = drawn_flags(rt.alloc(), 30, &acts).expect(&rt, "memory");
    assert!(rt; flags.as_slice() == [false, false, false, true].as_slice());
}

/// The digit of a group, of which there are few.
fn digit(group: usize) -> u8 {
    b'0' + (group % 10) as u8
}

/// The letter of what an act joins: `-` for nothing, `.` for group 0, and the digit of any other.
fn joined(join: Join) -> u8 {
    match join {
        Join::NoCommand => b'-',
        Join::GroupZero => b'.',
        Join::InGroup { group, .. } => digit(group),
    }
}

/// The letter of what an act moves: `-` for nothing.
fn moved(group: Option<usize>) -> u8 {
    match group {
        Some(group) => digit(group),
        None => b'-',
    }
}

/// The letter stands at this place.
fn has(letters: &str, place: usize, letter: u8) -> bool {
    letters.as_bytes().get(place) == Some(&letter)
}

/// Takes an act, in place or not.
fn take(
    rt: &impl Abort,
    alloc: Global,
    table: &mut StrokeTable,
    act: &UserAct<u8>,
    in_place: bool,
) {
    let taken = if in_place {
        table.advance(act)
    } else {
        table.take(alloc, act)
    };
    taken.expect(rt, "memory");
}

/// Takes the acts of a script at depth 2 one by one, in place or not. What each moves (`-` for
/// nothing) and joins has these letters.
fn check_moves(
    rt: &impl Abort,
    alloc: Global,
    (script, moves, joins): (&str, &str, &str),
    in_place: bool,
) {
    let mut table = StrokeTable::new(alloc, 2).expect(rt, "memory");
    assert!(rt; (table.position(), table.oldest()) == (0, 0));
    for (k, word) in script.split_whitespace().enumerate() {
        let act = act_of(rt, word);
        check(rt, has(moves, k, moved(table.moved(&act))), script);
        check(rt, has(joins, k, joined(table.join_of(&act))), script);
        take(rt, alloc, &mut table, &act, in_place);
    }
}

/// A script, what each of its acts moves, and what it joins.
static MOVES: [(&str, &str, &str); 6] = [
    ("1D. 1P. 1D. 1U1 1D. 1R1", "---1--", ".-1-.-"),
    ("1P. 1D. 2U1 2D. 1R1 1D.", "--0-0-", "-0-.-0"),
    // A depth that is set.
    ("1P. 1P. 1S0 1U1 1U1", "---1-", "-----"),
    ("1S3 1P. 1P. 1P. 1U1 1U1 1U1 1D.", "----321-", "-------."),
    // The first of three groups is out of reach, and commands join it after two undos.
    ("1P. 1P. 1P. 1U1 1U1 1U1 1D. 1R1", "---21---", "------0-"),
    (
        "1P. 1P. 1P. 1P. 1P. 1U1 1U1 1U1 1R1 1D.",
        "-----43-3-",
        "---------3",
    ),
];

#[test]
fn one_act_at_a_time(rt: HostRuntime) {
    for row in &MOVES {
        check_moves(&rt, rt.alloc(), *row, false);
        check_moves(&rt, rt.alloc(), *row, true);
    }
}
