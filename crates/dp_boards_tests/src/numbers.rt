//! Rows of numbers by the plain rule.

use dp_board::{Act, NumberBoard, SetNumber, UserAct, drawn_flags};
use std::alloc::Global;
use std::process::Abort;

/// How many numbers the row has.
pub(crate) const NUMBERS: usize = 8;

/// Sets a number, if there is one.
pub(crate) fn set(numbers: &mut [u64; NUMBERS], op: &SetNumber) {
    if op.place < NUMBERS {
        numbers[op.place] = op.value;
    }
}

/// The numbers after the commands that are drawn.
pub(crate) fn replayed(
    rt: &impl Abort,
    alloc: Global,
    depth: u32,
    acts: &[UserAct<SetNumber>],
) -> [u64; NUMBERS] {
    let mut numbers = [0; NUMBERS];
    let flags = drawn_flags(alloc, depth, acts).expect(rt, "memory");
    for (act, drawn) in acts.iter().zip(flags.as_slice()) {
        if let Act::Draw(op) = &act.act
            && *drawn
        {
            set(&mut numbers, op);
        }
    }
    numbers
}

/// The numbers of a board.
pub(crate) fn numbers_of(rt: &impl Abort, board: &NumberBoard) -> [u64; NUMBERS] {
    let mut numbers = [0; NUMBERS];
    for place in 0..NUMBERS {
        numbers[place] = board.get(place).expect(rt, "a number");
    }
    numbers
}

/// The test ends if this doesn't hold after a word of a script.
pub(crate) fn check(rt: &impl Abort, holds: bool, word: &str, script: &str) {
    assert!(rt; holds, "after {word} in {script}");
}
