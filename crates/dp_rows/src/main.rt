//! `dp_rows`: runs rows of the program over memory, and prints what each gives.
//!
//! Lines of the standard input are rows. A line that is empty or begins with `#` is passed over.
//!
//! - `= NAME TEXT`: the word NAME of the lines below stands for TEXT. In hexadecimal that may be
//!   several words, and `N*WORD` is one N times.
//! - `> WORDS ..`: begins a row of the program's words. A word may also be an option of the row.
//!   `pieces=1,5-9` gives the lengths of the pieces in which it reads and writes (else `1,7,4096`),
//!   and `room=N` how much the output takes. `input=2,7`, `output=..`, `diag=..`, `dial=..`,
//!   `receive=..`, `send=..`, `rows=..` and `put=..` have the calls with these numbers fail,
//!   counted from 1. `each=send` runs the row again with each call of that object failing in turn.
//!   `hold=N` holds job 0 at the gate until job N has passed it, or for a number of turns.
//! - `x WORDS`: bytes of the row's input, in words of hexadecimal, and `N*WORD` as above.
//! - `wire` begins a further wire, and `link WORDS` has the bytes of a link to come. Among its
//!   words `read=3` and `write=..` have these calls on that link fail. `@1:40` is a pause: the
//!   bytes after it come once link 1, counted from 0 over all wires, was sent 40 bytes.
//! - `kept WORDS`: the rows of the store, a word each.
//! - `repeat N LINE ; LINE`: these lines of the row's input, N times.
//! - `table ..`: what is tried with the first link, and what is due then. `lies WORDS` are frames
//!   that carry no message, and `ends WORDS` such as end a link. `instead WORDS` are a painter's
//!   frames, each with what is placed for it. `writes N` has as many writes fail in turn. Of
//!   `join`, `table 4 LINE` is printed after 4 frames, and `table 4 x WORD` sent. Of `serve`,
//!   `placed WORDS` has what is placed for each frame of a link and for its end, `-` for nothing.
//! - Another line is one of the row's input. `|LINE` is one that would be read as something else.
//!
//! For each row it prints its first line, the status, the output, the line on diag after `! `, and
//! what was sent on each link after `sent `. Of a server it prints a line for each link, and each
//! row of the store after `kept `. `passed N` says how often the gate was passed, if it was: by a
//! server's workers, or by jobs of `play` and `drill`. A line says if job 0 was held in vain. A
//! picture of bytes is printed as its head and its pixels, each with how often it stands there. A
//! backslash ends a text that has no newline at its end. What a length of pieces gives otherwise
//! than the first one follows after `differs`. If there is a table, the row runs again with the
//! first link cut after each byte. It runs with each of its frames replaced, and with each of its
//! reads and writes failing. If two wires have a link each, the second link is open before the
//! damaged one begins and until that is over. `tried` says how many runs there were, and `differs`
//! if one gave something else than is due.
#![tactic(auto)]

mod running;

use crate::running::run_rows;
use dp_io::{StdSink, put_all};
use std::io::read_to_string;
use std::process::ExitCode;

fn main(rt: HostRuntime) -> ExitCode {
    let alloc = rt.alloc();
    let mut out = Vec::new(alloc);
    let status = match read_to_string(alloc, rt.stdin()) {
        Ok(text) => run_rows(&rt, alloc, text.as_str(), &mut out),
        Err(_) => 2,
    };
    match put_all(&mut StdSink::new(rt.stdout()), &out) {
        Ok(()) => ExitCode::from(status),
        Err(_) => ExitCode::from(4),
    }
}
