//! What a server is to leave after a damaged link and a whole one.

use crate::damage::{Damage, frames_of, place_of, whole_within};
use crate::joined::read_whole;
use dp_lines::put_hex;
use dp_row_texts::{Answer, Coming, Pause, Row, both, filled, put_numbered, put_parts, put_passes};
use std::alloc::{AllocError, Global};

/// The length of a Welcome's frame.
const WELCOME: usize = 15;

/// How the messages of a painter end.
#[derive(Clone, Copy)]
enum End {
    Over,
    Left,
    ReadFault,
    WriteFault,
    /// A frame at this place carries no message.
    Bad(usize),
}

impl End {
    /// Adds its name.
    fn put(self, out: &mut Vec<u8>) -> Result<(), AllocError> {
        let name: &[u8] = match self {
            End::Over => b"End",
            End::Left => b"Left",
            End::ReadFault => b"ReadFault",
            End::WriteFault => b"WriteFault",
            End::Bad(at) => return put_numbered(b"BadMessage { at: ", at as u64, b" }", out),
        };
        out.extend_from_slice(name)
    }
}

/// A message that a painter says, and what is placed for it.
#[derive(Clone, Copy)]
struct Said<'a> {
    frame: &'a [u8],
    placed: &'a [u8],
}

/// What a painter says before its link ends, and what is placed then. The first message is the
/// Hello. The end is that of the painter's messages.
#[derive(Drop)]
struct Talk<'a> {
    said: Vec<Said<'a>>,
    leave: &'a [u8],
    end: End,
    /// How many bytes the painter can be sent.
    room: usize,
}

/// What the links of a session left so far.
#[derive(Drop)]
struct Past {
    /// The frames of the history.
    history: Vec<u8>,
    /// How many connections there were.
    conns: u8,
    /// The lines of the rows that were kept, and how many they are. Behind the act of each its
    /// worker passes the gate.
    kept: Vec<u8>,
    acts: u64,
}

/// A painter who was greeted: its connection, and its Welcome.
#[derive(Clone, Copy)]
struct Greeted {
    conn: u8,
    welcome: [u8; WELCOME],
}

impl Past {
    /// A session before its first link: its history has the mark of epoch 0.
    fn new(alloc: Global) -> Result<Past, AllocError> {
        let mark = b"\x00\x08\x25\x00\0\0\0\0\0\0\0\0";
        Ok(Past {
            history: Vec::from_slice(alloc, mark)?,
            conns: 0,
            kept: Vec::new(alloc),
            acts: 0,
        })
    }

    /// Keeps a row of these two parts.
    fn keep(&mut self, head: &[u8], rest: &[u8]) -> Result<(), AllocError> {
        self.acts = self.acts.saturating_add(1);
        self.kept.extend_from_slice(b"kept ")?;
        put_hex(head, &mut self.kept)?;
        put_hex(rest, &mut self.kept)?;
        self.kept.extend_from_slice(b"\n")
    }

    /// How many entries the history has.
    fn place(&self, alloc: Global) -> Result<u8, AllocError> {
        let frames = frames_of(alloc, &self.history)?;
        let count = frames.len();
        drop(frames);
        Ok(u8::try_from(count).unwrap_or(u8::MAX))
    }

    /// Opens a connection for a Hello.
    fn open(&mut self, alloc: Global, hello: Said<'_>) -> Result<Greeted, AllocError> {
        let user = hello.placed.get(3).copied().unwrap_or(0);
        let place = self.place(alloc)?;
        self.conns = self.conns.saturating_add(1);
        self.keep(b"\0\0", hello.frame.get(4..).unwrap_or(&[]))?;
        self.history.extend_from_slice(hello.placed)?;
        Ok(Greeted {
            conn: self.conns,
            welcome: [0, 11, 4, 0, 0, 1, user, 0, 0, 0, 0, 0, 0, 0, place],
        })
    }

    /// Says the messages after the Hello.
    fn say_all(&mut self, conn: u8, messages: &[Said<'_>]) -> Result<(), AllocError> {
        for said in messages {
            self.say(conn, *said)?;
        }
        Ok(())
    }

    /// Says a message.
    fn say(&mut self, conn: u8, said: Said<'_>) -> Result<(), AllocError> {
        let kind = said.frame.get(2).copied().unwrap_or(0);
        let payload = said.frame.get(4..).unwrap_or(&[]);
        self.keep(&[3, 0, 0, 0, conn, kind], payload)?;
        self.history.extend_from_slice(said.placed)
    }

    /// Closes a connection.
    fn close(&mut self, conn: u8, leave: &[u8]) -> Result<(), AllocError> {
        self.keep(&[2, 0, 0, 0, conn], &[])?;
        self.history.extend_from_slice(leave)
    }

    /// How many bytes a painter was sent up to now.
    fn sent_len(&self) -> usize {
        WELCOME.saturating_add(self.history.len())
    }

    /// Serves a link whole, and tells of it.
    fn serve(
        &mut self,
        alloc: Global,
        talk: &Talk<'_>,
        link: &[u8],
        answer: &mut Answer,
    ) -> Result<(), AllocError> {
        let Some((hello, messages)) = talk.said.split_first() else {
            put_sent(&[], &[], answer)?;
            return put_not_greeted(link, talk.end, &mut answer.left);
        };
        let greeted = self.open(alloc, *hello)?;
        self.serve_open(talk, messages, greeted, link, answer)
    }

    /// Serves the link of a painter whose connection is open, and tells of it.
    fn serve_open(
        &mut self,
        talk: &Talk<'_>,
        messages: &[Said<'_>],
        greeted: Greeted,
        link: &[u8],
        answer: &mut Answer,
    ) -> Result<(), AllocError> {
        if talk.room < WELCOME {
            self.close(greeted.conn, talk.leave)?;
            put_sent(&greeted.welcome[..talk.room], &[], answer)?;
            return put_not_greeted(link, End::WriteFault, &mut answer.left);
        }
        self.say_all(greeted.conn, messages)?;
        self.close(greeted.conn, talk.leave)?;
        self.put_greeted(talk, greeted, link, answer)
    }

    /// Adds what is told of the link of a painter who was greeted, and what the painter was sent.
    fn put_greeted(
        &self,
        talk: &Talk<'_>,
        greeted: Greeted,
        link: &[u8],
        answer: &mut Answer,
    ) -> Result<(), AllocError> {
        let most = talk.room.saturating_sub(WELCOME).min(self.history.len());
        put_sent(&greeted.welcome, &self.history[..most], answer)?;
        let is_cut = most < self.history.len();
        put_told(link, greeted.conn, talk.end, is_cut, &mut answer.left)
    }

    /// Serves a link, and then another one.
    fn serve_in_turn(
        &mut self,
        alloc: Global,
        one: &Talk<'_>,
        two: &Talk<'_>,
        answer: &mut Answer,
    ) -> Result<(), AllocError> {
        self.serve(alloc, one, b"link 0 0", answer)?;
        self.serve(alloc, two, b"link 0 1", answer)
    }

    /// Serves a link within the time of another one, which is whole.
    fn serve_beside(
        &mut self,
        alloc: Global,
        one: &Talk<'_>,
        two: &Talk<'_>,
        wires: &mut [Vec<Coming>],
        answer: &mut Answer,
    ) -> Result<(), AllocError> {
        let Some((hello, messages)) = two.said.split_first() else {
            return Ok(());
        };
        let greeted = self.open(alloc, *hello)?;
        put_pause(wires, 0, 0, self.sent_len())?;
        self.serve(alloc, one, b"link 0 0", answer)?;
        put_pause(wires, 1, hello.frame.len(), self.sent_len())?;
        self.serve_open(two, messages, greeted, b"link 1 0", answer)
    }
}

/// Adds the line of what a link's painter was sent, with its newline before it.
fn put_sent(first: &[u8], rest: &[u8], answer: &mut Answer) -> Result<(), AllocError> {
    answer.sent.extend_from_slice(b"\nsent ")?;
    put_hex(first, &mut answer.sent)?;
    put_hex(rest, &mut answer.sent)
}

/// Adds what is told of the link of a painter who was greeted. If the link was cut, a write to it
/// failed.
fn put_told(
    link: &[u8],
    conn: u8,
    end: End,
    is_cut: bool,
    left: &mut Vec<u8>,
) -> Result<(), AllocError> {
    left.extend_from_slice(link)?;
    put_numbered(b" conn ", u64::from(conn), b" up ", left)?;
    end.put(left)?;
    left.extend_from_slice(if is_cut {
        b" down WriteFault\n"
    } else {
        b" down Gone\n"
    })
}

/// Adds what is told of the link of a painter who wasn't greeted.
fn put_not_greeted(link: &[u8], end: End, left: &mut Vec<u8>) -> Result<(), AllocError> {
    put_parts(&[link, b" up NotGreeted("], left)?;
    end.put(left)?;
    left.extend_from_slice(b") down NotGreeted\n")
}

/// The first messages of frames, with what is placed for each.
fn said_of<'a>(
    alloc: Global,
    frames: &[&'a [u8]],
    placed: &'a [Vec<u8>],
    count: usize,
) -> Result<Vec<Said<'a>>, AllocError> {
    let mut said = Vec::new(alloc);
    let end = put_first(frames, placed, count, &mut said);
    filled(said, end)
}

/// Adds the first messages of frames.
fn put_first<'a>(
    frames: &[&'a [u8]],
    placed: &'a [Vec<u8>],
    count: usize,
    said: &mut Vec<Said<'a>>,
) -> Result<(), AllocError> {
    let count = count.min(frames.len()).min(placed.len());
    for k in 0..count {
        said.push(Said {
            frame: frames[k],
            placed: &placed[k],
        })?;
    }
    Ok(())
}

/// What a painter says over a link with this damage.
fn talk_of<'a>(
    alloc: Global,
    frames: &[&'a [u8]],
    placed: &'a [Vec<u8>],
    damage: Damage<'a>,
    piece: usize,
) -> Result<Talk<'a>, AllocError> {
    let (count, room) = count_and_room(frames, damage, piece);
    let mut said = said_of(alloc, frames, placed, count)?;
    let put = put_said(damage, &mut said);
    let said = filled(said, put)?;
    let leave = match placed.last() {
        Some(frames) => frames.as_slice(),
        None => &[],
    };
    let end = end_of(frames, damage);
    Ok(Talk {
        said,
        leave,
        end,
        room,
    })
}

/// How many frames of a link with this damage come, and how many bytes can be sent on it.
fn count_and_room(frames: &[&[u8]], damage: Damage<'_>, piece: usize) -> (usize, usize) {
    let all = frames.len();
    match damage {
        Damage::Cut(len) => (whole_within(frames, len), usize::MAX),
        Damage::Lie(k, _) | Damage::End(k, _) => (k, usize::MAX),
        Damage::Instead(0, _, _) => (0, usize::MAX),
        Damage::Instead(_, _, _) => (all, usize::MAX),
        Damage::Read(call) => (read_whole(frames, call, piece), usize::MAX),
        Damage::Write(call) => (all, call.saturating_sub(1)),
    }
}

/// Puts the message of a damage in its place.
fn put_said<'a>(damage: Damage<'a>, said: &mut Vec<Said<'a>>) -> Result<(), AllocError> {
    match damage {
        Damage::Instead(k, frame, placed) => {
            if let Some(there) = said.get_mut(k) {
                *there = Said { frame, placed };
            }
        }
        Damage::End(k, frame) if k > 0 => said.push(Said { frame, placed: &[] })?,
        _ => {}
    }
    Ok(())
}

/// How a painter's messages end by this damage.
fn end_of(frames: &[&[u8]], damage: Damage<'_>) -> End {
    match damage {
        Damage::Lie(k, _) => End::Bad(place_of(frames, k)),
        Damage::End(0, _) | Damage::Instead(0, _, _) => End::Bad(0),
        Damage::End(_, _) => End::Left,
        Damage::Read(_) => End::ReadFault,
        _ => End::Over,
    }
}

/// Puts what a server is to leave whose first link has this damage into an answer. One worker
/// serves both links in turn, or each has a worker, if they have pauses: the whole one begins
/// first, and goes on when its painter was sent that the other one left.
pub fn put_server_answer<'a>(
    alloc: Global,
    row: &'a Row,
    frames: &[&'a [u8]],
    damage: Damage<'a>,
    piece: usize,
    wires: &mut [Vec<Coming>],
    answer: &mut Answer,
) -> Result<(), AllocError> {
    let [placed, others, ..] = row.table.placed.as_slice() else {
        return Ok(());
    };
    let one = talk_of(alloc, frames, placed, damage, piece)?;
    let two = whole_talk(alloc, whole_link(&row.wires), others, piece);
    let talks = both(one, two)?;
    let end = put_talks(alloc, &talks.0, &talks.1, wires, answer);
    drop(talks);
    end
}

/// The same, if this is what the painters say.
fn put_talks(
    alloc: Global,
    one: &Talk<'_>,
    two: &Talk<'_>,
    wires: &mut [Vec<Coming>],
    answer: &mut Answer,
) -> Result<(), AllocError> {
    let mut past = Past::new(alloc)?;
    let end = put_past(alloc, one, two, wires, answer, &mut past);
    drop(past);
    end
}

/// The same after what the links left so far.
fn put_past(
    alloc: Global,
    one: &Talk<'_>,
    two: &Talk<'_>,
    wires: &mut [Vec<Coming>],
    answer: &mut Answer,
    past: &mut Past,
) -> Result<(), AllocError> {
    if wires.len() < 2 {
        past.serve_in_turn(alloc, one, two, answer)?;
    } else {
        past.serve_beside(alloc, one, two, wires, answer)?;
    }
    put_parts(&[&past.kept], &mut answer.left)?;
    put_passes(past.acts, &mut answer.left)
}

/// What a painter says over a link of these bytes that is whole.
fn whole_talk<'a>(
    alloc: Global,
    bytes: &'a [u8],
    placed: &'a [Vec<u8>],
    piece: usize,
) -> Result<Talk<'a>, AllocError> {
    let frames = frames_of(alloc, bytes)?;
    let talk = talk_of(alloc, &frames, placed, Damage::Cut(usize::MAX), piece);
    drop(frames);
    talk
}

/// The bytes of the link that is whole: the last one.
fn whole_link(wires: &[Vec<Coming>]) -> &[u8] {
    if let Some(links) = wires.last() {
        if let Some(link) = links.last() {
            return &link.bytes;
        }
    }
    &[]
}

/// Gives the first link of the wire of this number one pause: its bytes from this place on come
/// when the second link was sent this many bytes.
fn put_pause(
    wires: &mut [Vec<Coming>],
    wire: usize,
    at: usize,
    sent: usize,
) -> Result<(), AllocError> {
    if let Some(links) = wires.get_mut(wire) {
        if let Some(link) = links.first_mut() {
            link.pauses.clear();
            link.pauses.push(Pause { at, link: 1, sent })?;
        }
    }
    Ok(())
}
