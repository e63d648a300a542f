//! What is wrong with a link.

ghost use Rattle.std.specs.Prelude.{◌≤◌, length};

use dp_lines::put_hex;
use dp_row_texts::{Coming, Table, filled, put_numbered};
use std::alloc::{AllocError, Global};

/// What is wrong with a link, and at which of its frames or calls.
#[derive(Clone, Copy)]
pub enum Damage<'a> {
    /// It ends after this many bytes.
    Cut(usize),
    /// A frame that may not stand there is in place of this one.
    Lie(usize, &'a [u8]),
    /// A frame that ends the link is in place of this one.
    End(usize, &'a [u8]),
    /// A painter's frame, of which this is placed, is in place of this one.
    Instead(usize, &'a [u8], &'a [u8]),
    /// The read of this number fails.
    Read(usize),
    /// The write of this number fails.
    Write(usize),
}

/// The frames of a link.
pub fn frames_of(alloc: Global, bytes: &[u8]) -> Result<Vec<&[u8]>, AllocError> {
    let mut frames = Vec::new(alloc);
    let end = put_frames(bytes, &mut frames);
    filled(frames, end)
}

/// Adds the frames of a link.
fn put_frames<'a>(bytes: &'a [u8], frames: &mut Vec<&'a [u8]>) -> Result<(), AllocError> {
    let mut rest = bytes;
    for _ in 0..bytes.len() {
        if rest.is_empty() {
            break;
        }
        let (frame, after) = rest.split_at(frame_len(rest));
        frames.push(frame)?;
        rest = after;
    }
    Ok(())
}

/// How long the first frame is, as its head tells.
fn frame_len(bytes: &[u8]) -> usize
    ensures { result ≤ length bytes.now }
{
    let told = match bytes {
        [high, low, ..] => usize::from(u16::from_be_bytes([*high, *low])),
        _ => 0,
    };
    told.saturating_add(4).min(bytes.len())
}

/// How many frames are whole within `bytes` bytes.
pub fn whole_within(frames: &[&[u8]], bytes: usize) -> usize {
    let mut left = bytes;
    let mut count = 0usize;
    for frame in frames {
        if frame.len() > left {
            break;
        }
        left = left.saturating_sub(frame.len());
        count = count.saturating_add(1);
    }
    count
}

/// Where the frame of this number begins.
pub fn place_of(frames: &[&[u8]], number: usize) -> usize {
    let mut at = 0usize;
    for frame in frames.iter().take(number) {
        at = at.saturating_add(frame.len());
    }
    at
}

impl<'a> Damage<'a> {
    /// The link with this damage, in pieces of this length.
    pub fn done_to(
        self,
        alloc: Global,
        link: &Coming,
        frames: &[&[u8]],
    ) -> Result<Coming, AllocError> {
        let mut damaged = link.copy(alloc)?;
        let end = self.put_on(frames, &mut damaged);
        filled(damaged, end)
    }

    /// Does this damage to a link of these frames.
    fn put_on(self, frames: &[&[u8]], link: &mut Coming) -> Result<(), AllocError> {
        match self {
            Damage::Cut(len) => link.bytes.truncate(len),
            Damage::Lie(k, new) | Damage::End(k, new) | Damage::Instead(k, new, _) => {
                link.bytes.clear();
                put_replaced(frames, k, new, &mut link.bytes)?;
            }
            Damage::Read(call) => link.reads.push(call as u64)?,
            Damage::Write(call) => link.writes.push(call as u64)?,
        }
        Ok(())
    }

    /// Adds its name.
    pub fn put_name(self, out: &mut Vec<u8>) -> Result<(), AllocError> {
        match self {
            Damage::Cut(len) => put_numbered(b"cut ", len as u64, b"", out),
            Damage::Read(call) => put_numbered(b"read ", call as u64, b"", out),
            Damage::Write(call) => put_numbered(b"write ", call as u64, b"", out),
            Damage::Lie(k, new) | Damage::End(k, new) | Damage::Instead(k, new, _) => {
                put_numbered(b"frame ", k as u64, b" is ", out)?;
                put_hex(new, out)
            }
        }
    }
}

/// Adds frames, with this one in place of one.
fn put_replaced(
    frames: &[&[u8]],
    number: usize,
    new: &[u8],
    out: &mut Vec<u8>,
) -> Result<(), AllocError> {
    for (k, frame) in frames.iter().enumerate() {
        out.extend_from_slice(if k == number { new } else { *frame })?;
    }
    Ok(())
}

/// The damages of a link of these frames in pieces of this length.
pub fn damages_of<'a>(
    alloc: Global,
    table: &'a Table,
    frames: &[&[u8]],
    piece: usize,
) -> Result<Vec<Damage<'a>>, AllocError> {
    let mut damages = Vec::new(alloc);
    let end = put_damages(table, frames, piece, &mut damages);
    filled(damages, end)
}

/// Adds the damages of a link.
fn put_damages<'a>(
    table: &'a Table,
    frames: &[&[u8]],
    piece: usize,
    damages: &mut Vec<Damage<'a>>,
) -> Result<(), AllocError> {
    let len = place_of(frames, frames.len());
    for cut in 0..len.saturating_add(1) {
        damages.push(Damage::Cut(cut))?;
    }
    put_frame_damages(table, frames, damages)?;
    put_call_damages(table, len, piece.max(1), damages)
}

/// Adds the damages by frames in place of others.
fn put_frame_damages<'a>(
    table: &'a Table,
    frames: &[&[u8]],
    damages: &mut Vec<Damage<'a>>,
) -> Result<(), AllocError> {
    for (k, frame) in frames.iter().enumerate() {
        put_lies(table, k, frame, damages)?;
        put_ends(table, k, damages)?;
        put_instead(table, k, damages)?;
    }
    Ok(())
}

fn put_lies<'a>(
    table: &'a Table,
    k: usize,
    frame: &[u8],
    damages: &mut Vec<Damage<'a>>,
) -> Result<(), AllocError> {
    for lie in &table.lies {
        if lie.as_slice() != frame {
            damages.push(Damage::Lie(k, lie))?;
        }
    }
    Ok(())
}

fn put_ends<'a>(
    table: &'a Table,
    k: usize,
    damages: &mut Vec<Damage<'a>>,
) -> Result<(), AllocError> {
    for end in &table.ends {
        damages.push(Damage::End(k, end))?;
    }
    Ok(())
}

fn put_instead<'a>(
    table: &'a Table,
    k: usize,
    damages: &mut Vec<Damage<'a>>,
) -> Result<(), AllocError> {
    for pair in table.instead.chunks(2) {
        if let [new, placed] = pair {
            damages.push(Damage::Instead(k, new, placed))?;
        }
    }
    Ok(())
}

/// Adds the reads that fail in turn, and the writes. The reads are as many as a link of this length
/// takes, and the one that finds its end.
fn put_call_damages<'a>(
    table: &'a Table,
    len: usize,
    piece: usize,
    damages: &mut Vec<Damage<'a>>,
) -> Result<(), AllocError>
    requires { 1 ≤ piece }
{
    for call in 0..len.div_ceil(piece).saturating_add(1) {
        damages.push(Damage::Read(call.saturating_add(1)))?;
    }
    let writes = if piece == 1 { table.writes } else { 0 };
    for call in 0..writes {
        damages.push(Damage::Write((call as usize).saturating_add(1)))?;
    }
    Ok(())
}
