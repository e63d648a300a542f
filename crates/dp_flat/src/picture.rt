//! The picture of a board as the bytes of a P6 file and of a P3 file.
//!
//! The rule: docs/protocol.md, "The picture".

ghost use Rattle.std.specs.Prelude.{◌≡◌, ◌+◌, ◌*◌, ◌/◌, ◌<◌, ◌≤◌, [], ◌++◌, length, List, ℕ};
ghost use Rattle.std.specs.Prelude.{Option, min, true};
ghost use Rattle.std.specs.Prelude.{IsErrOf, OnOk, OnErr};
ghost use Rattle.std.specs.List.{flat_map};
ghost use Rattle.std.specs.Io.KnownBytes.{Appends, Keeps};
ghost use Rattle.arrayvec.specs.ArrayVec.{array_vec_len};
ghost use Rattle.dp_io.specs.Faults.{HasCause, any_fault};
ghost use Rattle.dp_io.specs.Streams.{GrowsByPrefix};
ghost use Rattle.dp_pixels.specs.Tiles.{tiles_along};
ghost use Rattle.dp_plain.specs.Picture.{p3, p6, picture_text};
ghost use Rattle.dp_flat.specs.Bands.{HasRows, IsBand, IsLine, chunk_pixels, rgb_text};
ghost use Rattle.dp_flat.specs.Composed.{IsDeep, seen_row};
ghost use Rattle.dp_shown.specs.Ends.{is_sink_fault};
ghost use Rattle.dp_flat.specs.Texts.{GrowsBefore, magic_of, pixel_text_of};

use crate::band::{BLACK, Rgb, draw_band, tiles_along};
use crate::compose::{LEVELS, depth_of};
use crate::text::{
    CHUNK_BYTES, Format, PIECE_BYTES, Piece, SolidText, head_of, push_all, push_chunk, push_solid,
};
use crate::tone::{BUFFER, SIDE};
use crate::workers::{Band, Shown, Slot, draw_ahead, make_slots, next_slot};
use dp_blend::Pixel;
use dp_io::{Failed, Sink, put_all};
use dp_plain::BoardView;
use dp_shown::PictureEnd;
use dp_wire::Gate;
use std::alloc::{AllocError, Global};
use std::marker::Brand;
use std::thread::Threads;

/// Writes the picture of the board as a P6 file, a piece of at most 49152 bytes at a time.
///
/// # Errors
///
/// `Memory` if memory is refused for two tiles (17 if a row is a group) or for the bytes of a row
/// of tiles: nothing was written. `Failed` if the sink failed: a prefix of the file was written.
pub fn write_p6<V: BoardView, S: Sink>(
    alloc: Global,
    board: &V,
    out: &mut S,
) -> Result<(), PictureEnd>
    ensures written { OnOk result
        (Appends (S.held out.old) (S.held out.new) (p6 (V.board board.now))) }
    ensures prefix { GrowsByPrefix (S.held out.old) (S.held out.new) (p6 (V.board board.now)) }
    ensures memory { IsErrOf result PictureEnd.Memory → Keeps (S.held out.old) (S.held out.new) }
    ensures memory_uncounted { IsErrOf result PictureEnd.Memory
        → S.faults out.new ≡ S.faults out.old }
    ensures cause { HasCause is_sink_fault (S.faults out.old) (S.faults out.new) result }
{
    write_picture(alloc, Format::P6, board, out)
}

/// Writes the picture of the board as a P3 file, a piece of at most 49152 bytes at a time.
///
/// # Errors
///
/// `Memory` if memory is refused for two tiles (17 if a row is a group) or for the bytes of a row
/// of tiles: nothing was written. `Failed` if the sink failed: a prefix of the file was written.
pub fn write_p3<V: BoardView, S: Sink>(
    alloc: Global,
    board: &V,
    out: &mut S,
) -> Result<(), PictureEnd>
    ensures written { OnOk result
        (Appends (S.held out.old) (S.held out.new) (p3 (V.board board.now))) }
    ensures prefix { GrowsByPrefix (S.held out.old) (S.held out.new) (p3 (V.board board.now)) }
    ensures memory { IsErrOf result PictureEnd.Memory → Keeps (S.held out.old) (S.held out.new) }
    ensures memory_uncounted { IsErrOf result PictureEnd.Memory
        → S.faults out.new ≡ S.faults out.old }
    ensures cause { HasCause is_sink_fault (S.faults out.old) (S.faults out.new) result }
{
    write_picture(alloc, Format::P3, board, out)
}

/// Writes the picture of the board as a P6 file. `workers` workers, if 0 is 1, draw rows of tiles
/// at the same time, up to two each. A row of tiles passes the gate by its place among those that
/// are drawn with it. A piece of at most 49152 bytes is written at a time.
///
/// # Errors
///
/// `Memory` if memory is refused, of which each row of tiles needs as much as `write_p6`: nothing
/// was written. `Failed` if the sink failed: a prefix of the file was written.
pub fn write_p6_by<R: Threads + Sync, V: BoardView + Sync, S: Sink, G: Gate>(
    rt: &R,
    alloc: Global,
    workers: u32,
    gate: &G,
    board: &V,
    out: &mut S,
) -> Result<(), PictureEnd>
    ensures written { OnOk result
        (Appends (S.held out.old) (S.held out.new) (p6 (V.board board.now))) }
    ensures prefix { GrowsByPrefix (S.held out.old) (S.held out.new) (p6 (V.board board.now)) }
    ensures memory { IsErrOf result PictureEnd.Memory → Keeps (S.held out.old) (S.held out.new) }
    ensures memory_uncounted { IsErrOf result PictureEnd.Memory
        → S.faults out.new ≡ S.faults out.old }
    ensures cause { HasCause is_sink_fault (S.faults out.old) (S.faults out.new) result }
{
    let rows = tiles_along(board.height());
    let together = if workers < 2 {
        1
    } else {
        workers.saturating_mul(2)
    };
    let together = together.min(rows).max(1);
    write_by::<R, V, S, G, Brand>(rt, alloc, workers, gate, board, together, out)
}

/// Writes the picture of the board in the format.
fn write_picture<V: BoardView, S: Sink>(
    alloc: Global,
    format: Format,
    board: &V,
    out: &mut S,
) -> Result<(), PictureEnd>
    ensures written { OnOk result (Appends (S.held out.old) (S.held out.new)
        (picture_text (magic_of format) (pixel_text_of format) (V.board board.now))) }
    ensures prefix { GrowsByPrefix (S.held out.old) (S.held out.new)
        (picture_text (magic_of format) (pixel_text_of format) (V.board board.now)) }
    ensures memory { IsErrOf result PictureEnd.Memory → Keeps (S.held out.old) (S.held out.new) }
    ensures memory_uncounted { IsErrOf result PictureEnd.Memory
        → S.faults out.new ≡ S.faults out.old }
    ensures cause { HasCause is_sink_fault (S.faults out.old) (S.faults out.new) result }
{
    let cols = tiles_along(board.width()) as usize;
    let depth = depth_of(board);
    let mut memory = vec![in alloc; Pixel::CLEAR; BUFFER * (depth + 1)]?;
    let mut colors = vec![in alloc; None; cols]?;
    let mut bytes = vec![in alloc; BLACK; BUFFER * cols]?;
    put_picture(
        format,
        board,
        depth,
        &mut memory,
        &mut colors,
        &mut bytes,
        out,
    )?;
    Ok(())
}

/// Writes the picture of the board in the format, a row of tiles at a time in this memory.
fn put_picture<V: BoardView, S: Sink>(
    format: Format,
    board: &V,
    depth: usize,
    memory: &mut [Pixel],
    colors: &mut [Option<Rgb>],
    bytes: &mut [Rgb],
    out: &mut S,
) -> Result<(), Failed>
    requires some { 1 ≤ depth }
    requires few { depth ≤ LEVELS }
    requires deep { IsDeep (V.board board.now) depth }
    requires long { length memory.old ≡ BUFFER * (depth + 1) }
    requires colors { length colors.old ≡ tiles_along (V.board board.now).width }
    requires bytes { length bytes.old ≡ BUFFER * tiles_along (V.board board.now).width }
    ensures written { OnOk result (Appends (S.held out.old) (S.held out.new)
        (picture_text (magic_of format) (pixel_text_of format) (V.board board.now))) }
    ensures prefix { GrowsByPrefix (S.held out.old) (S.held out.new)
        (picture_text (magic_of format) (pixel_text_of format) (V.board board.now)) }
    ensures cause { HasCause any_fault (S.faults out.old) (S.faults out.new) result }
{
    let (width, height) = (board.width(), board.height());
    let mut solid = SolidText::new(format, BLACK);
    let mut piece = Piece::new();
    push_all(head_of(format, width, height).as_bytes(), &mut piece);
    for row in 0..tiles_along(height) {
        draw_band(board, depth, row, memory, colors, bytes);
        let band = DrawnBand { colors, bytes };
        put_band(format, board, row, band, &mut solid, &mut piece, out)?;
    }
    put_all(out, piece.as_slice())
}

/// Writes the picture of the board in the format, its rows of tiles drawn by workers, up to
/// `together` at the same time.
fn write_by<R: Threads + Sync, V: BoardView + Sync, S: Sink, G: Gate, B: Shown>(
    rt: &R,
    alloc: Global,
    workers: u32,
    gate: &G,
    board: &V,
    together: u32,
    out: &mut S,
) -> Result<(), PictureEnd>
    requires board { V.board board.now ≡ B.shown }
    requires some { 0 < together }
    requires few { together ≤ 64 }
    ensures written { OnOk result
        (Appends (S.held out.old) (S.held out.new) (p6 (V.board board.now))) }
    ensures prefix { GrowsByPrefix (S.held out.old) (S.held out.new) (p6 (V.board board.now)) }
    ensures memory { IsErrOf result PictureEnd.Memory → Keeps (S.held out.old) (S.held out.new) }
    ensures memory_uncounted { IsErrOf result PictureEnd.Memory
        → S.faults out.new ≡ S.faults out.old }
    ensures cause { HasCause is_sink_fault (S.faults out.old) (S.faults out.new) result }
{
    let mut slots: Vec<Slot<'_, V, B>> = make_slots(alloc, board, together)?;
    put_by(rt, workers, gate, Format::P6, board, &mut slots, out)?;
    Ok(())
}

/// Writes the picture of the board in the format, its rows of tiles drawn in the slots by workers.
fn put_by<R: Threads + Sync, V: BoardView + Sync, S: Sink, G: Gate, B: Shown>(
    rt: &R,
    workers: u32,
    gate: &G,
    format: Format,
    board: &V,
    slots: &mut [Slot<'_, V, B>],
    out: &mut S,
) -> Result<(), Failed>
    requires board { V.board board.now ≡ B.shown }
    requires some { 0 < length slots.old }
    requires few { length slots.old ≤ 64 }
    ensures written { OnOk result (Appends (S.held out.old) (S.held out.new)
        (picture_text (magic_of format) (pixel_text_of format) (V.board board.now))) }
    ensures prefix { GrowsByPrefix (S.held out.old) (S.held out.new)
        (picture_text (magic_of format) (pixel_text_of format) (V.board board.now)) }
    ensures cause { HasCause any_fault (S.faults out.old) (S.faults out.new) result }
{
    let (width, height) = (board.width(), board.height());
    let mut solid = SolidText::new(format, BLACK);
    let mut piece = Piece::new();
    push_all(head_of(format, width, height).as_bytes(), &mut piece);
    let mut slot = 0;
    for row in 0..tiles_along(height) {
        if slot == 0 {
            draw_ahead(rt, workers, gate, slots, row);
        }
        let next = next_slot(slot, slots.len());
        let band = slots[slot].get_mut();
        band.draw(row);
        put_drawn(format, board, row, band, &mut solid, &mut piece, out)?;
        slot = next;
    }
    put_all(out, piece.as_slice())
}

/// Adds the text of a row of tiles that is drawn to the piece, and writes the piece if it is full.
fn put_drawn<V: BoardView, S: Sink, B: Shown>(
    format: Format,
    board: &V,
    row: u32,
    drawn: &Band<'_, V, B>,
    solid: &mut SolidText,
    piece: &mut Piece,
    out: &mut S,
) -> Result<(), Failed>
    requires inside { row * 64 < (V.board board.now).height }
    requires board { V.board board.now ≡ B.shown }
    requires row { drawn.now.row ≡ row }
    requires drawn { drawn.now.drawn ≡ true }
    ensures before { OnOk result ((start : Option (List ℕ))
        → HasRows format (V.board board.now) start (S.held out.old) piece.old.items (row * 64)
        → HasRows format (V.board board.now) start (S.held out.new) piece.new.items
        (min (row * 64 + 64) (V.board board.now).height)) }
    ensures prefix { OnErr result ((start : Option (List ℕ))
        → HasRows format (V.board board.now) start (S.held out.old) piece.old.items (row * 64)
        → GrowsByPrefix start (S.held out.new)
        (picture_text (magic_of format) (pixel_text_of format) (V.board board.now))) }
    ensures cause { HasCause any_fault (S.faults out.old) (S.faults out.new) result }
{
    let band = DrawnBand {
        colors: drawn.colors(),
        bytes: drawn.bytes(),
    };
    put_band(format, board, row, band, solid, piece, out)
}

/// A row of tiles as it was drawn: the colour of each tile that has one alone, and the pixels.
#[derive(Clone, Copy)]
struct DrawnBand<'a> {
    colors: &'a [Option<Rgb>],
    bytes: &'a [Rgb],
}

/// Adds the text of a row of tiles to the piece, and writes the piece if it is full.
fn put_band<V: BoardView, S: Sink>(
    format: Format,
    board: &V,
    row: u32,
    band: DrawnBand<'_>,
    solid: &mut SolidText,
    piece: &mut Piece,
    out: &mut S,
) -> Result<(), Failed>
    requires inside { row * 64 < (V.board board.now).height }
    requires colors { length band.colors.now ≡ tiles_along (V.board board.now).width }
    requires bytes { length band.bytes.now ≡ BUFFER * tiles_along (V.board board.now).width }
    requires band { IsBand (V.board board.now) row band.colors.now band.bytes.now }
    ensures before { OnOk result ((start : Option (List ℕ))
        → HasRows format (V.board board.now) start (S.held out.old) piece.old.items (row * 64)
        → HasRows format (V.board board.now) start (S.held out.new) piece.new.items
        (min (row * 64 + 64) (V.board board.now).height)) }
    ensures prefix { OnErr result ((start : Option (List ℕ))
        → HasRows format (V.board board.now) start (S.held out.old) piece.old.items (row * 64)
        → GrowsByPrefix start (S.held out.new)
        (picture_text (magic_of format) (pixel_text_of format) (V.board board.now))) }
    ensures cause { HasCause any_fault (S.faults out.old) (S.faults out.new) result }
{
    let height = board.height();
    let mut line = Line {
        band,
        text: Piece::new(),
        is_known: false,
    };
    line.renew(format, board, row, solid);
    let end = (row * SIDE + SIDE).min(height);
    for y in row * SIDE..end {
        put_next(format, board, y, &line, solid, piece, out)?;
    }
    Ok(())
}

/// A row of tiles, and the text of each of its rows of pixels if it is known that all are the same.
#[derive(Drop)]
struct Line<'a> {
    band: DrawnBand<'a>,
    text: Piece,
    is_known: bool,
}

impl Line<'_> {
    /// Finds the text of the rows of pixels. It is known if each tile is of one colour.
    fn renew<V: BoardView>(&mut self, format: Format, board: &V, row: u32, solid: &mut SolidText)
        requires colors { length self.old.band.colors.now
            ≡ tiles_along (V.board board.now).width }
        requires bytes { length self.old.band.bytes.now
            ≡ BUFFER * tiles_along (V.board board.now).width }
        requires band { IsBand (V.board board.now) row self.old.band.colors.now
            self.old.band.bytes.now }
        ensures band { self.new.band ≡ self.old.band }
        ensures text { IsLine format (V.board board.now) row self.new.is_known
            self.new.text.items }
    {
        self.text.clear();
        self.is_known = push_line(format, board, row, self.band, solid, &mut self.text);
    }
}

/// Adds the text of each row of pixels of a row of tiles, if each tile is of one colour. Says
/// whether so.
fn push_line<V: BoardView>(
    format: Format,
    board: &V,
    row: u32,
    band: DrawnBand<'_>,
    solid: &mut SolidText,
    text: &mut Piece,
) -> bool
    requires colors { length band.colors.now ≡ tiles_along (V.board board.now).width }
    requires bytes { length band.bytes.now ≡ BUFFER * tiles_along (V.board board.now).width }
    requires band { IsBand (V.board board.now) row band.colors.now band.bytes.now }
    requires none { text.old.items ≡ [] }
    ensures { IsLine format (V.board board.now) row result text.new.items }
{
    let width = board.width();
    for col in 0..tiles_along(width) {
        let Some(color) = band.colors[col as usize] else {
            return false;
        };
        if text.remaining_capacity() < CHUNK_BYTES {
            return false;
        }
        let len = SIDE.min(width - col * SIDE) as usize;
        push_solid(format, color, len, solid, text);
    }
    true
}

/// Adds a text to the piece, after the piece was written if it has no room.
fn put_text<S: Sink>(text: &[u8], piece: &mut Piece, out: &mut S) -> Result<(), Failed>
    requires short { length text.now ≤ PIECE_BYTES }
    ensures before { OnOk result (GrowsBefore (S.held out.old) (S.held out.new) piece.new.items
        (piece.old.items ++ text.now)) }
    ensures prefix { OnErr result (GrowsByPrefix (S.held out.old) (S.held out.new)
        piece.old.items) }
    ensures cause { HasCause any_fault (S.faults out.old) (S.faults out.new) result }
{
    make_room(text.len(), piece, out)?;
    push_all(text, piece);
    Ok(())
}

/// Adds the text of the row y to the piece, and writes the piece if it is full.
fn put_next<V: BoardView, S: Sink>(
    format: Format,
    board: &V,
    y: u32,
    line: &Line<'_>,
    solid: &mut SolidText,
    piece: &mut Piece,
    out: &mut S,
) -> Result<(), Failed>
    requires inside { y < (V.board board.now).height }
    requires colors { length line.now.band.colors.now ≡ tiles_along (V.board board.now).width }
    requires bytes { length line.now.band.bytes.now
        ≡ BUFFER * tiles_along (V.board board.now).width }
    requires band { IsBand (V.board board.now) (y / 64) line.now.band.colors.now
        line.now.band.bytes.now }
    requires line { IsLine format (V.board board.now) (y / 64) line.now.is_known
        line.now.text.items }
    ensures before { OnOk result (GrowsBefore (S.held out.old) (S.held out.new) piece.new.items
        (piece.old.items ++ flat_map (pixel_text_of format) (seen_row (V.board board.now) y))) }
    ensures prefix { OnErr result (GrowsByPrefix (S.held out.old) (S.held out.new)
        (piece.old.items ++ flat_map (pixel_text_of format) (seen_row (V.board board.now) y))) }
    ensures cause { HasCause any_fault (S.faults out.old) (S.faults out.new) result }
{
    if line.is_known {
        put_text(line.text.as_slice(), piece, out)
    } else {
        put_row(format, board, y, line.band, solid, piece, out)
    }
}

/// Adds the texts of the pixels of the row y to the piece, chunk by chunk.
fn put_row<V: BoardView, S: Sink>(
    format: Format,
    board: &V,
    y: u32,
    band: DrawnBand<'_>,
    solid: &mut SolidText,
    piece: &mut Piece,
    out: &mut S,
) -> Result<(), Failed>
    requires inside { y < (V.board board.now).height }
    requires colors { length band.colors.now ≡ tiles_along (V.board board.now).width }
    requires bytes { length band.bytes.now ≡ BUFFER * tiles_along (V.board board.now).width }
    requires band { IsBand (V.board board.now) (y / 64) band.colors.now band.bytes.now }
    ensures before { OnOk result (GrowsBefore (S.held out.old) (S.held out.new) piece.new.items
        (piece.old.items ++ flat_map (pixel_text_of format) (seen_row (V.board board.now) y))) }
    ensures prefix { OnErr result (GrowsByPrefix (S.held out.old) (S.held out.new)
        (piece.old.items ++ flat_map (pixel_text_of format) (seen_row (V.board board.now) y))) }
    ensures cause { HasCause any_fault (S.faults out.old) (S.faults out.new) result }
{
    let width = board.width();
    for col in 0..tiles_along(width) {
        let start = col as usize * BUFFER + (y % SIDE) as usize * SIDE as usize;
        let count = SIDE.min(width - col * SIDE) as usize;
        let pixels = &band.bytes[start..start + count];
        put_chunk(format, band.colors[col as usize], pixels, solid, piece, out)?;
    }
    Ok(())
}

/// Adds the texts of the pixels of a chunk to the piece, after the piece was written if it is full.
fn put_chunk<S: Sink>(
    format: Format,
    color: Option<Rgb>,
    pixels: &[Rgb],
    solid: &mut SolidText,
    piece: &mut Piece,
    out: &mut S,
) -> Result<(), Failed>
    requires few { length pixels.now ≤ 64 }
    ensures before { OnOk result (GrowsBefore (S.held out.old) (S.held out.new) piece.new.items
        (piece.old.items ++ flat_map (rgb_text format) (chunk_pixels color pixels.now))) }
    ensures prefix { OnErr result (GrowsByPrefix (S.held out.old) (S.held out.new)
        piece.old.items) }
    ensures cause { HasCause any_fault (S.faults out.old) (S.faults out.new) result }
{
    make_room(CHUNK_BYTES, piece, out)?;
    push_chunk(format, color, pixels, solid, piece);
    Ok(())
}

/// Writes the piece, if it has no room for `count` bytes.
fn make_room<S: Sink>(count: usize, piece: &mut Piece, out: &mut S) -> Result<(), Failed>
    requires { count ≤ PIECE_BYTES }
    ensures room { OnOk result (array_vec_len piece.new + count ≤ PIECE_BYTES) }
    ensures before { OnOk result (GrowsBefore (S.held out.old) (S.held out.new) piece.new.items
        piece.old.items) }
    ensures prefix { OnErr result (GrowsByPrefix (S.held out.old) (S.held out.new)
        piece.old.items) }
    ensures cause { HasCause any_fault (S.faults out.old) (S.faults out.new) result }
{
    if piece.remaining_capacity() >= count {
        return Ok(());
    }
    put_all(out, piece.as_slice())?;
    piece.clear();
    Ok(())
}
