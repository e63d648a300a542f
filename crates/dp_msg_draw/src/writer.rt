//! Messages as payloads.
//!
//! The rule: docs/protocol.md, "Drawing messages".

ghost use Rattle.std.specs.Prelude.{◌≡◌, ◌≤◌, ◌+◌, ◌++◌, length, OnOk, OnErr};
ghost use Rattle.dp_msg_draw.specs.Payloads.{draw_payload};

use crate::draw::Draw;
use crate::tails::{put_colors, put_content, put_dabs, put_title};
use dp_fields::Field;
use std::alloc::AllocError;

/// Room for the payloads of most messages, which is made at once.
const ROOM: usize = 48;

/// Puts a message's fields at the end. If memory runs out, some of their bytes may stand there.
#[rattlefmt::skip]
fn put_draw(m: &Draw, out: &mut Vec<u8>) -> Result<(), AllocError>
    ensures spelled { OnOk result (out.new.items ≡ out.old.items ++ draw_payload m.now) }
    ensures short { OnOk result (length (draw_payload m.now) ≤ 65535) }
{
    match *m {
        Draw::CanvasResize { top, right, bottom, left } => ((top, right), (bottom, left)).put(out),
        Draw::LayerCreate { id, parent, group, ref title } => {
            put_title(&(id, (parent, group)), title, out)
        }
        Draw::LayerAttr { id, opacity, mode, hidden } => ((id, opacity), (mode, hidden)).put(out),
        Draw::LayerTitle { id, ref title } => put_title(&id, title, out),
        Draw::LayerMove { id, parent, above } => (id, (parent, above)).put(out),
        Draw::LayerDelete { id } => id.put(out),
        Draw::PutImage { layer, mode, x, y, w, h, ref colors } => {
            put_colors(&((layer, mode), ((x, y), (w, h))), colors, out)
        }
        Draw::FillRect { layer, mode, x, y, w, h, color } => {
            ((layer, mode), (((x, y), (w, h)), color)).put(out)
        }
        Draw::PutTile { layer, col, row, repeat, ref content } => {
            put_content(&((layer, (col, row)), repeat), content, out)
        }
        Draw::Background { color } => color.put(out),
        Draw::DabsRound { layer, x, y, r, g, b, mode, ref dabs } => {
            put_dabs(&((layer, (x, y)), ((r, (g, b)), mode)), dabs, out)
        }
        Draw::DabsSquare { layer, x, y, r, g, b, mode, ref dabs } => {
            put_dabs(&((layer, (x, y)), ((r, (g, b)), mode)), dabs, out)
        }
        Draw::MoveRect { layer, sx, sy, w, h, tx, ty } => {
            (layer, (((sx, sy), (w, h)), (tx, ty))).put(out)
        }
    }
}

/// Adds a message's payload at the end, whether the message has a spelling or not.
///
/// # Errors
///
/// If memory runs out. `out` is then as it was.
pub fn write_draw(m: &Draw, out: &mut Vec<u8>) -> Result<(), AllocError>
    ensures appends { OnOk result (out.new.items ≡ out.old.items ++ draw_payload m.now) }
    ensures short { length out.new.items ≤ length out.old.items + 65535 }
    ensures err { OnErr result (out.new.items ≡ out.old.items) }
{
    let mut payload = Vec::new(*out.allocator());
    payload.reserve(ROOM)?;
    put_draw(m, &mut payload)?;
    out.extend_from_slice(&payload)
}
