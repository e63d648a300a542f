//! The commands of a snapshot that make the canvas and its rows, without their pixels.

ghost use Rattle.std.specs.Prelude.{◌≡◌, ◌==◌, ◌∷◌, ◌++◌, [], map, All, OnOk, if◌then◌else◌};
ghost use Rattle.std.specs.List.{flat_map};
ghost use Rattle.dp_msg_draw.specs.Limits.{IsListedMode, IsTitle};
ghost use Rattle.dp_snap.specs.Snapshot.{side_commands, background_commands, create_of};
ghost use Rattle.dp_snap.specs.Snapshot.{moves_after, is_as_created, attrs_of};

use crate::commands::Commands;
use dp_layers::LayerRow;
use dp_msg_draw::{Draw, Title};
use dp_plain::BoardView;
use std::alloc::AllocError;

/// The number of the mode normal.
const NORMAL: u8 = 1;

/// Adds the CanvasResize to the sides of the canvas, if they aren't 0.
pub(crate) fn put_sides<V: BoardView>(canvas: &V, commands: &mut Commands) -> Result<(), AllocError>
    ensures { OnOk result (commands.new ≡ commands.old ++ side_commands (V.board canvas.now)) }
{
    let width = canvas.width();
    if width == 0 {
        return Ok(());
    }
    commands.push(Draw::CanvasResize {
        top: 0,
        right: width as i32,
        bottom: canvas.height() as i32,
        left: 0,
    })
}

/// Adds the Background, if it isn't 0.
pub(crate) fn put_background<V: BoardView>(
    canvas: &V,
    commands: &mut Commands,
) -> Result<(), AllocError>
    ensures { OnOk result
        (commands.new ≡ commands.old ++ background_commands (V.board canvas.now)) }
{
    let color = canvas.background();
    if color == 0 {
        return Ok(());
    }
    commands.push(Draw::Background { color })
}

/// Adds a LayerCreate of each row, at the root.
pub(crate) fn put_creates(rows: &[LayerRow], commands: &mut Commands) -> Result<(), AllocError>
    ensures { OnOk result (commands.new ≡ commands.old ++ map create_of rows.now) }
{
    for row in rows {
        let _bytes = row.title.as_slice();
        put_create(row.id, row.group, row.title.copy()?, commands)?;
    }
    Ok(())
}

/// Adds a LayerCreate, at the root.
fn put_create(id: u16, group: bool, title: Title, commands: &mut Commands) -> Result<(), AllocError>
    requires { IsTitle title }
    ensures { OnOk result
        (commands.new ≡ commands.old ++ Draw.LayerCreate id 0 group title ∷ []) }
{
    commands.push(Draw::LayerCreate {
        id,
        parent: 0,
        group,
        title,
    })
}

/// Adds a LayerMove of each row that isn't at the root, directly after the row before it.
pub(crate) fn put_moves(rows: &[LayerRow], commands: &mut Commands) -> Result<(), AllocError>
    ensures { OnOk result (commands.new ≡ commands.old ++ moves_after 0 rows.now) }
{
    let mut above = 0;
    for row in rows {
        put_move(row.id, row.parent, above, commands)?;
        above = row.id;
    }
    Ok(())
}

/// Adds a LayerMove into the parent, if that isn't the root.
fn put_move(id: u16, parent: u16, above: u16, commands: &mut Commands) -> Result<(), AllocError>
    ensures { OnOk result (commands.new ≡ commands.old
        ++ (if parent == 0 then [] else Draw.LayerMove id parent above ∷ [])) }
{
    if parent == 0 {
        return Ok(());
    }
    commands.push(Draw::LayerMove { id, parent, above })
}

/// Adds a LayerAttr of each row that isn't as one is created.
pub(crate) fn put_attrs(rows: &[LayerRow], commands: &mut Commands) -> Result<(), AllocError>
    requires { All (λ row. IsListedMode row.mode) rows.now }
    ensures { OnOk result (commands.new ≡ commands.old ++ flat_map attrs_of rows.now) }
{
    for row in rows {
        if !is_as_created(row) {
            put_attr(row.id, row.opacity, row.mode, row.hidden, commands)?;
        }
    }
    Ok(())
}

/// Whether the row is as one is created.
fn is_as_created(row: &LayerRow) -> bool
    ensures { result ≡ is_as_created row.now }
{
    row.opacity == u8::MAX && row.mode == NORMAL && !row.hidden
}

/// Adds a LayerAttr.
fn put_attr(
    id: u16,
    opacity: u8,
    mode: u8,
    hidden: bool,
    commands: &mut Commands,
) -> Result<(), AllocError>
    requires { IsListedMode mode }
    ensures { OnOk result
        (commands.new ≡ commands.old ++ Draw.LayerAttr id opacity mode hidden ∷ []) }
{
    commands.push(Draw::LayerAttr {
        id,
        opacity,
        mode,
        hidden,
    })
}
