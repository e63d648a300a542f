//! Trees of contents: changed by a command, or made anew on a canvas of other sides.

ghost use Rattle.std.specs.Prelude.{◌≡◌, ◌+◌, ◌*◌, ◌≤◌, None, Some, if◌then◌else◌, true, false};
ghost use Rattle.std.specs.Prelude.{is_some, map, option_map, All, IfOk, OnOk, OnErr};
ghost use Rattle.std.specs.Option.{ForSome};
ghost use Rattle.dp_blend.specs.Color.{clear};
ghost use Rattle.dp_blend.specs.Canvas.{canvas_of};
ghost use Rattle.dp_layers.specs.Changes.{IsCreate, has_effect, makes_paint_row, rows_after};
ghost use Rattle.dp_layers.specs.Layers.{is_paint_row, row_limit};
ghost use Rattle.dp_layers.specs.Rows.{layers_of, map_contents, contents_of};
ghost use Rattle.dp_layers.specs.Tree.{IsTree};
ghost use Rattle.dp_pixels.specs.Commands.{pixels_after};
ghost use Rattle.dp_plain.specs.Commands.{painted_layer, with_change, IsArranging};
ghost use Rattle.dp_pixels.specs.Resizes.{pixels_resized};
ghost use Rattle.dp_plain.specs.Contents.{ContentsFit, IsHeld};

use crate::plain::PlainPixels;
use dp_layers::{Tree, contents_in_order, one_tree, trees_stay_trees};
use dp_msg_draw::Draw;
use dp_pixels::Resize;
use dp_plain::LayerPixels;
use dp_steps::Steps;
use std::alloc::{AllocError, Global};
use std::sync::ledger::Ledger;

/// What a new row holds: a clear content, if it is a paint row.
pub(crate) fn new_content<C: LayerPixels, T: Ledger>(
    alloc: Global,
    command: &Draw,
    width: u32,
    height: u32,
    tiles: &mut Steps<T>,
) -> Result<Option<C>, AllocError>
    requires create { IsCreate command.now }
    requires wide { width ≤ 4096 }
    requires high { height ≤ 4096 }
    ensures kind { IfOk result (λ content. is_some content ≡ makes_paint_row command.now) }
    ensures fit { IfOk result (λ content. ForSome content (C.fits width height)) }
    ensures pixels { IfOk result (λ content. option_map (C.pixels width height) content
        ≡ (if makes_paint_row command.now then Some (canvas_of width height (λ x y. clear))
        else None)) }
    ensures no_tile { tiles.new ≡ tiles.old }
{
    match command {
        Draw::LayerCreate { group: true, .. } => Ok(None),
        _ => Ok(Some(C::clear(alloc, width, height, tiles)?)),
    }
}

/// Changes the rows by a command that makes none.
pub(crate) fn arrange_rows<X: Drop>(tree: &mut Tree<X>, command: &Draw) -> Result<(), AllocError>
    requires { IsArranging command.now }
    ensures kind { makes_paint_row command.now ≡ false }
    ensures ok { OnOk result (tree.new ≡ rows_after tree.old command.now None) }
    ensures err { OnErr result (tree.new ≡ tree.old) }
    ensures memory { OnErr result (has_effect (layers_of tree.old) command.now ≡ true) }
{
    let _effect = match command {
        Draw::LayerAttr { .. } => tree.attr(command)?,
        Draw::LayerTitle { .. } => tree.title(command)?,
        Draw::LayerMove { .. } => tree.shift(command)?,
        _ => tree.delete(command)?,
    };
    Ok(())
}

/// Draws a command on the content of the paint layer of the id, if there is one.
pub(crate) fn paint_content<C: LayerPixels, T: Ledger>(
    tree: &mut Tree<C>,
    alloc: Global,
    width: u32,
    height: u32,
    id: u16,
    command: &Draw,
    tiles: &mut Steps<T>,
) -> Result<(), AllocError>
    requires paints { is_some (painted_layer command.now) ≡ true }
    requires held { IsHeld C.fits width height tree.old }
    ensures held { IsHeld C.fits width height tree.new }
    ensures ok { OnOk result (map_contents (C.pixels width height) tree.new
        ≡ map (with_change id (pixels_after width height command.now))
        (map_contents (C.pixels width height) tree.old)) }
    ensures err { OnErr result (tree.new ≡ tree.old) }
    ensures memory { OnErr result (is_paint_row (layers_of tree.old) id ≡ true) }
    ensures tiles_rise { tiles.old ≤ tiles.new }
    ensures few_tiles { tiles.new ≤ tiles.old + C.weight command.now }
{
    trees_stay_trees::<C>();
    match tree.content_mut(id) {
        Some(content) => content.paint(alloc, width, height, command, tiles),
        None => Ok(()),
    }
}

/// The tree on a canvas of the new sides.
pub(crate) fn resized_tree<C: LayerPixels, T: Ledger>(
    alloc: Global,
    tree: &Tree<C>,
    change: Resize,
    tiles: &mut Steps<T>,
) -> Result<Tree<C>, AllocError>
    requires { ContentsFit (C.fits change.width change.height) tree.now }
    ensures tree { IfOk result IsTree }
    ensures fit { IfOk result (ContentsFit (C.fits change.new_width change.new_height)) }
    ensures pixels { IfOk result (λ resized.
        map_contents (C.pixels change.new_width change.new_height) resized
        ≡ map_contents (pixels_resized change)
        (map_contents (C.pixels change.width change.height) tree.now)) }
    ensures tiles_rise { tiles.old ≤ tiles.new }
    ensures few_tiles { tiles.new ≤ tiles.old + row_limit * C.resizing }
{
    contents_in_order::<C>();
    one_tree::<PlainPixels>();
    let _rows = tree.rows();
    let resized = tree.remake(resized_contents(alloc, tree, change, tiles)?)?;
    let _resized_rows = resized.rows();
    Ok(resized)
}

/// What the paint rows hold, in order, on a canvas of the new sides.
fn resized_contents<C: LayerPixels, T: Ledger>(
    alloc: Global,
    tree: &Tree<C>,
    change: Resize,
    tiles: &mut Steps<T>,
) -> Result<Vec<C>, AllocError>
    requires { ContentsFit (C.fits change.width change.height) tree.now }
    ensures fit { IfOk result (λ contents.
        All (C.fits change.new_width change.new_height) contents.items) }
    ensures pixels { IfOk result (λ contents.
        map (C.pixels change.new_width change.new_height) contents.items
        ≡ map (pixels_resized change)
        (map (C.pixels change.width change.height) (contents_of tree.now))) }
    ensures tiles_rise { tiles.old ≤ tiles.new }
    ensures few_tiles { tiles.new ≤ tiles.old + row_limit * C.resizing }
{
    contents_in_order::<C>();
    let mut contents = Vec::new(alloc);
    for row in tree.rows() {
        if let Some(content) = tree.content(row.id) {
            contents.push(content.resize(alloc, change, tiles)?)?;
        }
    }
    Ok(contents)
}
