//! Looking up rows, and going up from a row to its parents.

ghost use Rattle.std.specs.Prelude.{◌≡◌, ◌≤◌, Some, length, position};
ghost use Rattle.std.specs.Prelude.{option_copied, IfOk};
ghost use Rattle.std.specs.List.{list_all};
ghost use Rattle.dp_layers.specs.Layers.{
  has_id,
  row_of,
  has_row,
  is_root_or_group,
  parent_of,
  is_within,
  is_in,
  is_listed_mode,
};
ghost use Rattle.dp_layers.specs.Changes.{can_create, can_stand, can_move, has_effect};
ghost use Rattle.dp_layers.specs.Inside.{as_moved, place_after, gone_ids, IsOnLayers};

use crate::row::LayerRow;
use dp_msg_draw::Draw;
use std::alloc::{AllocError, Global};

/// Groups are nested at most this deep.
const NESTING_LIMIT: usize = 16;

/// The most rows of a list.
const ROW_LIMIT: usize = 256;

/// A row that is to stand in another parent.
#[derive(Clone, Copy)]
pub(crate) struct Moved {
    id: u16,
    parent: u16,
}

/// The place of the row of the id.
pub(crate) fn place_of(rows: &[LayerRow], id: u16) -> Option<usize>
    ensures { result ≡ position (has_id id) rows.now }
{
    rows.iter().position(|row| row.id == id)
}

/// The row of the id.
pub(crate) fn row_of(rows: &[LayerRow], id: u16) -> Option<&LayerRow>
    ensures { option_copied result ≡ row_of rows.now id }
{
    rows.iter().find(|row| row.id == id)
}

/// A row of the id is present.
fn has_row(rows: &[LayerRow], id: u16) -> bool
    ensures { result ≡ has_row rows.now id }
{
    row_of(rows, id).is_some()
}

/// It is the root, or a present group.
fn is_root_or_group(rows: &[LayerRow], id: u16) -> bool
    ensures { result ≡ is_root_or_group rows.now id }
{
    id == 0 || row_of(rows, id).map_or(false, |row| row.group)
}

/// The parent of the row once the moved one stands in its own, 0 if no row has the id.
#[tactic(auto, using(crate::proofs::Layers::row_of_moved))]
fn parent_of(rows: &[LayerRow], moved: Option<Moved>, id: u16) -> u16
    ensures { result ≡ parent_of (as_moved rows.now moved) id }
{
    match (row_of(rows, id), moved) {
        (Some(row), Some(moved)) if row.id == moved.id => moved.parent,
        (Some(row), _) => row.parent,
        (None, _) => 0,
    }
}

/// The row's depth is at most this, once the moved row stands in its parent.
fn is_within(limit: usize, rows: &[LayerRow], moved: Option<Moved>, id: u16) -> bool
    ensures { result ≡ is_within limit (as_moved rows.now moved) id }
{
    let mut at = id;
    for _step in 0..limit {
        if at == 0 {
            return true;
        }
        at = parent_of(rows, moved, at);
    }
    at == 0
}

/// The row is the other one, or below it.
fn is_in(rows: &[LayerRow], id: u16, other: u16) -> bool
    ensures { result ≡ is_in rows.now id other }
{
    let mut at = id;
    for _step in 0..NESTING_LIMIT {
        if at == other {
            return true;
        }
        at = parent_of(rows, None, at);
    }
    at == other
}

/// No row's depth is above the limit, once the moved row stands in its parent.
fn are_within(rows: &[LayerRow], moved: Moved) -> bool
    ensures { result
        ≡ list_all (λ row. is_within 16 (as_moved rows.now (Some moved)) row.id) rows.now }
{
    rows.iter()
        .all(|row| is_within(NESTING_LIMIT, rows, Some(moved), row.id))
}

/// A blend mode has this number.
fn is_listed_mode(mode: u8) -> bool
    ensures { result ≡ is_listed_mode mode }
{
    matches!(mode, 0 | 1 | 2 | 9 | 10 | 255)
}

/// The row may be created.
fn can_create(rows: &[LayerRow], id: u16, parent: u16) -> bool
    ensures { result ≡ can_create rows.now id parent }
{
    id != 0
        && !has_row(rows, id)
        && rows.len() < ROW_LIMIT
        && is_root_or_group(rows, parent)
        && is_within(NESTING_LIMIT - 1, rows, None, parent)
}

/// The row may stand in the parent, after the row `above`.
fn can_stand(rows: &[LayerRow], id: u16, parent: u16, above: u16) -> bool
    ensures { result ≡ can_stand rows.now id parent above }
{
    is_root_or_group(rows, parent)
        && !is_in(rows, parent, id)
        && (above == 0 || has_row(rows, above) && above != id)
}

/// The row is present and may stand there, and then none is nested too deep.
fn can_move(rows: &[LayerRow], id: u16, parent: u16, above: u16) -> bool
    ensures { result ≡ can_move rows.now id parent above }
{
    has_row(rows, id)
        && can_stand(rows, id, parent, above)
        && are_within(rows, Moved { id, parent })
}

/// The command on layers has an effect.
pub(crate) fn has_effect(rows: &[LayerRow], command: &Draw) -> bool
    requires { IsOnLayers command.now }
    ensures { result ≡ has_effect rows.now command.now }
{
    match command {
        Draw::LayerCreate { id, parent, .. } => can_create(rows, *id, *parent),
        Draw::LayerAttr { id, mode, .. } => has_row(rows, *id) && is_listed_mode(*mode),
        Draw::LayerTitle { id, .. } => has_row(rows, *id),
        Draw::LayerMove { id, parent, above } => can_move(rows, *id, *parent, *above),
        Draw::LayerDelete { id } => has_row(rows, *id),
        _ => unreachable!(),
    }
}

/// The place directly after the row `above`, or the first.
pub(crate) fn place_after(rows: &[LayerRow], above: u16) -> usize
    ensures place { result ≡ place_after rows.now above }
    ensures within { result ≤ length rows.now }
{
    if above == 0 {
        0
    } else {
        place_of(rows, above).map_or(0, |at| at + 1)
    }
}

/// The ids of the row of the id and of all rows below it.
pub(crate) fn gone_ids(alloc: Global, rows: &[LayerRow], id: u16) -> Result<Vec<u16>, AllocError>
    ensures { IfOk result (λ gone. gone.items ≡ gone_ids rows.now id) }
{
    rows.iter()
        .filter(|row| is_in(rows, row.id, id))
        .map(|row| row.id)
        .collect(alloc)
}
