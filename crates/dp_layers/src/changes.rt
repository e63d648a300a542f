//! Changes of the list of rows, and of what the paint rows hold.

ghost use Rattle.std.specs.Prelude.{◌≡◌, ◌≢◌, ◌==◌, ◌⊎◌, not, true, [], ◌∷◌, ◌++◌, map};
ghost use Rattle.std.specs.Prelude.{IfOk, OnOk, OnErr};
ghost use Rattle.std.specs.List.{filter, IsDistinct};
ghost use Rattle.dp_layers.specs.Layers.{has_id, has_row};
ghost use Rattle.dp_layers.specs.Changes.{change_row, set_attr, set_title, set_parent};
ghost use Rattle.dp_layers.specs.Changes.{new_row, placed, has_effect};
ghost use Rattle.dp_layers.specs.Inside.{holding, is_gone, rearranged, IsRearranging};

use crate::held::{Held, hold};
use crate::lookup::{place_after, place_of};
use crate::row::LayerRow;
use dp_msg_draw::{Draw, Title};
use std::alloc::AllocError;

/// A new row: opaque, of the mode normal, and not hidden.
pub(crate) fn new_row(
    id: u16,
    parent: u16,
    group: bool,
    title: &Title,
) -> Result<LayerRow, AllocError>
    ensures { IfOk result (λ row. row ≡ new_row id parent group title.now) }
{
    Ok(LayerRow {
        id,
        parent,
        group,
        title: title.copy()?,
        opacity: 255,
        mode: 1,
        hidden: false,
    })
}

/// Puts a row last, which holds x, if it is no group.
///
/// # Errors
///
/// Both lists are as they were.
pub(crate) fn put_last<X: Drop>(
    rows: &mut Vec<LayerRow>,
    contents: &mut Vec<Held<X>>,
    row: LayerRow,
    x: Option<X>,
) -> Result<(), AllocError>
    ensures rows_ok { OnOk result (rows.new.items ≡ rows.old.items ++ row ∷ []) }
    ensures contents_ok { OnOk result (contents.new.items
        ≡ contents.old.items ++ holding row.id x) }
    ensures rows_err { OnErr result (rows.new.items ≡ rows.old.items) }
    ensures contents_err { OnErr result (contents.new.items ≡ contents.old.items) }
{
    rows.reserve(1)?;
    hold(contents, row.id, x)?;
    if let Err(_full) = rows.push(row) {
        unreachable!();
    }
    Ok(())
}

/// Changes the rows by a LayerAttr, LayerTitle or LayerMove that has an effect.
///
/// # Errors
///
/// The rows are as they were.
pub(crate) fn rearrange(rows: &mut Vec<LayerRow>, command: &Draw) -> Result<(), AllocError>
    requires kind { IsRearranging command.now }
    requires distinct { IsDistinct ◌==◌ (map (λ row. row.id) rows.old.items) }
    requires effect { has_effect rows.old.items command.now ≡ true }
    ensures ok { OnOk result (rows.new.items ≡ rearranged rows.old.items command.now) }
    ensures err { OnErr result (rows.new.items ≡ rows.old.items) }
{
    match command {
        Draw::LayerAttr {
            id,
            opacity,
            mode,
            hidden,
        } => set_attr(rows, *id, *opacity, *mode, *hidden),
        Draw::LayerTitle { id, title } => set_title(rows, *id, title.copy()?),
        Draw::LayerMove { id, parent, above } => {
            set_parent(rows, *id, *parent);
            insert_after(rows, *id, *above);
        }
        _ => unreachable!(),
    }
    Ok(())
}

/// Gives the row of the id this opacity and mode, and hides it or shows it.
fn set_attr(rows: &mut [LayerRow], id: u16, opacity: u8, mode: u8, hidden: bool)
    requires { IsDistinct ◌==◌ (map (λ row. row.id) rows.old) }
    ensures { rows.new ≡ map (change_row id (set_attr opacity mode hidden)) rows.old }
{
    if let Some(place) = place_of(rows, id) {
        let row = &mut rows[place];
        row.opacity = opacity;
        row.mode = mode;
        row.hidden = hidden;
    }
}

/// Gives the row of the id this title.
fn set_title(rows: &mut [LayerRow], id: u16, title: Title)
    requires { IsDistinct ◌==◌ (map (λ row. row.id) rows.old) }
    ensures { rows.new ≡ map (change_row id (set_title title)) rows.old }
{
    if let Some(place) = place_of(rows, id) {
        rows[place].title = title;
    }
}

/// Gives the row of the id this parent.
fn set_parent(rows: &mut [LayerRow], id: u16, parent: u16)
    requires { IsDistinct ◌==◌ (map (λ row. row.id) rows.old) }
    ensures { rows.new ≡ map (change_row id (set_parent parent)) rows.old }
{
    if let Some(place) = place_of(rows, id) {
        rows[place].parent = parent;
    }
}

/// Takes the row of the id out, and puts it directly after the row `above`, or first.
fn insert_after(rows: &mut Vec<LayerRow>, id: u16, above: u16)
    requires distinct { IsDistinct ◌==◌ (map (λ row. row.id) rows.old.items) }
    requires present { has_row rows.old.items id ≡ true }
    requires place { (above ≡ 0) ⊎ ((has_row rows.old.items above ≡ true) × (above ≢ id)) }
    ensures { rows.new.items ≡ placed has_id rows.old.items id above }
{
    let Some(from) = place_of(rows, id) else {
        unreachable!()
    };
    let row = rows.remove(from);
    let to = place_after(rows, above);
    if let Err(_full) = rows.insert(to, row) {
        unreachable!();
    }
}

/// Keeps the rows that don't have these ids.
pub(crate) fn drop_rows(rows: &mut Vec<LayerRow>, gone: &[u16])
    ensures { rows.new.items ≡ filter (λ row. not (is_gone gone.now row.id)) rows.old.items }
{
    rows.retain(|row| !gone.contains(&row.id));
}

/// Keeps what isn't held for these ids.
pub(crate) fn drop_held<X: Drop>(contents: &mut Vec<Held<X>>, gone: &[u16])
    ensures { contents.new.items
        ≡ filter (λ held. not (is_gone gone.now held.id)) contents.old.items }
{
    contents.retain(|held| !gone.contains(&held.id));
}
