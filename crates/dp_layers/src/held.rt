//! What the paint rows hold, by the rows' ids.

ghost use Rattle.std.specs.Prelude.{◌≡◌, ◌==◌, ◌++◌, position, option_copied, IfOk};
ghost use Rattle.std.specs.Prelude.{OnOk, OnErr};
ghost use Rattle.dp_layers.specs.Inside.{held_by, holding, paired};

use crate::row::LayerRow;
use crate::share::Share;
use std::alloc::AllocError;

/// What the paint row of the id holds.
#[derive(Drop)]
pub(crate) struct Held<X> {
    pub(crate) id: u16,
    pub(crate) x: X,
}

/// The place of what is held for the id.
pub(crate) fn place_of_held<X>(contents: &[Held<X>], id: u16) -> Option<usize>
    ensures { result ≡ position (λ held. held.id == id) contents.now }
{
    contents.iter().position(|held| held.id == id)
}

/// What is held for the id.
pub(crate) fn held_by<X>(contents: &[Held<X>], id: u16) -> Option<&X>
    ensures { option_copied result ≡ held_by contents.now id }
{
    match contents.iter().find(|held| held.id == id) {
        Some(held) => Some(&held.x),
        None => None,
    }
}

/// Holds x for the id, or nothing.
///
/// # Errors
///
/// The contents are as they were.
pub(crate) fn hold<X: Drop>(
    contents: &mut Vec<Held<X>>,
    id: u16,
    x: Option<X>,
) -> Result<(), AllocError>
    ensures ok { OnOk result (contents.new.items ≡ contents.old.items ++ holding id x) }
    ensures err { OnErr result (contents.new.items ≡ contents.old.items) }
{
    if let Some(x) = x {
        contents.push(Held { id, x })?;
    }
    Ok(())
}

/// The contents for the paint rows of these: the first for the bottom one, and so on.
pub(crate) fn paired<X: Drop>(
    rows: &[LayerRow],
    contents: Vec<X>,
) -> Result<Vec<Held<X>>, AllocError>
    ensures { IfOk result (λ held. held.items ≡ paired rows.now contents.items) }
{
    let mut held = Vec::new(*contents.allocator());
    let mut rest = contents.into_iter();
    for row in rows {
        let x = if row.group { None } else { rest.next() };
        hold(&mut held, row.id, x)?;
    }
    Ok(held)
}

/// What is held, once more for the same ids and in the same order.
pub(crate) fn share_held<X: Share + Drop>(
    contents: &Vec<Held<X>>,
) -> Result<Vec<Held<X>>, AllocError>
    ensures { IfOk result (λ shares. shares.items ≡ contents.now.items) }
{
    let mut shares = Vec::with_capacity(*contents.allocator(), contents.len())?;
    for held in contents {
        let x = held.x.share()?;
        shares.push(Held { id: held.id, x })?;
    }
    Ok(shares)
}
