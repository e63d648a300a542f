//! The list of rows, which trees share until one of them changes it.

ghost use Rattle.std.specs.Prelude.{◌≡◌, [], IfOk};
ghost use Rattle.std.specs.Borrow.{sem};
ghost use Rattle.dp_layers.specs.Lends.{lends_rows};

use crate::row::LayerRow;
use std::alloc::{AllocError, Global};
use std::marker::Model;
use std::sync::Arc;

/// A list of rows. It is seen as that list.
#[derive(Drop)]
pub(crate) struct Rows {
    list: Option<Arc<Vec<LayerRow>>>,
}

impl Model for Rows {
    ghost use Rattle.std.specs.Prelude.{List, []};
    ghost use Rattle.std.specs.Option.{option_map_or};
    ghost use Rattle.dp_layers.specs.declared.row.LayerRow.{LayerRow as Layer};

    ghost Value = { List Layer };

    ghost view = { λ r. option_map_or (λ list. list.value.items) r.list [] };
}

impl Rows {
    /// No row. It takes no memory.
    pub(crate) fn none() -> Rows
        ensures { result ≡ [] }
    {
        Rows { list: None }
    }

    /// The rows.
    pub(crate) fn as_slice(&self) -> &[LayerRow]
        ensures { result.now ≡ self.now }
    {
        match &self.list {
            None => &[],
            Some(list) => list.as_slice(),
        }
    }

    /// Another handle on the rows. It costs the same whatever their number.
    pub(crate) fn share(&self) -> Result<Rows, AllocError>
        ensures { IfOk result (λ rows. rows ≡ self.now) }
    {
        match &self.list {
            None => Ok(Rows { list: None }),
            Some(list) => {
                let list = list.clone()?;
                Ok(Rows { list: Some(list) })
            }
        }
    }

    /// Makes the list this tree's alone: a copy, if others have it too.
    fn own(&mut self, alloc: Global) -> Result<(), AllocError>
        ensures { self.new ≡ self.old }
    {
        match &mut self.list {
            None => {
                self.list = Some(Arc::new(alloc, Vec::new(alloc))?);
                Ok(())
            }
            Some(list) => own_list(alloc, list),
        }
    }

    /// The rows to change: no other tree sees the change.
    ///
    /// # Errors
    ///
    /// The rows are as they were.
    pub(crate) fn sole(&mut self, alloc: Global) -> Result<&mut Vec<LayerRow>, AllocError>
        ensures* writes_back { sem 𝓛 (lends_rows self.entry result) }
        ensures value { IfOk result (λ list. list.now.items ≡ self.old) }
    {
        self.own(alloc)?;
        match &mut self.list {
            None => Err(AllocError),
            Some(list) => match Arc::get_mut(list) {
                None => Err(AllocError),
                Some(sole) => Ok(sole),
            },
        }
    }
}

/// Makes the list the caller's alone: a copy, if others have it too.
fn own_list(alloc: Global, list: &mut Arc<Vec<LayerRow>>) -> Result<(), AllocError>
    ensures { list.new.value.items ≡ list.old.value.items }
{
    match Arc::get_mut(list) {
        Some(_sole) => {}
        None => {
            let copy = list.as_slice().to_vec(alloc)?;
            *list = Arc::new(alloc, copy)?;
        }
    }
    Ok(())
}
