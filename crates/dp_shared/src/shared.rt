//! Lists of what several lists may have in common.

ghost use Rattle.std.specs.Prelude.{◌≡◌, replicate, IfOk};

use std::alloc::{AllocError, Global};
use std::sync::Arc;

/// What several lists may have in common.
pub trait Shareable: Sized + Drop {
    /// Another handle on the same.
    fn share(&self) -> Result<Self, AllocError>
        ensures { IfOk result (λ other. other ≡ self.now) };
}

/// `count` handles on the same.
pub fn repeated<X: Shareable>(alloc: Global, count: usize, item: &X) -> Result<Vec<X>, AllocError>
    ensures { IfOk result (λ items. items.items ≡ replicate count item.now) }
{
    let mut items = Vec::with_capacity(alloc, count)?;
    for _made in 0..count {
        items.push(item.share()?)?;
    }
    Ok(items)
}

// Handles on the same.
fn share_all<X: Shareable>(alloc: Global, items: &[X]) -> Result<Vec<X>, AllocError>
    ensures { IfOk result (λ copies. copies.items ≡ items.now) }
{
    let mut copies = Vec::with_capacity(alloc, items.len())?;
    for item in items {
        copies.push(item.share()?)?;
    }
    Ok(copies)
}

/// Makes a list the caller's alone: a copy of it, if others have it too.
#[inline(never)]
pub fn own<X: Shareable>(alloc: Global, items: &mut Arc<Vec<X>>) -> Result<(), AllocError>
    ensures { items.new.value.items ≡ items.old.value.items }
{
    match Arc::get_mut(items) {
        Some(_sole) => {}
        None => {
            let copies = share_all(alloc, items)?;
            *items = Arc::new(alloc, copies)?;
        }
    }
    Ok(())
}
