//! Lists whose holders share one block of memory.
ghost use Rattle.std.specs.Prelude.{◌≡◌, List, [], IfOk};

use crate::memory::OutOfMemory;
use std::alloc::Global;
use std::marker::Model;
use std::sync::Arc;

/// A list that is made from a `Vec` and never changes. Its holders share the elements.
#[derive(Drop)]
pub struct SharedList<T> {
    block: Option<Arc<Vec<T>>>,
}

impl<T> Model for SharedList<T> {
    ghost use Rattle.std.specs.Prelude.{List};
    ghost use Rattle.ed_base.specs.Shared.{shared_items};

    ghost Value = { List T };

    ghost view = { λ l. shared_items l.block };
}

impl<T: Drop> SharedList<T> {
    /// The list of these elements.
    ///
    /// # Errors
    ///
    /// Memory for the shared block was refused.
    pub fn of(alloc: Global, items: Vec<T>) -> Result<SharedList<T>, OutOfMemory>
        ensures { IfOk result (λ l. l ≡ items.items) }
    {
        if items.is_empty() {
            return Ok(SharedList::empty());
        }
        let block = Some(Arc::new(alloc, items)?);
        Ok(SharedList { block })
    }

    /// The list without elements. It takes no memory.
    pub fn empty() -> SharedList<T>
        ensures { result ≡ [] }
    {
        SharedList { block: None }
    }

    /// The elements.
    pub fn as_slice(&self) -> &[T]
        ensures { result.now ≡ self.now }
    {
        match &self.block {
            None => &[],
            Some(block) => block.as_slice(),
        }
    }

    /// A further holder of the same elements. Nothing is copied.
    ///
    /// # Errors
    ///
    /// A further holder was refused, which counts as want of memory.
    pub fn share(&self) -> Result<SharedList<T>, OutOfMemory>
        ensures { IfOk result (λ l. l ≡ self.now) }
    {
        match &self.block {
            None => Ok(SharedList { block: None }),
            Some(block) => Ok(SharedList {
                block: Some(block.clone()?),
            }),
        }
    }
}
