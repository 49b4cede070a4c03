//! Change lists in normal form.
ghost use Rattle.std.specs.Prelude.{◌≡◌, ◌+◌, ◌<◌, ◌^◌, [], length, IfOk, slice_get, slice_index};
ghost use Rattle.ed_base.specs.ChangeList.{AreNormalFrom, IsNormal, new_len};
ghost use Rattle.ed_base.specs.NewStarts.{new_starts};

use crate::edit::Change;
use crate::memory::OutOfMemory;
use std::alloc::Global;
use std::marker::Model;
use std::sync::Arc;

/// What the holders of a change list share: the changes, and where each begins in the new text.
#[derive(Drop)]
struct Block {
    changes: Vec<Change>,
    new_starts: Vec<u32>,
}

/// What a step does to a text: the length of the old text, and the changes by rising place, with a
/// kept unit between any two of them. Its holders share the changes.
///
/// Both lengths are below 2^32 units.
#[derive(Drop)]
pub struct Changes {
    old_len: u32,
    new_len: u32,
    block: Option<Arc<Block>>,
}

impl Model for Changes {
    ghost use Rattle.ed_base.specs.ChangeList.{ChangeList};

    ghost Value = { ChangeList };

    ghost use Rattle.ed_base.specs.Indexed.{IsIndexed, block_changes, block_starts};

    ghost view = { λ c. record { old_len = c.old_len; changes = block_changes c.block } };

    ghost invariant = { λ c. IsIndexed (record { old_len = c.old_len; changes = block_changes c.block })
        (block_starts c.block) c.new_len };
}

/// Where each change begins in the new text, and the length of the new text.
fn indexed(alloc: Global, old_len: u32, changes: &[Change]) -> Result<(Vec<u32>, u32), OutOfMemory>
    requires normal { AreNormalFrom 0 old_len changes.now }
    requires fits { new_len (record { old_len = old_len; changes = changes.now }) < 2 ^ 32 }
    ensures starts { IfOk result (λ r. r.0.items ≡ new_starts (record { old_len = old_len; changes = changes.now })) }
    ensures len { IfOk result (λ r. r.1 ≡ new_len (record { old_len = old_len; changes = changes.now })) }
{
    let mut starts = Vec::new(alloc);
    let mut old_end = 0u32;
    let mut new_end = 0u32;
    for change in changes {
        let start = new_end + (change.start - old_end);
        starts.push(start)?;
        old_end = change.start + change.old_len;
        new_end = start + change.text.as_slice().len() as u32;
    }
    Ok((starts, new_end + (old_len - old_end)))
}

impl Changes {
    /// The change list of these changes of a text of `old_len` units.
    ///
    /// # Errors
    ///
    /// Memory was refused.
    pub fn of(alloc: Global, old_len: u32, list: Vec<Change>) -> Result<Changes, OutOfMemory>
        requires normal { AreNormalFrom 0 old_len list.items }
        requires fits { new_len (record { old_len = old_len; changes = list.items }) < 2 ^ 32 }
        ensures { IfOk result (λ c. c ≡ record { old_len = old_len; changes = list.items }) }
    {
        if list.is_empty() {
            return Ok(Changes::none(old_len));
        }
        let (new_starts, new_len) = indexed(alloc, old_len, &list)?;
        let block = Block {
            changes: list,
            new_starts,
        };
        Ok(Changes {
            old_len,
            new_len,
            block: Some(Arc::new(alloc, block)?),
        })
    }

    /// The change list of a text of `old_len` units that changes nothing. It takes no memory.
    pub fn none(old_len: u32) -> Changes
        ensures { result ≡ record { old_len = old_len; changes = [] } }
    {
        Changes {
            old_len,
            new_len: old_len,
            block: None,
        }
    }

    /// The length of the old text, in units.
    pub fn old_len(&self) -> u32
        ensures { result ≡ self.now.old_len }
    {
        self.old_len
    }

    /// The length of the new text, in units.
    pub fn new_len(&self) -> u32
        ensures { result ≡ new_len self.now }
    {
        self.new_len
    }

    /// The changes, by rising place.
    pub fn as_slice(&self) -> &[Change]
        ensures changes { result.now ≡ self.now.changes }
        ensures normal { IsNormal self.now }
        ensures old_short { self.now.old_len < 2 ^ 32 }
        ensures few { length self.now.changes < 2 ^ 32 }
    {
        match &self.block {
            None => &[],
            Some(block) => block.changes.as_slice(),
        }
    }

    /// How many changes there are.
    pub fn count(&self) -> u32
        ensures { result ≡ length self.now.changes }
    {
        self.as_slice().len() as u32
    }

    /// The change with this index, from 0 on.
    pub fn get(&self, i: u32) -> &Change
        requires { i < length self.now.changes }
        ensures { slice_get self.now.changes i ≡ Some result.now }
    {
        &self.as_slice()[i as usize]
    }

    /// Where each change begins in the new text, in units.
    fn new_starts(&self) -> &[u32]
        ensures { result.now ≡ new_starts self.now }
    {
        match &self.block {
            None => &[],
            Some(block) => block.new_starts.as_slice(),
        }
    }

    /// Where the change with this index begins in the new text, in units.
    pub fn new_start(&self, i: u32) -> u32
        requires { i < length self.now.changes }
        ensures { result ≡ slice_index (new_starts self.now) i }
    {
        self.new_starts()[i as usize]
    }

    /// A further holder of the same changes. Nothing is copied.
    ///
    /// # Errors
    ///
    /// A further holder was refused, which counts as want of memory.
    pub fn share(&self) -> Result<Changes, OutOfMemory>
        ensures { IfOk result (λ c. c ≡ self.now) }
    {
        let block = match &self.block {
            None => None,
            Some(block) => Some(block.clone()?),
        };
        Ok(Changes {
            old_len: self.old_len,
            new_len: self.new_len,
            block,
        })
    }
}
