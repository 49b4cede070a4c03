//! Texts as UTF-16 code units.
ghost use Rattle.std.specs.Prelude.{◌≡◌, List, [], ◌∷◌, ◌++◌, take, OnOk, OnErr};

use crate::memory::OutOfMemory;
use std::alloc::Global;
use std::marker::Model;

/// A UTF-16 code unit. A text may hold any units, lone surrogates too.
pub type Unit = u16;

/// A text: UTF-16 code units.
#[derive(Drop)]
pub struct Units {
    items: Vec<Unit>,
}

impl Model for Units {
    ghost use Rattle.std.specs.Prelude.{ℕ, List};

    ghost Value = { List ℕ };

    ghost view = { λ u. u.items.items };
}

impl Units {
    /// The empty text. It takes no memory.
    pub fn new(alloc: Global) -> Units
        ensures { result ≡ [] }
    {
        Units {
            items: Vec::new(alloc),
        }
    }

    /// The text of these units. It takes no memory.
    pub fn of(items: Vec<Unit>) -> Units
        ensures { result ≡ items.items }
    {
        Units { items }
    }

    /// Puts a unit at the end.
    ///
    /// # Errors
    ///
    /// Memory was refused; the text is as it was.
    pub fn push(&mut self, unit: Unit) -> Result<(), OutOfMemory>
        ensures ok { OnOk result (self.new ≡ self.old ++ unit ∷ []) }
        ensures err { OnErr result (self.new ≡ self.old) }
    {
        self.items.push(unit)?;
        Ok(())
    }

    /// Puts units at the end.
    ///
    /// # Errors
    ///
    /// Memory was refused; the text is as it was.
    pub fn extend(&mut self, units: &[Unit]) -> Result<(), OutOfMemory>
        ensures ok { OnOk result (self.new ≡ self.old ++ units.now) }
        ensures err { OnErr result (self.new ≡ self.old) }
    {
        self.items.extend_from_slice(units)?;
        Ok(())
    }

    /// Leaves the first `len` units; a text that has no more stays as it is.
    pub fn truncate(&mut self, len: usize)
        ensures { self.new ≡ take len self.old }
    {
        self.items.truncate(len);
    }

    /// The units, owned. Nothing is copied.
    pub fn into_vec(self) -> Vec<Unit>
        ensures { result.items ≡ self }
    {
        self.items
    }

    /// The units.
    pub fn as_slice(&self) -> &[Unit]
        ensures { result.now ≡ self.now }
    {
        self.items.as_slice()
    }
}
