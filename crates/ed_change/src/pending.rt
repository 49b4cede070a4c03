//! The pass over sorted replaces.
ghost use Rattle.std.specs.Prelude.{◌≡◌, ℕ, ◌+◌, ◌<◌, ◌≤◌, ◌^◌, List, [], ◌∷◌, ◌++◌, map, max, All, IfOk, OnOk, OnErr};
ghost use Rattle.ed_base.specs.declared.edit.Replace.{Replace};
ghost use Rattle.ed_change.specs.Sweep.{change_if, sweep};

use ed_base::{Change, OutOfMemory, Replace, Units};
use std::alloc::Global;

/// A change that further replaces may still join: it deletes the units from `start` up to `end` and
/// puts `text` in.
#[derive(Drop)]
struct Pending {
    start: u32,
    end: u32,
    text: Units,
}

impl Pending {
    /// A change at the gap that does nothing yet.
    fn begin(alloc: Global, start: u32) -> Pending
        ensures { result ≡ record { start = start; end = start; text = [] } }
    {
        Pending {
            start,
            end: start,
            text: Units::new(alloc),
        }
    }

    /// Deletes and puts in what the replace does.
    fn join(&mut self, replace: &Replace) -> Result<(), OutOfMemory>
        requires { replace.now.start + replace.now.len < 2 ^ 32 }
        ensures { OnOk result (self.new ≡ record { start = self.old.start; end = max self.old.end (replace.now.start + replace.now.len); text = self.old.text ++ replace.now.text }) }
    {
        self.text.extend(replace.text.as_slice())?;
        self.end = self.end.max(replace.start + replace.len);
        Ok(())
    }

    /// Puts the change at the end of the list, if it does anything.
    fn close(self, list: &mut Vec<Change>) -> Result<(), OutOfMemory>
        requires { self.start ≤ self.end }
        ensures { OnOk result (list.new.items ≡ list.old.items ++ change_if self.start self.end self.text) }
    {
        if self.start == self.end && self.text.as_slice().is_empty() {
            return Ok(());
        }
        let old_len = self.end - self.start;
        list.push(Change {
            start: self.start,
            old_len,
            text: self.text,
        })?;
        Ok(())
    }

    /// Takes in the next replace: into this change where it begins in it or at its end, else into a
    /// new one.
    fn taken(
        self,
        alloc: Global,
        replace: &Replace,
        list: &mut Vec<Change>,
    ) -> Result<Pending, OutOfMemory>
        requires ordered { self.start ≤ self.end }
        requires within { replace.now.start + replace.now.len < 2 ^ 32 }
        ensures ordered { IfOk result (λ p. p.start ≤ p.end) }
        ensures swept { IfOk result (λ p. (rest : List Replace) → list.new.items ++ sweep p.start p.end p.text rest ≡ list.old.items ++ sweep self.start self.end self.text (replace.now ∷ rest)) }
    {
        let mut pending = self;
        if pending.end < replace.start {
            pending.close(list)?;
            pending = Pending::begin(alloc, replace.start);
        }
        pending.join(replace)?;
        Ok(pending)
    }
}

/// The changes of replaces that are sorted by their starts.
///
/// # Errors
///
/// Memory was refused.
pub fn swept(alloc: Global, order: &[&Replace]) -> Result<Vec<Change>, OutOfMemory>
    requires { All (λ r. r.now.start + r.now.len < 2 ^ 32) order.now }
    ensures { IfOk result (λ v. v.items ≡ sweep 0 0 [] (map (λ r. r.now) order.now)) }
{
    let mut list = Vec::new(alloc);
    let mut pending = Pending::begin(alloc, 0);
    for replace in order {
        pending = pending.taken(alloc, replace, &mut list)?;
    }
    pending.close(&mut list)?;
    Ok(list)
}
