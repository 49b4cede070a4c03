//! The way back from a text that was changed.
ghost use Rattle.std.specs.Prelude.{◌≡◌, ◌+◌, ◌<◌, ◌≤◌, ◌^◌, length, IfOk, slice_range};
ghost use Rattle.ed_base.specs.ChangeList.{applied, change, inverse, new_len, step};
ghost use Rattle.ed_base.specs.Step.{inverse_step};

use ed_base::{Change, Changes, OutOfMemory, Unit, Units};
use std::alloc::Global;

/// The change that puts back what `done` took from the old text. In the new text it begins at
/// `start`.
fn turned(alloc: Global, units: &[Unit], start: u32, done: &Change) -> Result<Change, OutOfMemory>
    requires within { done.now.start + done.now.old_len ≤ length units.now }
    requires short { length done.now.text < 2 ^ 32 }
    ensures { IfOk result (λ c. c ≡ change start (length done.now.text) (slice_range units.now done.now.start (done.now.start + done.now.old_len))) }
{
    let from = done.start as usize;
    let mut text = Units::new(alloc);
    text.extend(&units[from..from + done.old_len as usize])?;
    Ok(Change {
        start,
        old_len: done.text.as_slice().len() as u32,
        text,
    })
}

/// The change list that leads from the new text back to the old one, `units`: what was put in is
/// deleted, and what was deleted is put in. `units` is as long as the change list says.
///
/// # Errors
///
/// Memory was refused.
pub fn inverse(alloc: Global, units: &[Unit], changes: &Changes) -> Result<Changes, OutOfMemory>
    requires { length units.now ≡ changes.now.old_len }
    ensures inverse { IfOk result (λ c. c ≡ inverse changes.now units.now) }
    ensures undone { IfOk result (λ c. applied c (applied changes.now units.now) ≡ units.now) }
    ensures step { IfOk result (λ c. step c ≡ inverse_step (step changes.now)) }
    ensures old_len { IfOk result (λ c. c.old_len ≡ new_len changes.now) }
    ensures new_len { IfOk result (λ c. new_len c ≡ changes.now.old_len) }
{
    let mut list = Vec::new(alloc);
    for (i, change) in changes.as_slice().iter().enumerate() {
        let start = changes.new_start(i as u32);
        list.push(turned(alloc, units, start, change)?)?;
    }
    let back = Changes::of(alloc, changes.new_len(), list)?;
    Ok(back)
}
