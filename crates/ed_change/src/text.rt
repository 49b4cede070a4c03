//! The text that a change list leads to.
ghost use Rattle.std.specs.Prelude.{◌≡◌, length, IfOk};
ghost use Rattle.ed_base.specs.ChangeList.{applied, new_len};

use ed_base::{Changes, OutOfMemory, Unit, Units};
use std::alloc::Global;

/// The text after the changes, from the text before them, which is as long as the change list says.
/// Units between two changes are copied as one run.
///
/// # Errors
///
/// Memory was refused.
pub fn apply(alloc: Global, units: &[Unit], changes: &Changes) -> Result<Units, OutOfMemory>
    requires { length units.now ≡ changes.now.old_len }
    ensures text { IfOk result (λ t. t ≡ applied changes.now units.now) }
    ensures len { IfOk result (λ t. length t ≡ new_len changes.now) }
{
    let mut text = Units::of(Vec::with_capacity(alloc, changes.new_len() as usize)?);
    let mut at = 0;
    for change in changes.as_slice() {
        text.extend(&units[at..change.start as usize])?;
        text.extend(change.text.as_slice())?;
        at = change.start as usize + change.old_len as usize;
    }
    text.extend(&units[at..])?;
    Ok(text)
}
