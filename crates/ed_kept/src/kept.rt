//! The runs of units that a change list keeps.
ghost use Rattle.std.specs.Prelude.{◌≡◌, ◌<◌, ◌^◌, IfOk};
ghost use Rattle.ed_base.specs.ChangeList.{IsNormal, new_len, step};
ghost use Rattle.ed_kept.specs.Kept.{AreRunsRising, pairs_of, runs_of};

use ed_base::{Changes, OutOfMemory};
use std::alloc::Global;

/// Units that stand in a row before and after: the places of the first, and how many there are.
#[derive(Clone, Copy)]
pub struct KeptRun {
    pub old: u32,
    pub new: u32,
    pub len: u32,
}

/// What stays before, between and behind the changes: one run more than there are changes, some of
/// which may be empty. It takes O(c) for c changes.
///
/// # Errors
///
/// Memory was refused.
pub fn kept_by(alloc: Global, changes: &Changes) -> Result<Vec<KeptRun>, OutOfMemory>
    ensures runs { IfOk result (λ v. v.items ≡ runs_of changes.now) }
    ensures kept { IfOk result (λ v. pairs_of v.items ≡ (step changes.now).kept) }
    ensures rising { IfOk result (λ v. AreRunsRising 0 0 changes.now.old_len (new_len changes.now) v.items) }
    ensures old_short { changes.now.old_len < 2 ^ 32 }
    ensures normal { IsNormal changes.now }
{
    let list = changes.as_slice();
    let old_len = changes.old_len();
    let mut runs = Vec::new(alloc);
    let (mut old, mut new) = (0u32, 0u32);
    for change in list {
        let len = change.start - old;
        runs.push(KeptRun { old, new, len })?;
        old = change.start + change.old_len;
        new = new + len + change.text.as_slice().len() as u32;
    }
    let len = old_len - old;
    runs.push(KeptRun { old, new, len })?;
    Ok(runs)
}
