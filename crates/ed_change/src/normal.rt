//! The normal form of an edit.
ghost use Rattle.std.specs.Prelude.{◌≡◌, ℕ, ◌+◌, ◌≤◌, ◌^◌, ◌↔◌, List, [], length, MatchOption, IfOk, IfErr, option_map};
ghost use Rattle.ed_base.specs.Edit.{edited, units_put_in};
ghost use Rattle.ed_base.specs.ChangeList.{normal_form, applied, step, inserted_len};
ghost use Rattle.ed_base.specs.Step.{step_of};
ghost use Rattle.ed_change.specs.Ranges.{first_past, AllIdle, AllWithin};

use crate::fault::ChangeFault;
use crate::pending::swept;
use crate::sorting::by_start;
use ed_base::{Changes, OutOfMemory, Replace};
use std::alloc::Global;

/// Where the replace ends, in units.
fn end_of(replace: &Replace) -> u64
    ensures { result ≡ replace.now.start + replace.now.len }
{
    u64::from(replace.start) + u64::from(replace.len)
}

/// The first replace that ends past a text of `len` units.
fn past(len: u32, replaces: &[Replace]) -> Option<&Replace>
    ensures { option_map (λ r. r.now) result ≡ first_past len replaces.now }
{
    replaces
        .iter()
        .find(|replace| end_of(replace) > u64::from(len))
}

/// The change list of an edit whose replaces all lie in the text.
fn merged(alloc: Global, len: u32, replaces: &[Replace]) -> Result<Changes, OutOfMemory>
    requires length { len ≤ 2 ^ 22 }
    requires put_in { units_put_in replaces.now ≤ 2 ^ 27 }
    requires within { AllWithin len replaces.now }
    ensures normal { IfOk result (λ c. c ≡ normal_form replaces.now len) }
    ensures text { IfOk result (λ c. (text : List ℕ) → length text ≡ len → applied c text ≡ edited replaces.now text) }
    ensures step { IfOk result (λ c. step c ≡ step_of replaces.now len) }
    ensures inserted { IfOk result (λ c. inserted_len c ≡ units_put_in replaces.now) }
    ensures nothing { IfOk result (λ c. (c.changes ≡ []) ↔ AllIdle replaces.now) }
{
    let order = by_start(alloc, replaces)?;
    let list = swept(alloc, &order)?;
    let changes = Changes::of(alloc, len, list)?;
    Ok(changes)
}

/// The change list of an edit of a text of `len` units, in normal form: one change for what stands
/// between two neighbouring kept units. All replaces refer to the text before the edit. They may
/// overlap, touch and stand in any order; what they put in at one gap stands in their order.
///
/// It sorts the replaces and never looks at a text. Such lists are the editor SDK's
/// `INormalizedTextChangeCollection`; how replaces that overlap or touch join is our own.
///
/// # Errors
///
/// `OutOfRange` names the first replace that ends past the text, exactly where there is one. Else
/// memory may be refused.
pub fn normalise(alloc: Global, len: u32, replaces: &[Replace]) -> Result<Changes, ChangeFault>
    requires length { len ≤ 2 ^ 22 }
    requires put_in { units_put_in replaces.now ≤ 2 ^ 27 }
    ensures normal { IfOk result (λ c. c ≡ normal_form replaces.now len) }
    ensures past { MatchOption (first_past len replaces.now) (IfErr result (λ e. e ≡ ChangeFault.OutOfMemory)) (λ r. result ≡ Err (ChangeFault.OutOfRange (r.start + r.len) len)) }
    ensures text { IfOk result (λ c. (text : List ℕ) → length text ≡ len → applied c text ≡ edited replaces.now text) }
    ensures step { IfOk result (λ c. step c ≡ step_of replaces.now len) }
    ensures inserted { IfOk result (λ c. inserted_len c ≡ units_put_in replaces.now) }
    ensures nothing { IfOk result (λ c. (c.changes ≡ []) ↔ AllIdle replaces.now) }
{
    if let Some(replace) = past(len, replaces) {
        let end = end_of(replace);
        return Err(ChangeFault::OutOfRange { end, len });
    }
    Ok(merged(alloc, len, replaces)?)
}
