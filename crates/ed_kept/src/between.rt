//! The change list between two texts of which some units stay.
ghost use Rattle.std.specs.Prelude.{◌≡◌, ◌+◌, ◌<◌, ◌≤◌, ◌^◌, ◌++◌, length, IfOk, OnOk};
ghost use Rattle.ed_base.specs.ChangeList.{change, change_list, component, new_len, step};
ghost use Rattle.ed_kept.specs.Kept.{ArePairsRising, kept_step, pairs_of};

use crate::kept::KeptRun;
use ed_base::{Change, Changes, OutOfMemory, Span, Units};
use ed_text::{DocText, Text};
use std::alloc::Global;

/// A part of the old text and the part of the new text that stands in its place.
#[derive(Clone, Copy)]
struct Gap {
    old: u32,
    new: u32,
    old_end: u32,
    new_end: u32,
}

/// Puts a change at the end, if there is anything in the gap.
fn put_gap(
    alloc: Global,
    changes: &mut Vec<Change>,
    gap: Gap,
    text: &DocText,
) -> Result<(), OutOfMemory>
    requires old { gap.old ≤ gap.old_end }
    requires new { gap.new ≤ gap.new_end }
    requires within { gap.new_end ≤ length text.now }
    ensures { OnOk result (changes.new.items ≡ changes.old.items ++ component change text.now gap.old gap.new gap.old_end gap.new_end) }
{
    if gap.old == gap.old_end && gap.new == gap.new_end {
        return Ok(());
    }
    let mut put_in = Units::new(alloc);
    let span = Span {
        start: gap.new,
        len: gap.new_end - gap.new,
    };
    text.copy_out(span, &mut put_in)?;
    changes.push(Change {
        start: gap.old,
        old_len: gap.old_end - gap.old,
        text: put_in,
    })?;
    Ok(())
}

/// The change list of a text of `old_len` units that keeps these runs and no other unit, and leads to
/// the text. Only what isn't kept is copied.
///
/// # Errors
///
/// Memory was refused.
pub fn changes_between(
    alloc: Global,
    runs: &[KeptRun],
    old_len: u32,
    text: &DocText,
) -> Result<Changes, OutOfMemory>
    requires { ArePairsRising 0 0 old_len (length text.now) (pairs_of runs.now) }
    ensures changes { IfOk result (λ c. c ≡ change_list (kept_step old_len (length text.now) runs.now) text.now) }
    ensures step { IfOk result (λ c. step c ≡ kept_step old_len (length text.now) runs.now) }
    ensures len { IfOk result (λ c. new_len c ≡ length text.now) }
{
    let new_len = text.len();
    let mut changes = Vec::new(alloc);
    let (mut old, mut new) = (0u32, 0u32);
    for run in runs {
        if run.len == 0 {
            continue;
        }
        let gap = Gap {
            old,
            new,
            old_end: run.old,
            new_end: run.new,
        };
        put_gap(alloc, &mut changes, gap, text)?;
        old = run.old + run.len;
        new = run.new + run.len;
    }
    let last = Gap {
        old,
        new,
        old_end: old_len,
        new_end: new_len,
    };
    put_gap(alloc, &mut changes, last, text)?;
    let list = Changes::of(alloc, old_len, changes)?;
    Ok(list)
}
