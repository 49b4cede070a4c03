//! The runs of a source's step that a member shows.
ghost use Rattle.std.specs.Prelude.{◌≡◌, ◌+◌, ◌<◌, ◌≤◌, ◌^◌, ◌++◌, [], length, option_map, slice_get, take, Some, OnOk};
ghost use Rattle.std.specs.Option.{option_copied};
ghost use Rattle.ed_base.specs.ChangeList.{IsNormal, new_len, step};
ghost use Rattle.ed_base.specs.Spans.{end_of};
ghost use Rattle.ed_members.specs.Steps.{step_seen, steps_seen};
ghost use Rattle.ed_kept.specs.Kept.{ArePairsRising, pairs_of, runs_of};
ghost use Rattle.ed_project.specs.Kept.{shown_pairs, stop_at};

use crate::kept::{Move, put_shown};
use ed_base::{BufferNo, Changes, OutOfMemory};
use ed_kept::KeptRun;
use ed_members::SourceStep;

/// The step of the source, if it stepped.
pub fn step_of(steps: &[SourceStep], source: BufferNo) -> Option<&SourceStep>
    ensures { option_map step_seen (option_copied result) ≡ steps_seen steps.now source }
{
    for step in steps {
        if step.source == source {
            return Some(step);
        }
    }
    None
}

/// Where what stays before the change with this index ends in the old text, or behind all changes.
fn stop_of(changes: &Changes, i: u32) -> u32
    ensures { result ≡ stop_at changes.now.old_len changes.now.changes i }
{
    if i < changes.count() {
        return changes.get(i).start;
    }
    changes.old_len()
}

/// What stays between the change with this index and the one before it, or the end of the text.
fn run_at(changes: &Changes, i: u32) -> KeptRun
    requires { i ≤ length changes.now.changes }
    ensures run { slice_get (runs_of changes.now) i ≡ Some result }
    ensures old { result.old + result.len ≤ changes.now.old_len }
    ensures new { result.new + result.len ≤ new_len changes.now }
    ensures normal { IsNormal changes.now }
    ensures short { changes.now.old_len < 2 ^ 32 }
{
    let list = changes.as_slice();
    let end = stop_of(changes, i);
    if i == 0 {
        return KeptRun {
            old: 0,
            new: 0,
            len: end,
        };
    }
    let before = &list[i as usize - 1];
    let old = before.start + before.old_len;
    let new = changes.new_start(i - 1) + before.text.as_slice().len() as u32;
    KeptRun {
        old,
        new,
        len: end - old,
    }
}

/// How many runs at the beginning end at or before the member's old bounds. It is found in
/// O(log c) of c changes.
fn runs_before(changes: &Changes, shift: &Move) -> u32
    ensures bound { result ≤ length changes.now.changes }
    ensures none { shown_pairs shift.now (pairs_of (take result (runs_of changes.now))) ≡ [] }
{
    let mut low = 0;
    let mut high = changes.count();
    while low < high {
        let middle = low + (high - low) / 2;
        let run = run_at(changes, middle);
        if run.old + run.len <= shift.old.start {
            low = middle + 1;
        } else {
            high = middle;
        }
    }
    low
}

/// Puts at the end what the member showed and shows of what its source keeps. Only changes near the
/// member are looked at.
///
/// # Errors
///
/// Memory was refused.
pub fn put_moved(
    runs: &mut Vec<KeptRun>,
    changes: &Changes,
    shift: &Move,
) -> Result<(), OutOfMemory>
    requires old { end_of shift.now.old ≤ changes.now.old_len }
    requires new { end_of shift.now.new ≤ (step changes.now).new_len }
    requires from { shift.now.from + shift.now.old.len < 2 ^ 32 }
    requires to { shift.now.to + shift.now.new.len < 2 ^ 32 }
    ensures shown { OnOk result (pairs_of runs.new.items ≡ pairs_of runs.old.items ++ shown_pairs shift.now (step changes.now).kept) }
    ensures rising { OnOk result (ArePairsRising 0 0 changes.now.old_len (step changes.now).new_len (step changes.now).kept) }
{
    let count = changes.count();
    for i in runs_before(changes, shift)..count {
        let run = run_at(changes, i);
        if shift.old.start + shift.old.len <= run.old {
            return Ok(());
        }
        put_shown(runs, shift, run)?;
    }
    put_shown(runs, shift, run_at(changes, count))?;
    Ok(())
}
