//! Units of a projection that stay, run by run.
ghost use Rattle.std.specs.Prelude.{◌≡◌, ◌+◌, ◌<◌, ◌≤◌, ◌^◌, ◌++◌, OnOk};
ghost use Rattle.ed_base.specs.Spans.{end_of};
ghost use Rattle.ed_kept.specs.Kept.{pairs_of, run_pairs};
ghost use Rattle.ed_project.specs.Kept.{shown_pairs};

use ed_base::{OutOfMemory, Span};
use ed_kept::KeptRun;

/// A member whose source stepped: its bounds in the old and in the new text of the source, and where
/// it begins in the old and in the new text of the projection.
#[derive(Clone, Copy)]
pub struct Move {
    pub old: Span,
    pub new: Span,
    pub from: u32,
    pub to: u32,
}

/// Puts a run at the end.
///
/// # Errors
///
/// Memory was refused.
#[tactic(auto, using(ed_kept::proofs::Rising::pairs_push))]
pub fn put_run(runs: &mut Vec<KeptRun>, old: u32, new: u32, len: u32) -> Result<(), OutOfMemory>
    ensures { OnOk result (pairs_of runs.new.items ≡ pairs_of runs.old.items ++ run_pairs old new len) }
{
    runs.push(KeptRun { old, new, len })?;
    Ok(())
}

/// Puts at the end what the member showed and shows of a run of the source.
///
/// # Errors
///
/// Memory was refused.
pub fn put_shown(runs: &mut Vec<KeptRun>, shift: &Move, run: KeptRun) -> Result<(), OutOfMemory>
    requires old { end_of shift.now.old < 2 ^ 32 }
    requires new { end_of shift.now.new < 2 ^ 32 }
    requires from { shift.now.from + shift.now.old.len < 2 ^ 32 }
    requires to { shift.now.to + shift.now.new.len < 2 ^ 32 }
    requires run_old { run.old + run.len < 2 ^ 32 }
    requires run_new { run.new + run.len < 2 ^ 32 }
    ensures { OnOk result (pairs_of runs.new.items ≡ pairs_of runs.old.items ++ shown_pairs shift.now (run_pairs run.old run.new run.len)) }
{
    let (old, new) = (shift.old, shift.new);
    let before_old = old.start.saturating_sub(run.old);
    let before_new = new.start.saturating_sub(run.new);
    let first = before_old.max(before_new);
    let end_old = (old.start + old.len).saturating_sub(run.old);
    let end_new = (new.start + new.len).saturating_sub(run.new);
    let end = run.len.min(end_old).min(end_new);
    if first >= end {
        return Ok(());
    }
    put_run(
        runs,
        shift.from + (run.old + first - old.start),
        shift.to + (run.new + first - new.start),
        end - first,
    )
}
