//! What stays of a projection when its sources step, or when members are replaced.
ghost use Rattle.std.specs.Prelude.{◌≡◌, ℕ, ◌+◌, ◌-◌, ◌<◌, ◌≤◌, ◌^◌, ◌++◌, ◌∷◌, [], length, slice_get, take, IfOk, Some, OnOk};
ghost use Rattle.ed_base.specs.declared.piece.Member.{Member};
ghost use Rattle.ed_layers.specs.Records.{member_len, members_len};
ghost use Rattle.ed_members.specs.Steps.{steps_seen};
ghost use Rattle.ed_kept.specs.Kept.{pairs_of};
ghost use Rattle.ed_project.specs.Kept.{AllBecome, Becomes, Rises, all_pairs, bounds_of, member_pairs, pairs_around};

use crate::kept::{Move, put_run};
use crate::sources::{put_moved, step_of};
use ed_base::{Member, OutOfMemory, Span};
use ed_kept::KeptRun;
use ed_members::{Members, SourceStep};
use std::alloc::Global;

/// The places of the member: those of a literal's units, or its bounds.
fn bounds_of(member: &Member) -> Span
    requires { member_len member.now < 2 ^ 32 }
    ensures { result ≡ bounds_of member.now }
{
    match member {
        Member::Literal(units) => Span {
            start: 0,
            len: units.as_slice().len() as u32,
        },
        Member::Tracked { bounds, .. } => *bounds,
    }
}

/// Puts at the end what stays of a member, which begins at these places of the old and of the new
/// text.
///
/// # Errors
///
/// Memory was refused.
fn put_member(
    runs: &mut Vec<KeptRun>,
    steps: &[SourceStep],
    old: &Member,
    from: u32,
    new: &Member,
    to: u32,
) -> Result<(), OutOfMemory>
    requires becomes { Becomes (steps_seen steps.now) old.now new.now }
    requires from { from + member_len old.now < 2 ^ 32 }
    requires to { to + member_len new.now < 2 ^ 32 }
    ensures pairs { OnOk result (pairs_of runs.new.items ≡ pairs_of runs.old.items ++ member_pairs (steps_seen steps.now) from to old.now new.now) }
    ensures rises { OnOk result (Rises (steps_seen steps.now) new.now) }
{
    match new {
        Member::Literal(units) => {
            put_run(runs, from, to, units.as_slice().len() as u32)?;
            Ok(())
        }
        Member::Tracked { source, bounds, .. } => match step_of(steps, *source) {
            None => {
                put_run(runs, from, to, bounds.len)?;
                Ok(())
            }
            Some(step) => {
                let shift = Move {
                    old: bounds_of(old),
                    new: *bounds,
                    from,
                    to,
                };
                put_moved(runs, &step.changes, &shift)?;
                Ok(())
            }
        },
    }
}

/// What stays of the members after these steps of their sources.
///
/// # Errors
///
/// Memory was refused.
pub fn kept_runs(
    alloc: Global,
    old: &Members,
    new: &Members,
    steps: &[SourceStep],
) -> Result<Vec<KeptRun>, OutOfMemory>
    requires becoming { AllBecome (steps_seen steps.now) old.now new.now }
    requires old { members_len old.now < 2 ^ 32 }
    requires new { members_len new.now < 2 ^ 32 }
    ensures pairs { IfOk result (λ v. pairs_of v.items ≡ all_pairs (steps_seen steps.now) 0 0 old.now new.now) }
    ensures rise { IfOk result (λ v. (i : ℕ) (m : Member) → slice_get new.now i ≡ Some m → Rises (steps_seen steps.now) m) }
{
    let mut runs = Vec::new(alloc);
    for i in 0..new.count() {
        let (from, to) = (old.place(i).start, new.place(i).start);
        put_member(&mut runs, steps, old.get(i), from, new.get(i), to)?;
    }
    Ok(runs)
}

/// Where the member with this index begins, or where the last ends.
fn start_of(members: &Members, i: u32) -> u32
    requires { i ≤ length members.now }
    ensures start { result ≡ members_len (take i members.now) }
    ensures within { result ≤ members_len members.now }
{
    if i == members.count() {
        return members.len();
    }
    members.place(i).start
}

/// What stays where the members between those before `first` and the last `behind` are replaced.
pub fn runs_around(old: &Members, new: &Members, first: u32, behind: u32) -> [KeptRun; 2]
    requires old { first + behind ≤ length old.now }
    requires new { first + behind ≤ length new.now }
    ensures { pairs_of result ≡ pairs_around old.now new.now first behind }
{
    let head = start_of(old, first);
    let old_tail = start_of(old, old.count() - behind);
    let new_tail = start_of(new, new.count() - behind);
    let before = KeptRun {
        old: 0,
        new: 0,
        len: head,
    };
    let after = KeptRun {
        old: old_tail,
        new: new_tail,
        len: old.len() - old_tail,
    };
    [before, after]
}
