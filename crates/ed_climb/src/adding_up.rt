//! What versions that were planned add to the numbers of the stock.
ghost use Rattle.std.specs.Prelude.{◌≡◌, ◌+◌, length, map, count_by, sum_by, IfOk};
ghost use Rattle.ed_base.specs.ChangeList.{inserted_len};
ghost use Rattle.ed_layers.specs.Records.{is_tracked};
ghost use Rattle.ed_climb.specs.Counted.{counts_after, counts_with, told};
ghost use Rattle.ed_risen.specs.Counting.{tracked_in};
ghost use Rattle.ed_held.specs.Moves.{record_of};

use crate::counts::Counts;
use ed_base::{Changes, Member, OutOfMemory, VersionList};
use ed_held::{Move, Planned};
use ed_members::Members;
use std::alloc::Global;

/// Whether the member follows a source.
pub fn is_tracked(member: &Member) -> bool
    ensures { result ≡ is_tracked member.now }
{
    matches!(member, Member::Tracked { .. })
}

/// The sum. One from 2^64 on counts as want of memory.
fn sum(count: u64, more: u64) -> Result<u64, OutOfMemory>
    ensures { IfOk result (λ n. n ≡ count + more) }
{
    match count.checked_add(more) {
        Some(total) => Ok(total),
        None => Err(OutOfMemory),
    }
}

/// How many units the changes put in. A number from 2^64 on counts as want of memory.
pub fn inserted(changes: &Changes) -> Result<u64, OutOfMemory>
    ensures { IfOk result (λ n. n ≡ inserted_len changes.now) }
{
    let list = changes.as_slice();
    let mut total = 0;
    for change in list {
        total = sum(total, change.text.as_slice().len() as u64)?;
    }
    Ok(total)
}

/// How many members follow sources.
fn tracked(members: &Members) -> Result<u64, OutOfMemory>
    ensures { IfOk result (λ n. n ≡ count_by is_tracked members.now) }
{
    let mut total = 0;
    for i in 0..members.count() {
        if is_tracked(members.get(i)) {
            total = sum(total, 1)?;
        }
    }
    Ok(total)
}

/// How many members of the version follow sources.
fn tracked_in(planned: &Planned) -> Result<u64, OutOfMemory>
    ensures { IfOk result (λ n. n ≡ tracked_in (record_of planned.now)) }
{
    match planned.members() {
        Some(members) => tracked(members),
        None => Ok(0),
    }
}

/// The numbers with one version more.
fn counts_with(counts: &Counts, planned: &Planned) -> Result<Counts, OutOfMemory>
    ensures { IfOk result (λ c. c ≡ counts_with counts.now planned.now) }
{
    let changes = planned.changes();
    let tracked = tracked_in(planned)?;
    let places = sum(tracked, u64::from(changes.count()))?;
    Ok(Counts {
        inserted: sum(counts.inserted, inserted(changes)?)?,
        versions: sum(counts.versions, 1)?,
        placements: sum(counts.placements, places)?,
    })
}

/// The numbers once these versions are made. A number from 2^64 on counts as want of memory.
pub fn counts_after(counts: &Counts, moves: &[Move]) -> Result<Counts, OutOfMemory>
    ensures { IfOk result (λ c. c ≡ counts_after counts.now moves.now) }
{
    let mut all = *counts;
    for next in moves {
        all = counts_with(&all, &next.planned)?;
    }
    Ok(all)
}

/// The versions that will be made, as they are told.
///
/// # Errors
///
/// Memory was refused.
pub fn versions_of(alloc: Global, moves: &[Move]) -> Result<VersionList, OutOfMemory>
    ensures { IfOk result (λ list. list ≡ map told moves.now) }
{
    let mut versions = Vec::with_capacity(alloc, moves.len())?;
    for next in moves {
        versions.push((next.buffer, next.planned.snapshot()?.version))?;
    }
    VersionList::of(alloc, versions)
}
