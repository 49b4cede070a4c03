//! What members hold after the steps of their sources.
ghost use Rattle.std.specs.Prelude.{◌≡◌, ℕ, ◌≤◌, ◌<◌, None, Some, length, map, slice_get, slice_index_or, if◌then◌else◌, nat_eq, MatchOption, IfOk, OnOk};
ghost use Rattle.std.specs.BTreeMap.{get};
ghost use Rattle.std.specs.List.{All};
ghost use Rattle.std.specs.Ordering.{nat_cmp};
ghost use Rattle.ed_base.specs.ChangeList.{IsNormal, step};
ghost use Rattle.ed_base.specs.Numbers.{or_else};
ghost use Rattle.ed_base.specs.Spans.{end_of};
ghost use Rattle.ed_members.specs.Advance.{AreHeld, IsSound, index_from, is_step, joined, kept_of, kept_range, owner_in, range_between, run_range, step_index, with_run, with_step};
ghost use Rattle.ed_members.specs.declared.steps.SourceStep.{SourceStep};
ghost use Rattle.ed_members.specs.Moving.{EndsInOld};
ghost use Rattle.ed_members.specs.Steps.{steps_seen, step_seen};

use crate::steps::SourceStep;
use ed_base::{BufferNo, Changes, Member, OutOfMemory, Span};
use ed_pieces::TrailRun;
use ed_track::edges;
use std::alloc::Global;
use std::collections::BTreeMap;

/// The least range of what a member holds, in units of the new text: it has a unit.
#[derive(Clone, Copy)]
pub struct Held {
    pub start: u32,
    pub end: u32,
}

/// Keeps the index for the source, where it has none yet.
fn put_first(
    first: &mut BTreeMap<u32, usize>,
    source: BufferNo,
    index: usize,
) -> Result<(), OutOfMemory>
    ensures { OnOk result ((b : ℕ) → get nat_cmp first.new b ≡ or_else (get nat_cmp first.old b) (if nat_eq source b then Some index else None)) }
{
    let number = source.0;
    if !first.contains_key(&number) {
        first.insert(number, index)?;
    }
    Ok(())
}

/// The index of the first step of each source.
///
/// # Errors
///
/// Memory was refused.
pub fn first_steps(alloc: Global, steps: &[SourceStep]) -> Result<BTreeMap<u32, usize>, OutOfMemory>
    ensures { IfOk result (λ m. (source : ℕ) → get nat_cmp m source ≡ index_from 0 source steps.now) }
{
    let mut first = BTreeMap::new(alloc);
    for index in 0..steps.len() {
        put_first(&mut first, steps[index].source, index)?;
    }
    Ok(first)
}

/// The index of the step of the member's source.
pub fn index_in(
    first: &BTreeMap<u32, usize>,
    steps: &[SourceStep],
    member: &Member,
) -> Option<usize>
    requires { (source : ℕ) → get nat_cmp first.now source ≡ index_from 0 source steps.now }
    ensures { result ≡ step_index steps.now member.now }
{
    match member {
        Member::Literal(_) => None,
        Member::Tracked { source, .. } => first.get(&source.0).copied(),
    }
}

/// For each member the index of the first step of its source.
///
/// # Errors
///
/// Memory was refused.
pub fn step_indices(
    alloc: Global,
    members: &[Member],
    steps: &[SourceStep],
) -> Result<Vec<Option<usize>>, OutOfMemory>
    ensures { IfOk result (λ v. v.items ≡ map (step_index steps.now) members.now) }
{
    let first = first_steps(alloc, steps)?;
    let mut indices = Vec::new(alloc);
    for member in members {
        indices.push(index_in(&first, steps, member))?;
    }
    Ok(indices)
}

/// The range from one place to another, where it has a unit.
fn range_between(start: u32, end: u32) -> Option<Held>
    ensures { result ≡ range_between start end }
{
    if start < end {
        Some(Held { start, end })
    } else {
        None
    }
}

/// The least range of the units of the span that were kept.
fn kept_range(span: Span, changes: &Changes) -> Option<Held>
    requires { end_of span ≤ changes.now.old_len }
    ensures { result ≡ kept_range (step changes.now) span }
{
    let edges = edges(span, changes);
    range_between(edges.start_pos, edges.end_neg)
}

/// The step of the source, which has this index.
pub fn step_of(steps: &[SourceStep], source: BufferNo, index: Option<usize>) -> Option<&SourceStep>
    requires { index ≡ index_from 0 source steps.now }
    ensures { MatchOption result (steps_seen steps.now source ≡ None) (λ s. steps_seen steps.now source ≡ Some (step_seen s.now)) }
{
    match index {
        None => None,
        Some(index) => steps.get(index),
    }
}

/// The least range of the units of the member that were kept by the step with this index.
fn kept_by(member: &Member, steps: &[SourceStep], index: Option<usize>) -> Option<Held>
    requires first { index ≡ step_index steps.now member.now }
    requires within { EndsInOld (steps_seen steps.now) member.now }
    ensures { result ≡ kept_of (steps_seen steps.now) member.now }
{
    match member {
        Member::Literal(_) => None,
        Member::Tracked { source, bounds, .. } => match step_of(steps, *source, index) {
            None => None,
            Some(step) => kept_range(*bounds, &step.changes),
        },
    }
}

/// For each member the least range of its units that were kept.
fn kept(
    alloc: Global,
    members: &[Member],
    steps: &[SourceStep],
    indices: &[Option<usize>],
) -> Result<Vec<Option<Held>>, OutOfMemory>
    requires first { indices.now ≡ map (step_index steps.now) members.now }
    requires within { All (EndsInOld (steps_seen steps.now)) members.now }
    ensures { IfOk result (λ v. v.items ≡ map (kept_of (steps_seen steps.now)) members.now) }
{
    let mut held = Vec::new(alloc);
    for index in 0..members.len() {
        held.push(kept_by(&members[index], steps, indices[index]))?;
    }
    Ok(held)
}

/// The least range that has the range and the places of the run in a text of `len` units.
fn widened(held: Option<Held>, run: &TrailRun, len: u32) -> Option<Held>
    ensures { result ≡ joined held (run_range len run.now) }
{
    let run_end = u64::from(run.span.start) + u64::from(run.span.len);
    let end = u32::try_from(run_end).unwrap_or(u32::MAX).min(len);
    let range = range_between(run.span.start, end);
    match (held, range) {
        (None, _) => range,
        (_, None) => held,
        (Some(a), Some(b)) => Some(Held {
            start: a.start.min(b.start),
            end: a.end.max(b.end),
        }),
    }
}

/// The member of the carrier `me` through which units of this trail came last, if it was one of `me`.
pub fn owner_in(me: BufferNo, trail: &[(BufferNo, u32)]) -> Option<u32>
    ensures { result ≡ owner_in me trail.now }
{
    let (carrier, member) = trail.last()?;
    if *carrier == me { Some(*member) } else { None }
}

/// Whether the member's source took the step with this index.
fn is_step(indices: &[Option<usize>], index: usize, member: usize) -> bool
    ensures { result ≡ is_step index (slice_get indices.now member) }
{
    match indices.get(member) {
        Some(Some(at)) => *at == index,
        _ => false,
    }
}

/// Puts the run to what its member holds, if that is a member of the carrier `me` whose source took
/// the step with this index.
fn put_run(
    held: &mut Vec<Option<Held>>,
    indices: &[Option<usize>],
    me: BufferNo,
    index: usize,
    len: u32,
    run: &TrailRun,
)
    requires { length held.old.items ≡ length indices.now }
    ensures long { length held.new.items ≡ length held.old.items }
    ensures each { (i : ℕ) → slice_index_or held.new.items i None ≡ (if is_step index (slice_get indices.now i) then with_run me len i (slice_index_or held.old.items i None) run.now else slice_index_or held.old.items i None) }
{
    let Some(owner) = owner_in(me, run.trail.as_slice()) else {
        return;
    };
    let member = owner as usize;
    if is_step(indices, index, member) {
        held[member] = widened(held[member], run, len);
    }
}

/// The length of the new text, in units.
pub fn len_after(changes: &Changes) -> u32
    ensures len { result ≡ (step changes.now).new_len }
    ensures normal { IsNormal changes.now }
{
    let _normal = changes.as_slice();
    changes.new_len()
}

/// Puts the runs of the step with this index to what their members hold.
fn put_runs(
    held: &mut Vec<Option<Held>>,
    indices: &[Option<usize>],
    me: BufferNo,
    index: usize,
    step: &SourceStep,
)
    requires { length held.old.items ≡ length indices.now }
    ensures long { length held.new.items ≡ length held.old.items }
    ensures each { (i : ℕ) → slice_index_or held.new.items i None ≡ with_step me index (slice_get indices.now i) i (slice_index_or held.old.items i None) step.now }
    ensures sound { IsSound step.now }
{
    let len = len_after(&step.changes);
    for run in step.trails.as_slice() {
        put_run(held, indices, me, index, len, run);
    }
}

/// For each member the least range of all that it holds.
///
/// # Errors
///
/// Memory was refused.
pub fn held_by(
    alloc: Global,
    me: BufferNo,
    members: &[Member],
    steps: &[SourceStep],
    indices: &[Option<usize>],
) -> Result<Vec<Option<Held>>, OutOfMemory>
    requires first { indices.now ≡ map (step_index steps.now) members.now }
    requires within { All (EndsInOld (steps_seen steps.now)) members.now }
    ensures held { IfOk result (λ v. AreHeld me (steps_seen steps.now) members.now v.items) }
    ensures sound { IfOk result (λ v. (t : ℕ) (s : SourceStep) → t < length steps.now → slice_get steps.now t ≡ Some s → IsSound s) }
{
    let mut held = kept(alloc, members, steps, indices)?;
    for index in 0..steps.len() {
        put_runs(&mut held, indices, me, index, &steps[index]);
    }
    Ok(held)
}
