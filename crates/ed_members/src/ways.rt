//! The ways of the units of a carrier, by those of the units of its sources.
ghost use Rattle.std.specs.Prelude.{◌≡◌, ℕ, ◌+◌, ◌<◌, true, nat_eq, if◌then◌else◌, ◌≤◌, ◌^◌, ◌++◌, Some, List, length, map, flat_map, min, slice_get, IfOk, OnOk};
ghost use Rattle.std.specs.List.{All};
ghost use Rattle.ed_base.specs.ChangeList.{step};
ghost use Rattle.ed_base.specs.Spans.{end_of};
ghost use Rattle.ed_layers.specs.CarrierStep.{member_slots, record_trails, slot_trail};
ghost use Rattle.ed_layers.specs.Records.{member_len, members_len, projection};
ghost use Rattle.ed_layers.specs.SourceStep.{without_last};
ghost use Rattle.ed_members.specs.Advance.{IsSound, step_index};
ghost use Rattle.ed_members.specs.Moving.{EndsInNew};
ghost use Rattle.ed_members.specs.Steps.{steps_seen};
ghost use Rattle.ed_members.specs.Ways.{LieBetween, SayFurther, goes_on, run_above};
ghost use Rattle.ed_pieces.specs.Trails.{AreRising, trails_in};
ghost use Rattle.ed_pieces.specs.declared.trails.TrailRun.{TrailRun};

use crate::held::{first_steps, index_in, len_after, owner_in, step_of};
use crate::members::Members;
use crate::steps::SourceStep;
use ed_base::{BufferNo, Member, OutOfMemory, SharedList, Span, Trail};
use ed_pieces::{TrailRun, Trails};
use std::alloc::Global;

/// Whether a member is this one. Those of an elision buffer aren't told apart.
fn is_own(of_elision: bool, owner: u32, member: u32) -> bool
    ensures { result ≡ (if of_elision then true else nat_eq owner member) }
{
    of_elision || owner == member
}

/// Whether units of this trail came last through the member of the carrier `me`, through any of an
/// elision buffer, and through another carrier before.
fn goes_on(me: BufferNo, of_elision: bool, member: u32, trail: &[(BufferNo, u32)]) -> bool
    ensures { result ≡ goes_on me of_elision member trail.now }
{
    match owner_in(me, trail) {
        Some(owner) => is_own(of_elision, owner, member) && trail.len() > 1,
        None => false,
    }
}

/// The trail without its last pair.
fn without_last(alloc: Global, trail: &[(BufferNo, u32)]) -> Result<Trail, OutOfMemory>
    ensures { IfOk result (λ t. t ≡ without_last trail.now) }
{
    let mut pairs = Vec::new(alloc);
    pairs.extend_from_slice(&trail[..trail.len().saturating_sub(1)])?;
    SharedList::of(alloc, pairs)
}

/// Where the span ends.
fn end_of(span: Span) -> u64
    ensures { result ≡ end_of span }
{
    u64::from(span.start) + u64::from(span.len)
}

/// Where the span ends, or this place if that comes first.
fn end_within(span: Span, place: u32) -> u32
    ensures { result ≡ min (end_of span) place }
{
    u32::try_from(end_of(span)).unwrap_or(u32::MAX).min(place)
}

/// The first run that ends behind the place.
fn first_behind(runs: &[TrailRun], place: u32) -> usize
    requires { AreRising 0 runs.now }
    ensures within { result ≤ length runs.now }
    ensures before { (i : ℕ) (r : TrailRun) → i < result → slice_get runs.now i ≡ Some r → end_of r.span ≤ place }
{
    runs.partition_point(|run| end_of(run.span) <= u64::from(place))
}

/// Puts what the run says of the units of the member, which begins at this place of its carrier.
fn put_above(
    alloc: Global,
    list: &mut Vec<TrailRun>,
    me: BufferNo,
    of_elision: bool,
    member: u32,
    place: u32,
    bounds: Span,
    run: &TrailRun,
) -> Result<(), OutOfMemory>
    requires bounds { end_of bounds < 2 ^ 32 }
    requires place { place + bounds.len < 2 ^ 32 }
    ensures { OnOk result (list.new.items ≡ list.old.items ++ run_above me of_elision member place bounds run.now) }
{
    let start = run.span.start.max(bounds.start);
    let end = end_within(run.span, bounds.start + bounds.len);
    if start < end && goes_on(me, of_elision, member, run.trail.as_slice()) {
        let trail = without_last(alloc, run.trail.as_slice())?;
        let span = Span {
            start: place + (start - bounds.start),
            len: end - start,
        };
        list.push(TrailRun { span, trail })?;
    }
    Ok(())
}

/// Puts what the runs of a source say of the units of the member. Runs that lie before it or behind
/// aren't looked at.
fn put_runs(
    alloc: Global,
    list: &mut Vec<TrailRun>,
    me: BufferNo,
    of_elision: bool,
    member: u32,
    place: u32,
    bounds: Span,
    runs: &[TrailRun],
) -> Result<(), OutOfMemory>
    requires rising { AreRising 0 runs.now }
    requires bounds { end_of bounds < 2 ^ 32 }
    requires place { place + bounds.len < 2 ^ 32 }
    ensures { OnOk result (list.new.items ≡ list.old.items ++ flat_map (run_above me of_elision member place bounds) runs.now) }
{
    let end = bounds.start + bounds.len;
    for at in first_behind(runs, bounds.start)..runs.len() {
        let run = &runs[at];
        if end <= run.span.start {
            return Ok(());
        }
        put_above(alloc, list, me, of_elision, member, place, bounds, run)?;
    }
    Ok(())
}

/// Puts what the step of its source says of the units of the member.
fn put_step(
    alloc: Global,
    list: &mut Vec<TrailRun>,
    me: BufferNo,
    of_elision: bool,
    member: u32,
    place: u32,
    bounds: Span,
    from: &SourceStep,
) -> Result<(), OutOfMemory>
    requires within { end_of bounds ≤ (step from.now.changes).new_len }
    requires place { place + bounds.len < 2 ^ 32 }
    ensures put { OnOk result (list.new.items ≡ list.old.items ++ flat_map (run_above me of_elision member place bounds) from.now.trails) }
    ensures sound { IsSound from.now }
{
    // The length is looked at for that it is below 2^32.
    let _len = len_after(&from.changes);
    let runs = from.trails.as_slice();
    put_runs(alloc, list, me, of_elision, member, place, bounds, runs)
}

/// Puts the ways of the units of the member with this index, which begins at this place.
fn put_member(
    alloc: Global,
    list: &mut Vec<TrailRun>,
    me: BufferNo,
    of_elision: bool,
    index: u32,
    place: u32,
    member: &Member,
    steps: &[SourceStep],
    at: Option<usize>,
) -> Result<(), OutOfMemory>
    requires first { at ≡ step_index steps.now member.now }
    requires within { EndsInNew (steps_seen steps.now) member.now }
    requires place { place + member_len member.now < 2 ^ 32 }
    requires lie { LieBetween 0 place list.old.items }
    ensures { OnOk result (SayFurther list.old.items list.new.items place (member_len member.now) (map (slot_trail me of_elision (steps_seen steps.now)) (member_slots (index, member.now)))) }
{
    match member {
        Member::Literal(_) => Ok(()),
        Member::Tracked { source, bounds, .. } => match step_of(steps, *source, at) {
            None => Ok(()),
            Some(step) => put_step(alloc, list, me, of_elision, index, place, *bounds, step),
        },
    }
}

impl Members {
    /// The ways of the units of the text of these members, which are those of the carrier `me` after
    /// these steps of their sources, one step a source: the way of a unit of a source that came last
    /// through this member of the carrier, without that pair. No other unit has one. The members of
    /// an elision buffer aren't told apart.
    ///
    /// # Errors
    ///
    /// Memory was refused.
    pub fn trails(
        &self,
        alloc: Global,
        me: BufferNo,
        of_elision: bool,
        steps: &[SourceStep],
    ) -> Result<Trails, OutOfMemory>
        requires within { All (EndsInNew (steps_seen steps.now)) self.now }
        ensures { IfOk result (λ t. (sources : List (ℕ × ℕ)) → trails_in t (members_len self.now) ≡ record_trails me of_elision (steps_seen steps.now) (projection self.now sources)) }
    {
        // The length is looked at for that it is below 2^32.
        let _len = self.len();
        let first = first_steps(alloc, steps)?;
        let mut list = Vec::new(alloc);
        for index in 0..self.count() {
            let member = self.get(index);
            let place = self.place(index);
            let at = index_in(&first, steps, member);
            put_member(
                alloc,
                &mut list,
                me,
                of_elision,
                index,
                place.start,
                member,
                steps,
                at,
            )?;
        }
        Trails::of(alloc, list)
    }
}
