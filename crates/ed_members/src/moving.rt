//! Members after the steps of their sources.
ghost use Rattle.std.specs.Prelude.{◌≡◌, None, ◌≤◌, length, IfOk, IsPermutation};
ghost use Rattle.std.specs.List.{All};
ghost use Rattle.ed_base.specs.ChangeList.{step};
ghost use Rattle.ed_base.specs.Numbers.{places};
ghost use Rattle.ed_base.specs.Spans.{end_of};
ghost use Rattle.ed_layers.specs.Bounds.{members_after};
ghost use Rattle.ed_layers.specs.Order.{overlap_fault};
ghost use Rattle.ed_members.specs.Advance.{bounds_with, moved_by, step_index};
ghost use Rattle.ed_members.specs.Moving.{EndsInOld, EndsInNew, OwnInside, OwnInOrder};
ghost use Rattle.ed_members.specs.Sorted.{AreSorted};
ghost use Rattle.ed_members.specs.Steps.{steps_seen};

use crate::copies::copied;
use crate::held::{Held, held_by, len_after, step_indices, step_of};
use crate::nexts::next_starts;
use crate::steps::SourceStep;
use ed_base::{BufferNo, Changes, Member, OutOfMemory, PointMode, Span, SpanMode};
use ed_track::point;
use std::alloc::Global;

/// The new bounds of a member that holds this range, before the next that holds something.
fn new_bounds(
    bounds: Span,
    mode: SpanMode,
    changes: &Changes,
    held: Option<Held>,
    next: Option<u32>,
) -> Span
    requires { end_of bounds ≤ changes.now.old_len }
    ensures { result ≡ bounds_with (step changes.now) mode bounds held next }
{
    if mode == SpanMode::EdgeInclusive {
        return Span {
            start: 0,
            len: len_after(changes),
        };
    }
    match held {
        Some(range) => Span {
            start: range.start,
            len: range.end.saturating_sub(range.start),
        },
        None => {
            let start = point(PointMode::Positive, bounds.start, changes);
            Span {
                start: next.map_or(start, |next| start.min(next)),
                len: 0,
            }
        }
    }
}

/// The member after the step with this index. A literal's units are shared.
fn moved(
    member: &Member,
    steps: &[SourceStep],
    index: Option<usize>,
    held: Option<Held>,
    next: Option<u32>,
) -> Result<Member, OutOfMemory>
    requires first { index ≡ step_index steps.now member.now }
    requires within { EndsInOld (steps_seen steps.now) member.now }
    ensures { IfOk result (λ m. m ≡ moved_by (steps_seen steps.now) held next member.now) }
{
    match member {
        Member::Literal(_) => copied(member),
        Member::Tracked {
            source,
            bounds,
            mode,
        } => Ok(Member::Tracked {
            source: *source,
            bounds: match step_of(steps, *source, index) {
                None => *bounds,
                Some(step) => new_bounds(*bounds, *mode, &step.changes, held, next),
            },
            mode: *mode,
        }),
    }
}

/// The members after these steps of their sources, where this is their order on the sources.
///
/// # Errors
///
/// Memory was refused.
pub fn moved_members(
    alloc: Global,
    me: BufferNo,
    members: &[Member],
    order: &[u32],
    steps: &[SourceStep],
) -> Result<Vec<Member>, OutOfMemory>
    requires all { IsPermutation (places (length members.now)) order.now }
    requires sorted { AreSorted members.now order.now }
    requires within { All (EndsInOld (steps_seen steps.now)) members.now }
    ensures members { IfOk result (λ v. v.items ≡ members_after me (steps_seen steps.now) members.now) }
    ensures apart { IfOk result (λ v. overlap_fault members.now ≡ None → OwnInside me (steps_seen steps.now) members.now → OwnInOrder me (steps_seen steps.now) members.now → overlap_fault v.items ≡ None) }
    ensures count { IfOk result (λ v. length v.items ≡ length members.now) }
    ensures within { IfOk result (λ v. All (EndsInNew (steps_seen steps.now)) v.items) }
{
    let indices = step_indices(alloc, members, steps)?;
    let held = held_by(alloc, me, members, steps, &indices)?;
    let nexts = next_starts(alloc, members, order, &held)?;
    let mut list = Vec::new(alloc);
    for index in 0..members.len() {
        let member = &members[index];
        list.push(moved(member, steps, indices[index], held[index], nexts[index])?)?;
    }
    Ok(list)
}
