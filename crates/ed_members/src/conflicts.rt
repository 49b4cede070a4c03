//! Members of one source that can't stand together.
ghost use Rattle.std.specs.Prelude.{◌≡◌, ◌+◌, ◌<◌, ◌≤◌, ◌^◌, length, drop, find, option_map, None, Some, slice_get, IfErr, IfOk, IfSome, IsErrAnd, IsPermutation, MatchOption, nat_le};
ghost use Rattle.std.specs.List.{enumerate_from};
ghost use Rattle.ed_base.specs.Numbers.{places};
ghost use Rattle.ed_base.specs.Spans.{end_of};
ghost use Rattle.ed_layers.specs.Order.{conflict, first_conflict, in_order, overlap_fault, stands_before};
ghost use Rattle.ed_members.specs.Faults.{other_from};
ghost use Rattle.ed_members.specs.Sorted.{AreSorted};
ghost use Rattle.ed_members.specs.declared.fault.MemberFault.{MemberFault};

use crate::fault::MemberFault;
use crate::sorted::sorted;
use crate::sweeps::least_clashing;
use ed_base::{Member, SharedList, Span, SpanMode};
use std::alloc::Global;

/// Whether the span ends no later than the other starts.
pub fn ends_before(a: Span, b: Span) -> bool
    ensures { result ≡ nat_le (end_of a) b.start }
{
    u64::from(a.start) + u64::from(a.len) <= u64::from(b.start)
}

/// Whether the first of two members stands before the other: by start, then by end, then by index.
fn is_before(i: u32, a: Span, j: u32, b: Span) -> bool
    ensures { result ≡ stands_before (i, a) (j, b) }
{
    if a.start != b.start {
        return a.start < b.start;
    }
    if a.len != b.len {
        return a.len < b.len;
    }
    i < j
}

/// Whether the first of the two in their order ends no later than the other starts.
fn are_in_order(i: u32, a: Span, j: u32, b: Span) -> bool
    ensures { result ≡ in_order (i, a) (j, b) }
{
    is_before(i, a, j, b) && ends_before(a, b) || is_before(j, b, i, a) && ends_before(b, a)
}

/// Whether two members with their indices can't stand together.
fn do_conflict(i: u32, a: &Member, j: u32, b: &Member) -> bool
    ensures { result ≡ conflict (i, a.now) (j, b.now) }
{
    match (a, b) {
        (
            Member::Tracked {
                source: source_a,
                bounds: bounds_a,
                mode: mode_a,
            },
            Member::Tracked {
                source: source_b,
                bounds: bounds_b,
                mode: mode_b,
            },
        ) => {
            *source_a == *source_b
                && (*mode_a == SpanMode::EdgeInclusive
                    || *mode_b == SpanMode::EdgeInclusive
                    || !are_in_order(i, *bounds_a, j, *bounds_b))
        }
        _ => false,
    }
}

/// The first member behind this one that conflicts with it.
fn other_behind(members: &[Member], index: u32, member: &Member) -> Option<u32>
    requires few { length members.now < 2 ^ 32 }
    requires there { index < length members.now }
    ensures { result ≡ other_from members.now (index, member.now) (index + 1) }
{
    for other in index + 1..members.len() as u32 {
        let candidate = &members[other as usize];
        if do_conflict(index, member, other, candidate) {
            return Some(other);
        }
    }
    None
}

/// The first member that conflicts with one behind it, and the first such one, where none below this
/// index does. It compares each from there on with all behind it.
pub fn first_pair(members: &[Member], least: u32) -> Option<(u32, u32)>
    requires few { length members.now < 2 ^ 32 }
    requires within { least ≤ length members.now }
    requires first { first_conflict (enumerate_from least (drop least members.now)) ≡ first_conflict (enumerate_from 0 members.now) }
    ensures { result ≡ first_conflict (enumerate_from 0 members.now) }
{
    for index in least..members.len() as u32 {
        let member = &members[index as usize];
        if let Some(other) = other_behind(members, index, member) {
            return Some((index, other));
        }
    }
    None
}

/// The first member that conflicts with one behind it, and the first such one, where this is the
/// order of the members on their sources.
pub fn conflicting(members: &[Member], order: &[u32]) -> Option<(u32, u32)>
    requires few { length members.now < 2 ^ 32 }
    requires all { IsPermutation (places (length members.now)) order.now }
    requires sorted { AreSorted members.now order.now }
    ensures { result ≡ first_conflict (enumerate_from 0 members.now) }
{
    first_pair(members, least_clashing(members, order))
}

/// The indices of the members in order on their sources, where none conflict.
///
/// # Errors
///
/// `Overlap` names the first member that conflicts with one behind it, and the first such one, exactly
/// where there is one: where memory is refused for the order each two are compared. Else memory was
/// refused.
pub fn ordered(alloc: Global, members: &[Member]) -> Result<SharedList<u32>, MemberFault>
    requires few { length members.now < 2 ^ 32 }
    ensures fault { MatchOption (first_conflict (enumerate_from 0 members.now)) (IfErr result (λ e. e ≡ MemberFault.OutOfMemory)) (λ pair. IsErrAnd result (λ e. e ≡ MemberFault.Overlap pair.0 pair.1)) }
    ensures apart { IfOk result (λ o. overlap_fault members.now ≡ None) }
    ensures all { IfOk result (λ o. IsPermutation (places (length members.now)) o) }
    ensures sorted { IfOk result (λ o. AreSorted members.now o) }
{
    let order = sorted(alloc, members);
    let pair = match &order {
        Ok(order) => conflicting(members, order),
        Err(_) => first_pair(members, 0),
    };
    if let Some((index, other)) = pair {
        return Err(MemberFault::Overlap { index, other });
    }
    Ok(SharedList::of(alloc, order?)?)
}
