//! Members that conflict, looked for by one sweep in each direction over the members in order on
//! their sources.
ghost use Rattle.std.specs.Prelude.{◌≡◌, ℕ, ◌+◌, ◌<◌, ◌≤◌, ◌^◌, ◌⊎◌, true, length, drop, slice_index, IsPermutation};
ghost use Rattle.std.specs.List.{enumerate_from};
ghost use Rattle.ed_base.specs.Numbers.{places};
ghost use Rattle.ed_layers.specs.Order.{first_conflict};
ghost use Rattle.ed_members.specs.Reaches.{are_clear, reach_at, reach_of, spanning};
ghost use Rattle.ed_members.specs.Sorted.{AreSorted};

use ed_base::{Member, SpanMode};

/// From where to where a member lies on its source, or the least range that has several: one more
/// than the number of the source, 0 for a literal, and whether one of them is to cover the source.
#[derive(Clone, Copy)]
pub struct Reach {
    pub source: u64,
    pub start: u64,
    pub end: u64,
    pub whole: bool,
}

/// Before the first and behind the last member.
const NOWHERE: Reach = Reach {
    source: 0,
    start: 0,
    end: 0,
    whole: false,
};

fn reach_of(member: &Member) -> Reach
    ensures { result ≡ reach_of member.now }
{
    match member {
        Member::Literal(_) => NOWHERE,
        Member::Tracked {
            source,
            bounds,
            mode,
        } => Reach {
            source: u64::from(source.0) + 1,
            start: u64::from(bounds.start),
            end: u64::from(bounds.start) + u64::from(bounds.len),
            whole: *mode == SpanMode::EdgeInclusive,
        },
    }
}

/// Whether the two are of two sources, or neither is to cover its source and the first ends no later
/// than the second starts.
fn are_clear(a: Reach, b: Reach) -> bool
    ensures { result ≡ are_clear a b }
{
    a.source != b.source || !a.whole && !b.whole && a.end <= b.start
}

/// The least range that has both, where they are of one source, and else the second.
fn spanning(a: Reach, b: Reach) -> Reach
    ensures { result ≡ spanning a b }
{
    if a.source == b.source {
        Reach {
            source: b.source,
            start: a.start.min(b.start),
            end: a.end.max(b.end),
            whole: a.whole || b.whole,
        }
    } else {
        b
    }
}

/// The lesser of the two, if this index is of a member that isn't clear.
fn lowered(least: u32, index: u32, clear: bool) -> u32
    ensures low { result ≤ least }
    ensures counted { (clear ≡ true) ⊎ (result ≤ index) }
{
    if clear { least } else { least.min(index) }
}

/// The least index of a member that isn't clear of all that stand before it, or else how many members
/// there are.
fn least_behind(members: &[Member], order: &[u32]) -> u32
    requires few { length members.now < 2 ^ 32 }
    requires all { IsPermutation (places (length members.now)) order.now }
    requires sorted { AreSorted members.now order.now }
    ensures within { result ≤ length members.now }
    ensures clear { (q p : ℕ) → q < p → p < length order.now → slice_index order.now p < result → are_clear (reach_at members.now (slice_index order.now q)) (reach_at members.now (slice_index order.now p)) ≡ true }
{
    let mut least = members.len() as u32;
    let mut before = NOWHERE;
    for at in 0..order.len() {
        let index = order[at];
        let here = reach_of(&members[index as usize]);
        least = lowered(least, index, are_clear(before, here));
        before = spanning(before, here);
    }
    least
}

/// The least index of a member of which not all that stand behind it are clear, or else how many
/// members there are.
fn least_ahead(members: &[Member], order: &[u32]) -> u32
    requires few { length members.now < 2 ^ 32 }
    requires all { IsPermutation (places (length members.now)) order.now }
    requires sorted { AreSorted members.now order.now }
    ensures within { result ≤ length members.now }
    ensures clear { (p q : ℕ) → p < q → q < length order.now → slice_index order.now p < result → are_clear (reach_at members.now (slice_index order.now p)) (reach_at members.now (slice_index order.now q)) ≡ true }
{
    let mut least = members.len() as u32;
    let mut behind = NOWHERE;
    let mut at = order.len();
    while at > 0 {
        at -= 1;
        let index = order[at];
        let here = reach_of(&members[index as usize]);
        least = lowered(least, index, are_clear(here, behind));
        behind = spanning(behind, here);
    }
    least
}

/// An index below which no member conflicts with one behind it. It is the least index of a member
/// that conflicts, but no clause says so: a lower one would only cost the caller time.
pub fn least_clashing(members: &[Member], order: &[u32]) -> u32
    requires few { length members.now < 2 ^ 32 }
    requires all { IsPermutation (places (length members.now)) order.now }
    requires sorted { AreSorted members.now order.now }
    ensures within { result ≤ length members.now }
    ensures first { first_conflict (enumerate_from result (drop result members.now)) ≡ first_conflict (enumerate_from 0 members.now) }
{
    least_behind(members, order).min(least_ahead(members, order))
}
