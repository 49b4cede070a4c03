//! Members in order on their sources.
ghost use Rattle.std.specs.Prelude.{◌≡◌, ◌<◌, ◌^◌, length, IfOk, IsTrue, IsPermutation, slice_get};
ghost use Rattle.ed_base.specs.Numbers.{places};
ghost use Rattle.ed_members.specs.Sorted.{AreSorted, key_of, source_key};

use ed_base::{Member, OutOfMemory, SharedList};
use std::alloc::Global;

/// One more than the number of the member's source, 0 for a literal.
pub fn source_key(member: &Member) -> u64
    ensures { result ≡ source_key member.now }
{
    match member {
        Member::Literal(_) => 0,
        Member::Tracked { source, .. } => u64::from(source.0) + 1,
    }
}

/// By source, then by start, by end and by index; literals first.
fn key(members: &[Member], index: u32) -> (u64, u32, u32, u32)
    ensures { result ≡ key_of (slice_get members.now index) index }
{
    match members.get(index as usize) {
        Some(Member::Tracked { source, bounds, .. }) => {
            (u64::from(source.0) + 1, bounds.start, bounds.len, index)
        }
        _ => (0, 0, 0, index),
    }
}

/// The numbers below this one, rising.
fn counted(alloc: Global, len: u32) -> Result<Vec<u32>, OutOfMemory>
    ensures { IfOk result (λ v. v.items ≡ places len) }
{
    let mut numbers: Vec<u32> = Vec::new(alloc);
    for index in 0..len {
        numbers.push(index)?;
    }
    Ok(numbers)
}

/// The indices of the members, in order.
///
/// # Errors
///
/// Memory was refused.
pub fn sorted(alloc: Global, members: &[Member]) -> Result<Vec<u32>, OutOfMemory>
    requires { length members.now < 2 ^ 32 }
    ensures all { IfOk result (λ v. IsPermutation (places (length members.now)) v.items) }
    ensures sorted { IfOk result (λ v. AreSorted members.now v.items) }
{
    let mut order = counted(alloc, members.len() as u32)?;
    order.sort_by_key(|index| key(members, *index))?;
    Ok(order)
}

/// Whether the indices are in order.
fn are_sorted(members: &[Member], order: &[u32]) -> bool
    requires { IsPermutation (places (length members.now)) order.now }
    ensures { IsTrue result → AreSorted members.now order.now }
{
    for at in 1..order.len() {
        let before = key(members, order[at - 1]);
        if key(members, order[at]).cmp(&before).is_lt() {
            return false;
        }
    }
    true
}

/// The indices of the members in order, which may be as they were: they are sorted only where they
/// aren't.
///
/// # Errors
///
/// Memory was refused.
pub fn sorted_after(
    alloc: Global,
    members: &[Member],
    order: &SharedList<u32>,
) -> Result<SharedList<u32>, OutOfMemory>
    requires few { length members.now < 2 ^ 32 }
    requires all { IsPermutation (places (length members.now)) order.now }
    ensures all { IfOk result (λ o. IsPermutation (places (length members.now)) o) }
    ensures sorted { IfOk result (λ o. AreSorted members.now o) }
{
    if are_sorted(members, order.as_slice()) {
        return order.share();
    }
    SharedList::of(alloc, sorted(alloc, members)?)
}
