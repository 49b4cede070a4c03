//! Where the next member begins that holds something.
ghost use Rattle.std.specs.Prelude.{◌≡◌, ℕ, ◌+◌, ◌<◌, None, length, drop, option_map, slice_index, slice_index_or, IfOk, IsPermutation};
ghost use Rattle.ed_base.specs.Numbers.{places, or_else};
ghost use Rattle.ed_members.specs.Nexts.{next_in, source_at, start_on};
ghost use Rattle.ed_members.specs.Sorted.{AreSorted};

use crate::held::Held;
use crate::sorted::source_key;
use ed_base::{Member, OutOfMemory};
use std::alloc::Global;

/// Where the next member begins that holds something, among those that follow in the order.
#[derive(Clone, Copy)]
pub struct Carried {
    pub source: u64,
    pub start: Option<u32>,
}

/// The same for members of this source.
fn on_source(carried: Carried, source: u64) -> Option<u32>
    ensures { result ≡ start_on carried source }
{
    if carried.source == source {
        carried.start
    } else {
        None
    }
}

/// The start of what a member holds, and else where the next begins.
fn first_start(held: Option<Held>, next: Option<u32>) -> Option<u32>
    ensures { result ≡ or_else (option_map (λ h. h.start) held) next }
{
    match held {
        Some(range) => Some(range.start),
        None => next,
    }
}

/// For each member the new start of the next on its source that holds something, where there is one.
///
/// # Errors
///
/// Memory was refused.
pub fn next_starts(
    alloc: Global,
    members: &[Member],
    order: &[u32],
    held: &[Option<Held>],
) -> Result<Vec<Option<u32>>, OutOfMemory>
    requires all { IsPermutation (places (length members.now)) order.now }
    requires sorted { AreSorted members.now order.now }
    requires long { length held.now ≡ length members.now }
    ensures long { IfOk result (λ v. length v.items ≡ length members.now) }
    ensures each { IfOk result (λ v. (p : ℕ) → p < length order.now → slice_index_or v.items (slice_index order.now p) None ≡ next_in members.now held.now (source_at members.now (slice_index order.now p)) (drop (p + 1) order.now)) }
{
    let mut nexts: Vec<Option<u32>> = vec![in alloc; None; members.len()]?;
    let mut carried = Carried {
        source: 0,
        start: None,
    };
    let mut at = order.len();
    while at > 0 {
        at -= 1;
        let index = order[at] as usize;
        let source = source_key(&members[index]);
        let next = on_source(carried, source);
        nexts[index] = next;
        carried = Carried {
            source,
            start: first_start(held[index], next),
        };
    }
    Ok(nexts)
}
