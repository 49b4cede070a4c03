//! Spans of one list or of another.
ghost use Rattle.std.specs.Prelude.{◌≡◌, ℕ, ◌-◌, ◌<◌, ◌^◌, ◌||◌, ◌&&◌, not, All, IfOk};
ghost use Rattle.ed_spans.specs.SpanSets.{AreApartFrom, EndsWithin, in_spans};

use crate::between::gaps;
use crate::joining::join;
use ed_base::{OutOfMemory, Span};
use std::alloc::Global;

/// What one list of spans or the other holds, as spans that lie apart. The lists are in any order.
/// It takes O(k log k) for k spans, and O(k) where each list rises, since the sort merges what is in
/// order.
///
/// # Errors
///
/// Memory was refused.
pub fn union(alloc: Global, first: &[Span], second: &[Span]) -> Result<Vec<Span>, OutOfMemory>
    requires first { All (EndsWithin (2 ^ 32 - 1)) first.now }
    requires second { All (EndsWithin (2 ^ 32 - 1)) second.now }
    ensures holds { IfOk result (λ v. (q : ℕ) → in_spans v.items q ≡ (in_spans first.now q || in_spans second.now q)) }
    ensures apart { IfOk result (λ v. (n : ℕ) → All (EndsWithin n) first.now → All (EndsWithin n) second.now → AreApartFrom 0 n v.items) }
{
    let mut all = Vec::new(alloc);
    all.extend_from_slice(first)?;
    all.extend_from_slice(second)?;
    let joined = join(alloc, &all)?;
    Ok(joined)
}

/// What spans that lie apart in a text of `len` units hold and the others don't, as spans that lie
/// apart. The others are in any order. It takes O(k log k) for k spans, and O(k) where the others
/// rise.
///
/// # Errors
///
/// Memory was refused.
pub fn difference(
    alloc: Global,
    len: u32,
    spans: &[Span],
    others: &[Span],
) -> Result<Vec<Span>, OutOfMemory>
    requires apart { AreApartFrom 0 len spans.now }
    requires within { All (EndsWithin len) others.now }
    ensures apart { IfOk result (λ v. AreApartFrom 0 len v.items) }
    ensures holds { IfOk result (λ v. (q : ℕ) → q < len → in_spans v.items q ≡ (in_spans spans.now q && not (in_spans others.now q))) }
{
    let between = gaps(alloc, spans, len)?;
    let all = union(alloc, &between, others)?;
    let left = gaps(alloc, &all, len)?;
    Ok(left)
}
