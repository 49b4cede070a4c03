//! Spans joined where they overlap or touch.
ghost use Rattle.std.specs.Prelude.{◌≡◌, ℕ, ◌-◌, ◌<◌, ◌≤◌, ◌^◌, All, IfOk, filter, max, nat_lt};
ghost use Rattle.ed_base.specs.Runs.{runs};
ghost use Rattle.ed_base.specs.Spans.{end_of, span_between};
ghost use Rattle.ed_spans.specs.SpanSets.{AreApartFrom, AreInOrder, AreRisingFrom, EndsWithin, in_spans, joined};

use ed_base::{OutOfMemory, Span};
use std::alloc::Global;

/// The spans that have a place, in their order.
fn nonempty(alloc: Global, spans: &[Span]) -> Result<Vec<Span>, OutOfMemory>
    ensures { IfOk result (λ v. v.items ≡ filter (λ s. nat_lt 0 s.len) spans.now) }
{
    let mut list = Vec::new(alloc);
    for span in spans {
        if 0 < span.len {
            list.push(*span)?;
        }
    }
    Ok(list)
}

/// The spans that have a place, by rising start.
fn by_start(alloc: Global, spans: &[Span]) -> Result<Vec<Span>, OutOfMemory>
    ensures { IfOk result (λ v. AreInOrder spans.now v.items) }
{
    let mut order = nonempty(alloc, spans)?;
    order.sort_by_key(|span| span.start)?;
    Ok(order)
}

/// Both spans and what lies between them, where the second doesn't begin before the first.
fn over_both(first: Span, second: Span) -> Span
    requires first { end_of first < 2 ^ 32 }
    requires second { end_of second < 2 ^ 32 }
    requires order { first.start ≤ second.start }
    ensures { result ≡ span_between first.start (max (end_of first) (end_of second)) }
{
    let end = (first.start + first.len).max(second.start + second.len);
    Span {
        start: first.start,
        len: end - first.start,
    }
}

/// Spans by rising start, of which none is empty, joined where they overlap or touch. It takes
/// O(k) for k spans. The answer are the maximal runs of the places that the spans hold.
///
/// # Errors
///
/// Memory was refused.
pub fn join_rising(alloc: Global, spans: &[Span]) -> Result<Vec<Span>, OutOfMemory>
    requires rising { AreRisingFrom 0 (2 ^ 32 - 1) spans.now }
    ensures joined { IfOk result (λ v. v.items ≡ joined spans.now) }
    ensures holds { IfOk result (λ v. (q : ℕ) → in_spans v.items q ≡ in_spans spans.now q) }
    ensures apart { IfOk result (λ v. (n : ℕ) → All (EndsWithin n) spans.now → AreApartFrom 0 n v.items) }
    ensures runs { IfOk result (λ v. (n : ℕ) → All (EndsWithin n) spans.now → v.items ≡ runs (in_spans spans.now) n) }
{
    let mut list = Vec::new(alloc);
    if spans.is_empty() {
        return Ok(list);
    }
    let mut open = spans[0];
    for at in 1..spans.len() {
        let span = spans[at];
        if span.start <= open.start + open.len {
            open = over_both(open, span);
        } else {
            list.push(open)?;
            open = span;
        }
    }
    list.push(open)?;
    Ok(list)
}

/// Spans in any order, also empty ones, joined where they overlap or touch: the maximal runs of the
/// places that they hold, by rising start. It takes O(k log k) for k spans.
///
/// # Errors
///
/// Memory was refused.
pub fn join(alloc: Global, spans: &[Span]) -> Result<Vec<Span>, OutOfMemory>
    requires within { All (EndsWithin (2 ^ 32 - 1)) spans.now }
    ensures holds { IfOk result (λ v. (q : ℕ) → in_spans v.items q ≡ in_spans spans.now q) }
    ensures apart { IfOk result (λ v. (n : ℕ) → All (EndsWithin n) spans.now → AreApartFrom 0 n v.items) }
    ensures runs { IfOk result (λ v. (n : ℕ) → All (EndsWithin n) spans.now → v.items ≡ runs (in_spans spans.now) n) }
{
    let order = by_start(alloc, spans)?;
    let joined = join_rising(alloc, &order)?;
    Ok(joined)
}
