//! What lies between spans.
ghost use Rattle.std.specs.Prelude.{◌≡◌, ℕ, ◌<◌, ◌++◌, IfOk, OnOk, not, []};
ghost use Rattle.ed_base.specs.Runs.{runs};
ghost use Rattle.ed_spans.specs.SpanSets.{AreApartFrom, before, gaps, in_spans};

use ed_base::{OutOfMemory, Span};
use std::alloc::Global;

/// Puts the span from one place to another at the end, if it has a place.
fn put_before(list: &mut Vec<Span>, from: u32, to: u32) -> Result<(), OutOfMemory>
    ensures { OnOk result (list.new.items ≡ list.old.items ++ before from to []) }
{
    if from < to {
        list.push(Span {
            start: from,
            len: to - from,
        })?;
    }
    Ok(())
}

/// What lies between spans that lie apart, in a text of `len` units: the maximal runs of the places
/// that they don't hold, by rising start. It takes O(k) for k spans.
///
/// # Errors
///
/// Memory was refused.
pub fn gaps(alloc: Global, spans: &[Span], len: u32) -> Result<Vec<Span>, OutOfMemory>
    requires apart { AreApartFrom 0 len spans.now }
    ensures gaps { IfOk result (λ v. v.items ≡ gaps 0 len spans.now) }
    ensures apart { IfOk result (λ v. AreApartFrom 0 len v.items) }
    ensures holds { IfOk result (λ v. (q : ℕ) → q < len → in_spans v.items q ≡ not (in_spans spans.now q)) }
    ensures runs { IfOk result (λ v. v.items ≡ runs (λ q. not (in_spans spans.now q)) len) }
{
    let mut list = Vec::new(alloc);
    let mut from = 0;
    for span in spans {
        put_before(&mut list, from, span.start)?;
        from = span.start + span.len;
    }
    put_before(&mut list, from, len)?;
    Ok(list)
}
