//! Spans mapped up.
ghost use Rattle.std.specs.Prelude.{◌≡◌, ℕ, ◌+◌, ◌-◌, ◌<◌, ◌≤◌, ◌^◌, ◌++◌, flat_map, length, slice_get, IfOk, IsSome, OnOk, Some};
ghost use Rattle.ed_base.specs.declared.edit.Span.{Span};
ghost use Rattle.ed_base.specs.Spans.{end_of};
ghost use Rattle.ed_layers.specs.Mapping.{up_span};
ghost use Rattle.ed_map.specs.Images.{AreKnown, HasPut, IsFound, clipped};
ghost use Rattle.ed_map.specs.Up.{cut_to};
ghost use Rattle.ed_spans.specs.SpanSets.{AreApartFrom, AreRisingFrom, joined};

use crate::images::{Known, is_at, slot_of};
use crate::layers::{Layers, Placed};
use crate::shown::tracked;
use ed_base::{BufferNo, OutOfMemory, Span, SpanList, VersionNo};
use ed_spans::join_rising;
use std::alloc::Global;

/// The first of these spans, which lie apart, that ends behind the place, or else how many there
/// are, by bisection.
fn first_span_behind(spans: &[Span], at: u32) -> usize
    requires { AreApartFrom 0 (2 ^ 32 - 1) spans.now }
    ensures within { result ≤ length spans.now }
    ensures before { (i : ℕ) (s : Span) → i < result → slice_get spans.now i ≡ Some s → end_of s ≤ at }
{
    let mut low = 0;
    let mut high = spans.len();
    while low < high {
        let middle = low + (high - low) / 2;
        let span = spans[middle];
        if span.start + span.len <= at {
            low = middle + 1;
        } else {
            high = middle;
        }
    }
    low
}

/// Puts what the bounds of a member have of a span of its source behind the others.
///
/// # Errors
///
/// Memory was refused.
fn put_cut(span: Span, bounds: Span, at: u32, cuts: &mut Vec<Span>) -> Result<(), OutOfMemory>
    requires span { end_of span < 2 ^ 32 }
    requires bounds { end_of bounds < 2 ^ 32 }
    requires place { at + bounds.len < 2 ^ 32 }
    ensures { OnOk result (cuts.new.items ≡ cuts.old.items ++ cut_to bounds at span) }
{
    let from = span.start.max(bounds.start);
    let to = (span.start + span.len).min(bounds.start + bounds.len);
    if from < to {
        cuts.push(Span {
            start: at + (from - bounds.start),
            len: to - from,
        })?;
    }
    Ok(())
}

/// Puts what the bounds of a member have of these spans of its source behind the others, as the
/// places that it shows them at. Spans that lie elsewhere aren't looked at.
///
/// # Errors
///
/// Memory was refused.
fn put_cuts(spans: &[Span], bounds: Span, at: u32, cuts: &mut Vec<Span>) -> Result<(), OutOfMemory>
    requires apart { AreApartFrom 0 (2 ^ 32 - 1) spans.now }
    requires bounds { end_of bounds < 2 ^ 32 }
    requires place { at + bounds.len < 2 ^ 32 }
    ensures { OnOk result (cuts.new.items ≡ cuts.old.items ++ flat_map (cut_to bounds at) spans.now) }
{
    let end = bounds.start + bounds.len;
    for index in first_span_behind(spans, bounds.start)..spans.len() {
        let span = spans[index];
        if end <= span.start {
            return Ok(());
        }
        put_cut(span, bounds, at, cuts)?;
    }
    Ok(())
}

/// Puts what a text of `len` units has of the span behind the others.
///
/// # Errors
///
/// Memory was refused.
fn put_own(span: Span, len: u32, cuts: &mut Vec<Span>) -> Result<(), OutOfMemory>
    ensures { OnOk result (cuts.new.items ≡ cuts.old.items ++ clipped span len) }
{
    if span.start < len && 0 < span.len {
        cuts.push(Span {
            start: span.start,
            len: span.len.min(len - span.start),
        })?;
    }
    Ok(())
}

/// Keeps the images that a version has, and tells where they stand.
///
/// # Errors
///
/// Memory was refused.
fn keep(
    alloc: Global,
    b: BufferNo,
    v: VersionNo,
    cuts: &[Span],
    known: &mut Vec<Known>,
) -> Result<usize, OutOfMemory>
    requires { AreRisingFrom 0 (2 ^ 32 - 1) cuts.now }
    ensures { IfOk result (λ i. HasPut b v (joined cuts.now) i known.old.items known.new.items) }
{
    let spans = join_rising(alloc, cuts)?;
    let at = slot_of(known, b, v);
    known.insert(
        at,
        Known {
            buffer: b,
            version: v,
            spans,
        },
    )?;
    Ok(at)
}

/// Finds where a version shows the span of a lower buffer, unless it is known, and tells where it
/// stands among the known. So each source is asked once, however many members show it.
///
/// # Errors
///
/// Memory was refused.
fn find_images<L: Layers>(
    alloc: Global,
    layers: &L,
    of: BufferNo,
    span: Span,
    b: BufferNo,
    v: VersionNo,
    known: &mut Vec<Known>,
) -> Result<usize, OutOfMemory>
    requires there { IsSome (L.record_at layers.now b v) }
    requires known { AreKnown (L.record_at layers.now) (L.rank layers.now) of span known.old.items }
    ensures { IfOk result (λ i. IsFound (L.record_at layers.now) (L.rank layers.now) of span b v i known.new.items) }
{
    let found = slot_of(known, b, v);
    if is_at(known, found, b, v) {
        return Ok(found);
    }
    let mut cuts = Vec::new(alloc);
    let placed = layers.placed(b, v);
    if b == of {
        put_own(span, placed.len(), &mut cuts)?;
        return keep(alloc, b, v, &cuts, known);
    }
    match placed {
        Placed::Base { .. } => keep(alloc, b, v, &cuts, known),
        Placed::Carrier { members, sources } => {
            for index in 0..members.count() {
                if let Some(inner) = tracked(sources, members.get(index)) {
                    let at = find_images(
                        alloc,
                        layers,
                        of,
                        span,
                        inner.source,
                        inner.version,
                        known,
                    )?;
                    let images = &known[at];
                    let place = members.place(index);
                    put_cuts(&images.spans, inner.part, place.start, &mut cuts)?;
                }
            }
            keep(alloc, b, v, &cuts, known)
        }
    }
}

/// Where a version shows units of a span of a lower buffer, at the version of it that is reached:
/// the maximal runs of these places, by rising place, in UTF-16 units. There are none where the span
/// is empty, lies behind that text, or the buffer isn't reached; the top itself is reached.
///
/// It is `MapUpToBuffer` of the editor SDK's `IBufferGraph`. Each version below is asked once.
///
/// # Errors
///
/// Memory was refused.
pub fn up_span<L: Layers>(
    alloc: Global,
    layers: &L,
    top: BufferNo,
    v: VersionNo,
    span: Span,
    of: BufferNo,
) -> Result<SpanList, OutOfMemory>
    requires { IsSome (L.record_at layers.now top v) }
    ensures { IfOk result (λ spans. spans ≡ up_span (L.record_at layers.now) top v span of) }
{
    let mut known = Vec::new(alloc);
    let at = find_images(alloc, layers, of, span, top, v, &mut known)?;
    let found = known.remove(at);
    let Known { spans, .. } = found;
    SpanList::of(alloc, spans)
}
