//! Where spans go.
ghost use Rattle.std.specs.Prelude.{◌≡◌, ◌≤◌};
ghost use Rattle.ed_base.specs.ChangeList.{new_len, step};
ghost use Rattle.ed_base.specs.Spans.{end_of, span_between};
ghost use Rattle.ed_base.specs.Step.{inverse_step};
ghost use Rattle.ed_base.specs.Tracking.{edges, tracked_span};
ghost use Rattle.ed_track.specs.Sides.{AreWithin, end_side, start_side};
ghost use Rattle.ed_track.specs.Ways.{from_len, to_len, way_step};

use crate::edge::{Way, tracked};
use ed_base::{Changes, Edges, PointMode, Span, SpanMode};

/// How the start of a span goes.
fn start_mode(mode: SpanMode) -> PointMode
    ensures { result ≡ start_side mode }
{
    match mode {
        SpanMode::EdgeExclusive | SpanMode::EdgePositive => PointMode::Positive,
        SpanMode::EdgeInclusive | SpanMode::EdgeNegative => PointMode::Negative,
    }
}

/// How the end of a span goes.
fn end_mode(mode: SpanMode) -> PointMode
    ensures { result ≡ end_side mode }
{
    match mode {
        SpanMode::EdgeInclusive | SpanMode::EdgePositive => PointMode::Positive,
        SpanMode::EdgeExclusive | SpanMode::EdgeNegative => PointMode::Negative,
    }
}

/// The span from one place to another; empty at the start where the end lies before it.
fn between(start: u32, end: u32) -> Span
    ensures { result ≡ span_between start end }
{
    Span {
        start,
        len: end.saturating_sub(start),
    }
}

fn span_on(changes: &Changes, way: Way, mode: SpanMode, s: Span) -> Span
    requires { end_of s ≤ from_len way changes.now }
    ensures tracked { result ≡ tracked_span mode s (way_step way changes.now) }
    ensures within { end_of result ≤ to_len way changes.now }
{
    let start = tracked(changes, way, start_mode(mode), s.start);
    let end = s.start + s.len;
    between(start, tracked(changes, way, end_mode(mode), end))
}

fn edges_on(changes: &Changes, way: Way, s: Span) -> Edges
    requires { end_of s ≤ from_len way changes.now }
    ensures tracked { result ≡ edges s (way_step way changes.now) }
    ensures within { AreWithin (to_len way changes.now) result }
{
    let start_neg = tracked(changes, way, PointMode::Negative, s.start);
    let start_pos = tracked(changes, way, PointMode::Positive, s.start);
    let end = s.start + s.len;
    Edges {
        len: s.len,
        start_neg,
        start_pos,
        end_neg: tracked(changes, way, PointMode::Negative, end),
        end_pos: tracked(changes, way, PointMode::Positive, end),
    }
}

/// Where a span of the old text goes in the new one. Places are in units.
pub fn span(mode: SpanMode, s: Span, changes: &Changes) -> Span
    requires { end_of s ≤ changes.now.old_len }
    ensures tracked { result ≡ tracked_span mode s (step changes.now) }
    ensures within { end_of result ≤ new_len changes.now }
{
    span_on(changes, Way::Forward, mode, s)
}

/// Where a span of the new text goes in the old one. Places are in units.
pub fn back_span(mode: SpanMode, s: Span, changes: &Changes) -> Span
    requires { end_of s ≤ new_len changes.now }
    ensures tracked { result ≡ tracked_span mode s (inverse_step (step changes.now)) }
    ensures within { end_of result ≤ changes.now.old_len }
{
    span_on(changes, Way::Back, mode, s)
}

/// Where both edges of a span of the old text may go in the new one.
pub fn edges(s: Span, changes: &Changes) -> Edges
    requires { end_of s ≤ changes.now.old_len }
    ensures tracked { result ≡ edges s (step changes.now) }
    ensures within { AreWithin (new_len changes.now) result }
{
    edges_on(changes, Way::Forward, s)
}

/// Where both edges of a span of the new text may go in the old one.
pub fn back_edges(s: Span, changes: &Changes) -> Edges
    requires { end_of s ≤ new_len changes.now }
    ensures tracked { result ≡ edges s (inverse_step (step changes.now)) }
    ensures within { AreWithin changes.now.old_len result }
{
    edges_on(changes, Way::Back, s)
}
