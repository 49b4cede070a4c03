//! Points and spans of one version of a buffer in another.
ghost use Rattle.std.specs.Prelude.{◌≡◌, ◌<◌, ◌≤◌, length};
ghost use Rattle.ed_base.specs.Spans.{end_of};
ghost use Rattle.ed_base.specs.Tracking.{tracked_point, tracked_span, custom_span, between_versions};
ghost use Rattle.ed_stock.specs.Stock.{count, now, text_at, steps_of};
ghost use Rattle.ed_group.specs.Seen.{stock as seen};

use crate::tracking::{back_custom_through, custom_through};
use ed_base::{BufferNo, PointMode, Span, SpanMode, VersionNo};
use ed_callbacks::CustomTrack;
use ed_group::Stock;
use ed_track::{back_point_through, back_span_through, point_through, span_through};

/// Where a point of one version of a buffer goes in another.
pub fn point_between(
    stock: &Stock,
    buffer: BufferNo,
    mode: PointMode,
    pos: u32,
    from: VersionNo,
    to: VersionNo,
) -> u32
    requires there { buffer < count (seen stock.now) }
    requires from_there { from ≤ now (seen stock.now) buffer }
    requires to_there { to ≤ now (seen stock.now) buffer }
    requires within { pos ≤ length (text_at (seen stock.now) buffer from) }
    ensures { result ≡ between_versions (tracked_point mode) (steps_of (seen stock.now) buffer) pos from to }
{
    if from.0 <= to.0 {
        point_through(mode, pos, stock.steps(buffer, from, to))
    } else {
        back_point_through(mode, pos, stock.steps(buffer, to, from))
    }
}

/// Where a span of one version of a buffer goes in another, by a mode.
pub fn span_between(
    stock: &Stock,
    buffer: BufferNo,
    mode: SpanMode,
    span: Span,
    from: VersionNo,
    to: VersionNo,
) -> Span
    requires there { buffer < count (seen stock.now) }
    requires from_there { from ≤ now (seen stock.now) buffer }
    requires to_there { to ≤ now (seen stock.now) buffer }
    requires within { end_of span ≤ length (text_at (seen stock.now) buffer from) }
    ensures { result ≡ between_versions (tracked_span mode) (steps_of (seen stock.now) buffer) span from to }
{
    if from.0 <= to.0 {
        span_through(mode, span, stock.steps(buffer, from, to))
    } else {
        back_span_through(mode, span, stock.steps(buffer, to, from))
    }
}

/// Where a span of one version of a buffer goes in another, by a hook.
pub fn custom_between(
    stock: &Stock,
    buffer: BufferNo,
    custom: &CustomTrack,
    span: Span,
    from: VersionNo,
    to: VersionNo,
) -> Span
    requires there { buffer < count (seen stock.now) }
    requires from_there { from ≤ now (seen stock.now) buffer }
    requires to_there { to ≤ now (seen stock.now) buffer }
    requires within { end_of span ≤ length (text_at (seen stock.now) buffer from) }
    ensures { result ≡ between_versions (custom_span custom.now.rule) (steps_of (seen stock.now) buffer) span from to }
{
    if from.0 <= to.0 {
        custom_through(custom, span, stock.steps(buffer, from, to))
    } else {
        back_custom_through(custom, span, stock.steps(buffer, to, from))
    }
}
