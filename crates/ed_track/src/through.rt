//! Where points and spans go through several steps.
ghost use Rattle.std.specs.Prelude.{◌≡◌, ◌≤◌, map};
ghost use Rattle.ed_base.specs.ChangeList.{step};
ghost use Rattle.ed_base.specs.Spans.{end_of};
ghost use Rattle.ed_base.specs.Tracking.{back_through, through, tracked_point, tracked_span};
ghost use Rattle.ed_track.specs.Linked.{AreLinked, len_after, len_before};

use crate::points::{back_point, point};
use crate::spans::{back_span, span};
use ed_base::{Changes, PointMode, Span, SpanMode};

/// Where a point goes through steps of which each begins where the one before ended.
pub fn point_through(mode: PointMode, p: u32, steps: &[Changes]) -> u32
    requires linked { AreLinked steps.now }
    requires within { p ≤ len_before p steps.now }
    ensures tracked { result ≡ through (tracked_point mode) p (map step steps.now) }
    ensures within { result ≤ len_after p steps.now }
{
    let mut place = p;
    for changes in steps {
        place = point(mode, place, changes);
    }
    place
}

/// Where a span goes through steps of which each begins where the one before ended.
pub fn span_through(mode: SpanMode, s: Span, steps: &[Changes]) -> Span
    requires linked { AreLinked steps.now }
    requires within { end_of s ≤ len_before (end_of s) steps.now }
    ensures tracked { result ≡ through (tracked_span mode) s (map step steps.now) }
    ensures within { end_of result ≤ len_after (end_of s) steps.now }
{
    let mut place = s;
    for changes in steps {
        place = span(mode, place, changes);
    }
    place
}

/// Where a point goes back through steps of which each begins where the one before ended: from the
/// text after the last to the text before the first.
pub fn back_point_through(mode: PointMode, p: u32, steps: &[Changes]) -> u32
    requires linked { AreLinked steps.now }
    requires within { p ≤ len_after p steps.now }
    ensures tracked { result ≡ back_through (tracked_point mode) p (map step steps.now) }
    ensures within { result ≤ len_before p steps.now }
{
    let mut place = p;
    for changes in steps.iter().rev() {
        place = back_point(mode, place, changes);
    }
    place
}

/// Where a span goes back through steps of which each begins where the one before ended: from the
/// text after the last to the text before the first.
pub fn back_span_through(mode: SpanMode, s: Span, steps: &[Changes]) -> Span
    requires linked { AreLinked steps.now }
    requires within { end_of s ≤ len_after (end_of s) steps.now }
    ensures tracked { result ≡ back_through (tracked_span mode) s (map step steps.now) }
    ensures within { end_of result ≤ len_before (end_of s) steps.now }
{
    let mut place = s;
    for changes in steps.iter().rev() {
        place = back_span(mode, place, changes);
    }
    place
}
