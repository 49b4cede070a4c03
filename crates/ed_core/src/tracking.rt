//! Spans that a hook tracks, across several versions.
ghost use Rattle.std.specs.Prelude.{◌≡◌, ◌≤◌, map};
ghost use Rattle.ed_base.specs.ChangeList.{step, new_len};
ghost use Rattle.ed_base.specs.Step.{inverse_step};
ghost use Rattle.ed_base.specs.Spans.{end_of};
ghost use Rattle.ed_base.specs.Tracking.{back_through, through, custom_span};
ghost use Rattle.ed_track.specs.Linked.{AreLinked, len_after, len_before};

use ed_base::{Changes, Span};
use ed_callbacks::CustomTrack;
use ed_track::{back_edges, edges};

/// Where a span goes across one step.
fn moved(custom: &CustomTrack, s: Span, changes: &Changes) -> Span
    requires { end_of s ≤ changes.now.old_len }
    ensures tracked { result ≡ custom_span custom.now.rule s (step changes.now) }
    ensures within { end_of result ≤ new_len changes.now }
{
    custom.track(edges(s, changes))
}

/// Where a span goes back across one step.
fn moved_back(custom: &CustomTrack, s: Span, changes: &Changes) -> Span
    requires { end_of s ≤ new_len changes.now }
    ensures tracked { result ≡ custom_span custom.now.rule s (inverse_step (step changes.now)) }
    ensures within { end_of result ≤ changes.now.old_len }
{
    custom.track(back_edges(s, changes))
}

/// Where a span goes through steps of which each begins where the one before ended; the hook is asked
/// once a step.
pub fn custom_through(custom: &CustomTrack, s: Span, steps: &[Changes]) -> Span
    requires linked { AreLinked steps.now }
    requires within { end_of s ≤ len_before (end_of s) steps.now }
    ensures { result ≡ through (custom_span custom.now.rule) s (map step steps.now) }
{
    let mut place = s;
    for changes in steps {
        place = moved(custom, place, changes);
    }
    place
}

/// The same back, from the text after the last step to the text before the first.
pub fn back_custom_through(custom: &CustomTrack, s: Span, steps: &[Changes]) -> Span
    requires linked { AreLinked steps.now }
    requires within { end_of s ≤ len_after (end_of s) steps.now }
    ensures { result ≡ back_through (custom_span custom.now.rule) s (map step steps.now) }
{
    let mut place = s;
    for changes in steps.iter().rev() {
        place = moved_back(custom, place, changes);
    }
    place
}
