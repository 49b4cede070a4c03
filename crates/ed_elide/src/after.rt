//! Hidden places after a step of the source.
ghost use Rattle.std.specs.Prelude.{◌≡◌, ◌-◌, ◌<◌, ◌≤◌, ◌^◌, ◌++◌, [], length, min, IfOk, OnOk};
ghost use Rattle.ed_base.specs.ChangeList.{IsNormal, new_len};
ghost use Rattle.ed_base.specs.Spans.{end_of};
ghost use Rattle.ed_kept.specs.Kept.{ArePairsRising, pairs_of};
ghost use Rattle.ed_layers.specs.Hidden.{among_hidden, flags_after};
ghost use Rattle.ed_layers.specs.SourceStep.{names};
ghost use Rattle.ed_members.specs.Steps.{step_seen};
ghost use Rattle.ed_spans.specs.SpanSets.{before};
ghost use Rattle.ed_elide.specs.AfterStep.{left_of, new_spans, own_spans, put_spans, right_of};

use crate::hidden::Hidden;
use crate::parts::parts_within;
use ed_base::{BufferNo, Change, Changes, OutOfMemory, Span};
use ed_kept::{KeptRun, kept_by};
use ed_members::SourceStep;
use ed_pieces::TrailRun;
use ed_spans::{difference, union};
use std::alloc::Global;

/// Puts the span from one place to another at the end, if it has a place.
fn put(list: &mut Vec<Span>, from: u32, to: u32) -> Result<(), OutOfMemory>
    ensures { OnOk result (list.new.items ≡ list.old.items ++ before from to []) }
{
    if from < to {
        list.push(Span {
            start: from,
            len: to - from,
        })?;
    }
    Ok(())
}

/// The new places of the runs.
fn new_spans(alloc: Global, runs: &[KeptRun]) -> Result<Vec<Span>, OutOfMemory>
    requires { ArePairsRising 0 0 (2 ^ 32 - 1) (2 ^ 32 - 1) (pairs_of runs.now) }
    ensures { IfOk result (λ v. v.items ≡ new_spans runs.now) }
{
    let mut list = Vec::new(alloc);
    for run in runs {
        if 0 < run.len {
            put(&mut list, run.new, run.new + run.len)?;
        }
    }
    Ok(list)
}

/// Whether the way goes through the buffer.
fn is_named(me: BufferNo, trail: &[(BufferNo, u32)]) -> bool
    ensures { result ≡ names me trail.now }
{
    trail.iter().any(|pair| pair.0 == me)
}

/// Where the span ends, or this place if that comes first.
fn end_within(span: Span, place: u32) -> u32
    ensures { result ≡ min (end_of span) place }
{
    let end = u64::from(span.start) + u64::from(span.len);
    u32::try_from(end).unwrap_or(u32::MAX).min(place)
}

/// The places of a text of `len` units that came through the buffer.
fn own_spans(
    alloc: Global,
    me: BufferNo,
    runs: &[TrailRun],
    len: u32,
) -> Result<Vec<Span>, OutOfMemory>
    ensures { IfOk result (λ v. v.items ≡ own_spans me len runs.now) }
{
    let mut list = Vec::new(alloc);
    for run in runs {
        if is_named(me, run.trail.as_slice()) {
            put(&mut list, run.span.start, end_within(run.span, len))?;
        }
    }
    Ok(list)
}

impl Hidden {
    /// Whether the change has a kept neighbour, and each that is there is hidden.
    fn is_among(&self, start: u32, end: u32) -> bool
        requires order { start ≤ end }
        requires within { end ≤ length self.now }
        ensures { result ≡ among_hidden self.now (left_of start) (right_of (length self.now) end) }
    {
        let len = self.len();
        if start == 0 {
            return end < len && self.is_hidden(end);
        }
        self.is_hidden(start - 1) && (end == len || self.is_hidden(end))
    }

    /// The new places of what is put in among hidden units.
    fn put_spans(&self, alloc: Global, changes: &Changes) -> Result<Vec<Span>, OutOfMemory>
        requires { changes.now.old_len ≡ length self.now }
        ensures spans { IfOk result (λ v. v.items ≡ put_spans self.now changes.now.old_len 0 0 changes.now.changes) }
        ensures normal { IsNormal changes.now }
        ensures old_short { changes.now.old_len < 2 ^ 32 }
    {
        let list = changes.as_slice();
        let mut spans = Vec::new(alloc);
        let (mut old, mut new) = (0u32, 0u32);
        for change in list {
            let start = new + (change.start - old);
            old = change.start + change.old_len;
            new = start + change.text.as_slice().len() as u32;
            if self.is_among(change.start, old) {
                put(&mut spans, start, new)?;
            }
        }
        Ok(spans)
    }

    /// The hidden places after this step of the source, of the buffer `me` over it. A unit that was
    /// kept stays hidden or shown. One that was put in is hidden where it has a kept neighbour and
    /// each that it has is hidden, unless it came through this buffer. It takes O(c log r + r) for c
    /// changes and runs of ways and r hidden runs.
    ///
    /// # Errors
    ///
    /// Memory was refused.
    pub fn advance(
        &self,
        alloc: Global,
        me: BufferNo,
        step: &SourceStep,
    ) -> Result<Hidden, OutOfMemory>
        requires { step.now.changes.old_len ≡ length self.now }
        ensures flags { IfOk result (λ h. h ≡ flags_after me (step_seen step.now) self.now) }
        ensures len { IfOk result (λ h. length h ≡ new_len step.now.changes) }
    {
        let len = step.changes.new_len();
        let kept = kept_by(alloc, &step.changes)?;
        let hidden = parts_within(alloc, &kept, self.runs())?;
        let stayed = new_spans(alloc, &hidden)?;
        let put = self.put_spans(alloc, &step.changes)?;
        let own = own_spans(alloc, me, step.trails.as_slice(), len)?;
        let among = difference(alloc, len, &put, &own)?;
        let spans = union(alloc, &stayed, &among)?;
        let next = Hidden::kept(alloc, len, spans)?;
        Ok(next)
    }
}
