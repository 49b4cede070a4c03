//! Kept runs by the spans that show them.
ghost use Rattle.std.specs.Prelude.{◌≡◌, ◌+◌, ◌-◌, ◌<◌, ◌^◌, ◌++◌, IfOk, OnOk};
ghost use Rattle.ed_base.specs.Spans.{end_of};
ghost use Rattle.ed_kept.specs.Kept.{ArePairsRising, pairs_of};
ghost use Rattle.ed_spans.specs.SpanSets.{AreApartFrom};
ghost use Rattle.ed_elide.specs.Pairs.{part_pairs, placed_in, turned};

use ed_base::{OutOfMemory, Span};
use ed_kept::KeptRun;
use std::alloc::Global;

/// Puts the part of the run that lies in the span at the end, if there is one. Its old place is
/// counted in the spans, of which so many places stand before this one.
fn put_part(list: &mut Vec<KeptRun>, run: KeptRun, span: Span, from: u32) -> Result<(), OutOfMemory>
    requires run_old { run.old + run.len < 2 ^ 32 }
    requires run_new { run.new + run.len < 2 ^ 32 }
    requires span { end_of span < 2 ^ 32 }
    requires from { from + span.len < 2 ^ 32 }
    ensures { OnOk result (pairs_of list.new.items ≡ pairs_of list.old.items ++ part_pairs from span run) }
{
    let start = run.old.max(span.start);
    let end = (run.old + run.len).min(span.start + span.len);
    if start < end {
        list.push(KeptRun {
            old: from + (start - span.start),
            new: run.new + (start - run.old),
            len: end - start,
        })?;
    }
    Ok(())
}

/// The parts of the runs that lie in these spans by their old places, which are counted in the spans
/// from then on. It takes O(r + s) for r runs and s spans.
///
/// # Errors
///
/// Memory was refused.
pub fn parts_within(
    alloc: Global,
    runs: &[KeptRun],
    spans: &[Span],
) -> Result<Vec<KeptRun>, OutOfMemory>
    requires rising { ArePairsRising 0 0 (2 ^ 32 - 1) (2 ^ 32 - 1) (pairs_of runs.now) }
    requires apart { AreApartFrom 0 (2 ^ 32 - 1) spans.now }
    ensures { IfOk result (λ v. pairs_of v.items ≡ placed_in 0 spans.now (pairs_of runs.now)) }
{
    let mut list = Vec::new(alloc);
    let (mut at, mut next) = (0, 0);
    let mut from = 0u32;
    while at < runs.len() && next < spans.len() {
        let (run, span) = (runs[at], spans[next]);
        if run.len == 0 {
            at += 1;
            continue;
        }
        put_part(&mut list, run, span, from)?;
        if span.start + span.len <= run.old + run.len {
            from += span.len;
            next += 1;
        } else {
            at += 1;
        }
    }
    Ok(list)
}

/// The same runs with the old and the new text exchanged.
///
/// # Errors
///
/// Memory was refused.
pub fn turned(alloc: Global, runs: &[KeptRun]) -> Result<Vec<KeptRun>, OutOfMemory>
    ensures { IfOk result (λ v. pairs_of v.items ≡ turned (pairs_of runs.now)) }
{
    let mut list = Vec::new(alloc);
    for run in runs {
        list.push(KeptRun {
            old: run.new,
            new: run.old,
            len: run.len,
        })?;
    }
    Ok(list)
}
