//! Hidden places of a text, worked by hand.
ghost use Rattle.std.specs.Prelude.{◌≡◌, ◌+◌, ◌<◌, ◌≤◌, ◌^◌, IfOk, length};
ghost use Rattle.ed_spans.specs.SpanSets.{EndsWithin};

use ed_base::{BufferNo, Changes, Replace, SharedList, Span};
use ed_change::{normalise, puts_in_at_most};
use ed_elide::Hidden;
use ed_members::SourceStep;
use ed_pieces::{TrailRun, Trails};
use ed_text::{DocText, MOST_UNITS, Text};
use ed_units::to_units;
use std::alloc::Global;
use std::fmt::Write;
use std::test::*;

/// A start and a length.
type Pair = (u32, u32);

/// Of ten places two spans that are hidden, one more, one that is shown then, what is hidden at the
/// end (`#`), and how many runs are shown.
const SETS: [(Pair, Pair, Pair, Pair, &str, u32); 7] = [
    ((7, 2), (1, 2), (3, 1), (0, 0), ".###...##.", 3),
    ((1, 2), (3, 2), (2, 4), (3, 1), ".##.##....", 3),
    ((2, 4), (3, 1), (4, 4), (5, 0), "..######..", 2),
    ((0, 5), (5, 5), (0, 10), (10, 0), "##########", 0),
    ((0, 10), (0, 0), (9, 1), (0, 10), "..........", 1),
    ((0, 0), (10, 0), (2, 3), (2, 3), "..........", 1),
    ((0, 2), (8, 2), (0, 1), (1, 1), "#.......##", 1),
];

/// A replace of the text `abcdefgh`, of which `cde` is hidden, whether what it puts in came through
/// the elision buffer, what is hidden then, and the changes of what is shown as `start+old_len:text;`.
const STEPS: [(Pair, &str, bool, &str, &str); 8] = [
    ((3, 0), "X", false, "..####...", ""),
    ((3, 0), "X", true, "..#.##...", "2+0:X;"),
    ((2, 1), "X", false, "...##...", "2+0:X;"),
    ((5, 0), "X", false, "..###....", "2+0:X;"),
    ((3, 1), "", false, "..##...", ""),
    ((2, 3), "", false, ".....", ""),
    ((1, 3), "XY", false, "...#...", "1+1:XY;"),
    ((0, 8), "XY", false, "..", "0+5:XY;"),
];

/// A span of a text of this length.
fn span_in(len: u32, pair: Pair) -> Result<Span, Fail>
    ensures { IfOk result (EndsWithin len) }
{
    let (start, span_len) = pair;
    if start > len || span_len > len - start {
        return Err("past the end".into());
    }
    Ok(Span {
        start,
        len: span_len,
    })
}

/// Each place of a set: `#` where it is hidden.
fn places(alloc: Global, hidden: &Hidden) -> Result<String, Fail> {
    let mut text = String::new(alloc);
    for place in 0..hidden.len() {
        text.push(if hidden.is_hidden(place) { '#' } else { '.' })?;
    }
    Ok(text)
}

/// Whether two spans are hidden, one more, and one is shown then, with this outcome.
fn set_is(
    alloc: Global,
    hide: (Pair, Pair),
    more: Pair,
    less: Pair,
    expected: &str,
    shown: u32,
) -> Result<bool, Fail> {
    let (first, second) = hide;
    let hidden = Hidden::of(alloc, 10, &[span_in(10, first)?, span_in(10, second)?])?;
    let wide = hidden.elide(alloc, &[span_in(hidden.len(), more)?])?;
    let narrow = wide.expand(alloc, &[span_in(wide.len(), less)?])?;
    let found = places(alloc, &narrow)?;
    Ok(found.as_str() == expected && narrow.shown_count() == shown)
}

#[test]
fn sets_of_places(rt: HostRuntime) -> Result<(), Fail> {
    let alloc = rt.alloc();
    for (first, second, more, less, expected, shown) in SETS {
        let same = set_is(alloc, (first, second), more, less, expected, shown)?;
        assert!(rt; same);
    }
    Ok(())
}

/// The ways of units of which those in the span came through member 0 of buffer 1, or none through
/// any.
fn ways(alloc: Global, span: Span, sent: bool) -> Result<Trails, Fail> {
    if !sent {
        return Ok(Trails::empty());
    }
    let trail = SharedList::of(alloc, vec![in alloc; (BufferNo(1), 0)]?)?;
    let mut runs = Vec::new(alloc);
    runs.push(TrailRun { span, trail })?;
    Ok(Trails::of(alloc, runs)?)
}

/// What a replace of a text of eight units does, if what it puts in was sent down or not.
fn step_of(alloc: Global, pair: Pair, put_in: &str, sent: bool) -> Result<SourceStep, Fail> {
    let (start, len) = pair;
    let text = to_units(alloc, put_in)?;
    let units = text.as_slice().len();
    if units > 1000 {
        return Err("too long for a test".into());
    }
    let span = Span {
        start,
        len: units as u32,
    };
    let mut replaces = Vec::new(alloc);
    replaces.push(Replace { start, len, text })?;
    if !puts_in_at_most(&replaces, 1000) {
        return Err("too long for a test".into());
    }
    let changes = normalise(alloc, 8, &replaces)?;
    Ok(SourceStep {
        source: BufferNo(0),
        changes,
        trails: ways(alloc, span, sent)?,
    })
}

/// The changes, one behind the other.
fn written(alloc: Global, changes: &Changes) -> Result<String, Fail> {
    let mut text = String::new(alloc);
    for change in changes.as_slice() {
        write!(text, "{}+{}:", change.start, change.old_len)?;
        for unit in change.text.as_slice() {
            text.push(char::from_u32(u32::from(*unit)).ok_or("a surrogate")?)?;
        }
        text.push(';')?;
    }
    Ok(text)
}

/// Whether a replace of a text of which `cde` is hidden, sent down or not, leaves these places hidden,
/// with these changes of what is shown.
fn step_is(
    alloc: Global,
    old: &DocText,
    pair: Pair,
    put_in: &str,
    sent: bool,
    expected: &str,
    changed: &str,
) -> Result<bool, Fail> {
    let hidden = Hidden::of(alloc, 8, &[span_in(8, (2, 3))?])?;
    let step = step_of(alloc, pair, put_in, sent)?;
    let (from, to) = (step.changes.old_len(), step.changes.new_len());
    if from != old.len() || from != hidden.len() || to > MOST_UNITS {
        return Err("another length".into());
    }
    let source = old.replace(alloc, &step.changes)?;
    let next = hidden.advance(alloc, BufferNo(1), &step)?;
    let changes = hidden.changes(alloc, &next, &step.changes, &source)?;
    let found = places(alloc, &next)?;
    let told = written(alloc, &changes)?;
    Ok(found.as_str() == expected && told.as_str() == changed)
}

#[test]
fn steps_of_the_source(rt: HostRuntime) -> Result<(), Fail> {
    let alloc = rt.alloc();
    let old = DocText::from_units(alloc, &[97, 98, 99, 100, 101, 102, 103, 104])?;
    for (pair, put_in, sent, expected, changed) in STEPS {
        let same = step_is(alloc, &old, pair, put_in, sent, expected, changed)?;
        assert!(rt; same);
    }
    Ok(())
}
