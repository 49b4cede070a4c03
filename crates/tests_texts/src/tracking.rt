//! Points and spans across the step from `0123456789` to `0<12Q6789>`, and a further one to `0<12Q>`.
ghost use Rattle.std.specs.Prelude.{◌≡◌, ◌≤◌, IfOk, IfSome};
ghost use Rattle.ed_base.specs.Spans.{end_of};
ghost use Rattle.ed_base.specs.ChangeList.{new_len};

use crate::changes::{Row, changes_of};
use ed_base::{Changes, Edges, PointMode, Span, SpanMode};
use ed_track::{
    back_edges, back_point, back_point_through, back_span, back_span_through, edges, point,
    point_through, span, span_through,
};
use std::alloc::Global;
use std::test::*;

const FIRST: [Row; 3] = [(1, 0, "<"), (3, 3, "Q"), (10, 0, ">")];

const SECOND: [Row; 2] = [(5, 3, ""), (7, 2, "")];

/// A step of a text of ten units to one of so many.
fn step(alloc: Global, rows: &[Row], len: u32) -> Result<Changes, Fail>
    ensures old_len { IfOk result (λ c. c.old_len ≡ 10) }
    ensures new_len { IfOk result (λ c. new_len c ≡ len) }
{
    let changes = changes_of(alloc, 10, rows)??;
    if changes.old_len() != 10 || changes.new_len() != len {
        return Err("another length".into());
    }
    Ok(changes)
}

/// A place of a text of ten units.
fn place(at: u32) -> u32
    ensures { result ≤ 10 }
{
    at.min(10)
}

/// A span of a text of ten units.
fn part(start: u32, end: u32) -> Span
    ensures { end_of result ≤ 10 }
{
    let start = start.min(10);
    let end = end.min(10).max(start);
    Span {
        start,
        len: end - start,
    }
}

const NEGATIVE: PointMode = PointMode::Negative;

const POSITIVE: PointMode = PointMode::Positive;

/// A place, and where it goes in each mode.
#[test]
fn points_go_across_a_step(rt: HostRuntime) -> Result<(), Fail> {
    let changes = step(rt.alloc(), &FIRST, 10)?;
    for (at, negative, positive) in [(0, 0, 0), (1, 1, 2), (3, 4, 5), (6, 4, 5), (10, 9, 10)] {
        assert_eq!(rt; point(NEGATIVE, place(at), &changes), negative, "{at}");
        assert_eq!(rt; point(POSITIVE, place(at), &changes), positive, "{at}");
    }
    for (at, negative, positive) in [(0, 0, 0), (1, 1, 1), (4, 3, 6), (5, 3, 6), (9, 10, 10)] {
        assert_eq!(rt; back_point(NEGATIVE, place(at), &changes), negative, "{at}");
        assert_eq!(rt; back_point(POSITIVE, place(at), &changes), positive, "{at}");
    }
    Ok(())
}

const MODES: [SpanMode; 4] = [
    SpanMode::EdgeExclusive,
    SpanMode::EdgeInclusive,
    SpanMode::EdgePositive,
    SpanMode::EdgeNegative,
];

fn ends(span: Span) -> (u32, u32) {
    (span.start, span.start.saturating_add(span.len))
}

/// The ends of a span, and where it goes in the modes above.
#[test]
fn spans_go_across_a_step(rt: HostRuntime) -> Result<(), Fail> {
    let changes = step(rt.alloc(), &FIRST, 10)?;
    for (start, end, places) in [
        (1, 3, [(2, 4), (1, 5), (2, 5), (1, 4)]),
        (3, 6, [(5, 5), (4, 5), (5, 5), (4, 4)]),
        (10, 10, [(10, 10), (9, 10), (10, 10), (9, 9)]),
    ] {
        let found = MODES.map(|mode| ends(span(mode, part(start, end), &changes)));
        assert_eq!(rt; found, places, "{start}");
    }
    for (start, end, places) in [
        (4, 5, [(6, 6), (3, 6), (6, 6), (3, 3)]),
        (2, 6, [(1, 7), (1, 7), (1, 7), (1, 7)]),
    ] {
        let found = MODES.map(|mode| ends(back_span(mode, part(start, end), &changes)));
        assert_eq!(rt; found, places, "{start}");
    }
    let of = |len, start_neg, start_pos, end_neg, end_pos| Edges {
        len,
        start_neg,
        start_pos,
        end_neg,
        end_pos,
    };
    assert_eq!(rt; edges(part(3, 6), &changes), of(3, 4, 5, 4, 5));
    assert_eq!(rt; back_edges(part(4, 5), &changes), of(1, 3, 6, 3, 6));
    Ok(())
}

#[test]
fn places_go_through_two_steps_and_none(rt: HostRuntime) -> Result<(), Fail> {
    let first = step(rt.alloc(), &FIRST, 10)?;
    let second = step(rt.alloc(), &SECOND, 6)?;
    let steps = [first, second];
    assert_eq!(rt; point_through(NEGATIVE, 3, &steps), 4);
    assert_eq!(rt; point_through(POSITIVE, 3, &steps), 5);
    assert_eq!(rt; back_point_through(NEGATIVE, 5, &steps), 3);
    assert_eq!(rt; back_point_through(POSITIVE, 5, &steps), 10);
    let there = span_through(SpanMode::EdgeInclusive, Span { start: 1, len: 2 }, &steps);
    assert_eq!(rt; ends(there), (1, 5));
    let back = back_span_through(SpanMode::EdgeInclusive, Span { start: 4, len: 1 }, &steps);
    assert_eq!(rt; ends(back), (3, 10));
    let none: [Changes; 0] = [];
    assert_eq!(rt; point_through(NEGATIVE, 7, &none), 7);
    assert_eq!(rt; back_point_through(POSITIVE, 7, &none), 7);
    Ok(())
}
