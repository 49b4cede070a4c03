//! Rows of nodes of one level.
ghost use Rattle.std.specs.Prelude.{IsTrue, [], ◌≡◌, ℕ, max, ◌+◌, ◌-◌, ◌*◌, ◌<◌, ◌≤◌, ◌^◌, List, ◌∷◌, ◌++◌, length, flat_map, slice_range, IfOk, OnOk, OnErr, vec_len};
ghost use Rattle.ed_base.specs.Spans.{end_of};
ghost use Rattle.ed_text.specs.Splices.{spliced};
ghost use Rattle.ed_text.specs.Balance.{AreHalfFull, IsBalanced};

use crate::level::Level;
use ed_base::{OutOfMemory, Span, Steps, Unit};
use std::alloc::Global;
use std::sync::ledger::Ledger;

/// How many units a row has.
pub(crate) fn total_len<C: Level>(row: &[C]) -> u32
    requires { length (flat_map C.units row.now) ≤ 2 ^ 23 }
    ensures { result ≡ length (flat_map C.units row.now) }
{
    let mut total = 0;
    for child in row {
        total += child.len();
    }
    total
}

/// Puts further holders of nodes at the end of a row.
pub(crate) fn share_all<C: Level>(row: &mut Vec<C>, more: &[C]) -> Result<(), OutOfMemory>
    ensures units { OnOk result (flat_map C.units row.new.items ≡ flat_map C.units row.old.items ++ flat_map C.units more.now) }
    ensures len { OnOk result (length row.new.items ≡ length row.old.items + length more.now) }
    ensures half_full { OnOk result (AreHalfFull C.units C.least row.old.items → AreHalfFull C.units C.least more.now → AreHalfFull C.units C.least row.new.items) }
{
    for child in more {
        row.push(child.share()?)?;
    }
    Ok(())
}

/// Puts a node at the end of a row. Where it or the last one is less than half full, they are joined.
pub(crate) fn append<C: Level, L: Ledger>(
    alloc: Global,
    row: &mut Vec<C>,
    child: C,
    steps: &mut Steps<L>,
) -> Result<(), OutOfMemory>
    requires most { length (flat_map C.units row.old.items) + length (C.units child) ≤ 2 ^ 23 }
    requires balanced { IsBalanced C.units C.least row.old.items }
    ensures balanced { OnOk result (IsBalanced C.units C.least row.new.items) }
    ensures half_full { OnOk result (C.least ≤ length (C.units child) → AreHalfFull C.units C.least row.new.items) }
    ensures units { OnOk result (flat_map C.units row.new.items ≡ flat_map C.units row.old.items ++ C.units child) }
    ensures few { OnOk result (length row.new.items ≤ length row.old.items + 1) }
    ensures cost { steps.new ≤ steps.old + 2 * C.height }
{
    let last = match row.pop() {
        Some(last) => last,
        None => {
            row.push(child)?;
            return Ok(());
        }
    };
    if last.is_half_full() && child.is_half_full() {
        row.push(last)?;
        row.push(child)?;
        return Ok(());
    }
    C::join(alloc, &last, &child, row, steps)?;
    Ok(())
}

/// Puts further holders of nodes at the end of a row. The first one is joined where need be.
pub(crate) fn append_all<C: Level, L: Ledger>(
    alloc: Global,
    row: &mut Vec<C>,
    more: &[C],
    steps: &mut Steps<L>,
) -> Result<(), OutOfMemory>
    requires most { length (flat_map C.units row.old.items) + length (flat_map C.units more.now) ≤ 2 ^ 23 }
    requires balanced { IsBalanced C.units C.least row.old.items }
    requires more { IsBalanced C.units C.least more.now }
    ensures balanced { OnOk result (IsBalanced C.units C.least row.new.items) }
    ensures units { OnOk result (flat_map C.units row.new.items ≡ flat_map C.units row.old.items ++ flat_map C.units more.now) }
    ensures few { OnOk result (length row.new.items ≤ length row.old.items + length more.now) }
    ensures cost { steps.new ≤ steps.old + 2 * C.height }
{
    if let [first, rest @ ..] = more {
        append(alloc, row, first.share()?, steps)?;
        share_all(row, rest)?;
    }
    Ok(())
}

/// A row parted at one of its nodes.
#[derive(Drop)]
pub(crate) struct Location<'a, C> {
    pub front: &'a [C],
    pub child: &'a C,
    pub back: &'a [C],
    pub at: u32,
}

/// Parts a row at the node that has a place, which is then a place in that node.
pub(crate) fn locate<'a, C: Level>(row: &'a [C], at: u32) -> Location<'a, C>
    requires some { 0 < length row.now }
    requires inside { at ≤ length (flat_map C.units row.now) }
    requires most { length (flat_map C.units row.now) ≤ 2 ^ 23 }
    ensures row { row.now ≡ result.front.now ++ result.child.now ∷ result.back.now }
    ensures at { at ≡ length (flat_map C.units result.front.now) + result.at }
    ensures within { result.at ≤ length (C.units result.child.now) }
    ensures later { 0 < at → 0 < result.at }
{
    let last = row.len() - 1;
    let mut start = 0;
    let mut index = 0;
    while index < last {
        let end = start + row[index].len();
        if at <= end {
            break;
        }
        start = end;
        index += 1;
    }
    Location {
        front: &row[..index],
        child: &row[index],
        back: &row[index + 1..],
        at: at - start,
    }
}

/// The stored units from a place of a row on, up to the end of their leaf.
pub(crate) fn run_in<C: Level>(row: &[C], at: u32) -> &[Unit]
    requires most { length (flat_map C.units row.now) ≤ 2 ^ 23 }
    requires there { at < length (flat_map C.units row.now) }
    ensures some { 0 < length result.now }
    ensures inside { at + length result.now ≤ length (flat_map C.units row.now) }
    ensures units { result.now ≡ slice_range (flat_map C.units row.now) at (at + length result.now) }
{
    let place = locate(row, at + 1);
    place.child.run(place.at - 1)
}

/// Puts a node with other units in place of a span at the end of a row, joined where need be.
pub(crate) fn append_spliced<C: Level, L: Ledger>(
    alloc: Global,
    row: &mut Vec<C>,
    child: &C,
    span: Span,
    insert: &[Unit],
    steps: &mut Steps<L>,
) -> Result<(), OutOfMemory>
    requires inside { end_of span ≤ length (C.units child.now) }
    requires balanced { IsBalanced C.units C.least row.old.items }
    requires most { length (flat_map C.units row.old.items) + (length (C.units child.now) + length insert.now) ≤ 2 ^ 23 + span.len }
    ensures balanced { OnOk result (IsBalanced C.units C.least row.new.items) }
    ensures units { OnOk result (flat_map C.units row.new.items ≡ flat_map C.units row.old.items ++ spliced (C.units child.now) span.start (end_of span) insert.now) }
    ensures few { OnOk result (8 * length row.new.items ≤ 8 * length row.old.items + 32 + length insert.now) }
    ensures cost { 8 * steps.new ≤ 8 * steps.old + C.path + 16 * C.height + C.height * length insert.now }
{
    let mut middle = Vec::new(alloc);
    child.splice(alloc, span, insert, &mut middle, steps)?;
    append_all(alloc, row, middle.as_slice(), steps)
}

/// The row of these nodes with other units in place of a span.
pub(crate) fn splice_row<C: Level, L: Ledger>(
    alloc: Global,
    row: &[C],
    span: Span,
    insert: &[Unit],
    steps: &mut Steps<L>,
) -> Result<Vec<C>, OutOfMemory>
    requires whole { length (flat_map C.units row.now) ≤ 2 ^ 23 }
    requires balanced { IsBalanced C.units C.least row.now }
    requires inside { end_of span ≤ length (flat_map C.units row.now) }
    requires most { length (flat_map C.units row.now) + length insert.now ≤ 2 ^ 23 + span.len }
    ensures balanced { IfOk result (λ new. IsBalanced C.units C.least new.items) }
    ensures units { IfOk result (λ new. flat_map C.units new.items ≡ spliced (flat_map C.units row.now) span.start (end_of span) insert.now) }
    ensures few { IfOk result (λ new. 8 * length new.items ≤ 8 * length row.now + 64 + length insert.now) }
    ensures cost { 8 * steps.new ≤ 8 * steps.old + 2 * C.path + 56 * C.height + C.height * length insert.now }
{
    let mut new = Vec::with_capacity(alloc, row.len())?;
    if row.is_empty() {
        C::build(alloc, insert, &mut new, steps)?;
        return Ok(new);
    }
    let first = locate(row, span.start);
    share_all(&mut new, first.front)?;
    let room = first.child.len() - first.at;
    if span.len <= room {
        let inner = Span {
            start: first.at,
            len: span.len,
        };
        append_spliced(alloc, &mut new, first.child, inner, insert, steps)?;
        append_all(alloc, &mut new, first.back, steps)?;
        return Ok(new);
    }
    let last = locate(first.back, span.len - room);
    let tail = Span {
        start: first.at,
        len: room,
    };
    append_spliced(alloc, &mut new, first.child, tail, insert, steps)?;
    let head = Span {
        start: 0,
        len: last.at,
    };
    append_spliced(alloc, &mut new, last.child, head, &[], steps)?;
    append_all(alloc, &mut new, last.back, steps)?;
    Ok(new)
}
