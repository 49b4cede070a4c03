//! Texts as trees beside plain ones: the same splices, parts and joins give the same units, at the
//! lengths where a level comes or goes, and at nodes that are as full or as empty as they may be.
ghost use Rattle.std.specs.Prelude.{IsTrue, ◌≡◌, ◌+◌, ◌<◌, ◌≤◌, ◌^◌, length, sum_by, OnOk};

use ed_base::{Replace, Span, Steps, Unit, Units};
use ed_change::{normalise, puts_in_at_most};
use ed_text::{MOST_UNITS, PlainText, Text, TreeText};
use std::alloc::Global;
use std::marker::Brand;
use std::process::Abort;
use std::sync::ledger::{Blank, Ledger};
use std::test::*;

/// Numbers in no plain order, the same in each run.
#[derive(Drop)]
struct Dice {
    state: u32,
}

impl Dice {
    /// A number below `sides`, or 0 where there is none.
    fn roll(&mut self, sides: u32) -> u32
        ensures { 0 < sides → result < sides }
    {
        self.state = self
            .state
            .wrapping_mul(1_664_525)
            .wrapping_add(1_013_904_223);
        let rolled = self.state >> 8;
        if sides == 0 {
            return 0;
        }
        rolled % sides
    }

    /// So many units.
    fn units(&mut self, alloc: Global, len: u32) -> Result<Units, Fail> {
        let mut units = Units::new(alloc);
        for _ in 0..len {
            units.push(self.roll(1 << 16) as u16)?;
        }
        Ok(units)
    }

    /// A span of a text of this length, of at most so many units.
    fn span(&mut self, len: u32, most: u32) -> Span {
        let start = self.roll(len.saturating_add(1));
        let room = len.saturating_sub(start).min(most);
        let span_len = self.roll(room.saturating_add(1));
        Span {
            start,
            len: span_len,
        }
    }
}

/// A text in both forms.
#[derive(Drop)]
struct Pair {
    plain: PlainText,
    tree: TreeText,
}

/// Refuses a span that doesn't lie in a text of this length.
fn within(span: Span, len: u32) -> Result<(), Fail>
    ensures { OnOk result (span.start + span.len ≤ len) }
{
    if span.start > len || span.len > len.saturating_sub(span.start) {
        return Err("past the end".into());
    }
    Ok(())
}

/// Whether the units are the same, read by the runs of the tree.
fn are_same(pair: &Pair) -> Result<bool, Fail> {
    let len = pair.tree.len();
    if pair.plain.len() != len {
        return Ok(false);
    }
    let mut at = 0;
    while at < len {
        let run = pair.tree.run(Span {
            start: at,
            len: len - at,
        });
        let other = pair.plain.run(Span {
            start: at,
            len: run.len() as u32,
        });
        if run != other {
            return Ok(false);
        }
        at += run.len() as u32;
    }
    Ok(true)
}

/// A tree with other units in place of a span, counted.
fn spliced<L: Ledger>(
    alloc: Global,
    tree: &TreeText,
    span: Span,
    insert: &[Unit],
    blank: Blank,
) -> Result<TreeText, Fail>
    requires name { blank.name ≡ L.name }
    requires parts { blank.parts ≡ L.parts }
    requires some { 0 < blank.parts }
{
    let mut steps = Steps::<L>::begin(blank);
    let len = tree.len();
    within(span, len)?;
    if insert.len() > (MOST_UNITS - (len - span.len)) as usize {
        return Err("too long for a text".into());
    }
    Ok(tree.splice(alloc, span, insert, &mut steps)?)
}

/// A text with other units in place of a span, by its changes.
fn replaced<T: Text>(alloc: Global, text: &T, span: Span, insert: &[Unit]) -> Result<T, Fail> {
    let mut units = Units::new(alloc);
    units.extend(insert)?;
    let mut replaces = Vec::new(alloc);
    replaces.push(Replace {
        start: span.start,
        len: span.len,
        text: units,
    })?;
    let len = text.len();
    if !puts_in_at_most(&replaces, 1 << 22) {
        return Err("too long for a text".into());
    }
    let changes = normalise(alloc, len, &replaces)?;
    if changes.old_len() != len || changes.new_len() > MOST_UNITS {
        return Err("too long for a text".into());
    }
    Ok(text.replace(alloc, &changes)?)
}

fn pair_of(alloc: Global, units: &[Unit]) -> Result<Pair, Fail> {
    if units.len() > MOST_UNITS as usize {
        return Err("too long for a text".into());
    }
    Ok(Pair {
        plain: PlainText::from_units(alloc, units)?,
        tree: TreeText::from_units(alloc, units)?,
    })
}

/// Both forms with other units in place of a span: the tree by turns by a splice and by changes.
fn edited(
    alloc: Global,
    pair: &Pair,
    span: Span,
    insert: &[Unit],
    by_splice: bool,
) -> Result<Pair, Fail> {
    let tree = if by_splice {
        spliced::<Brand>(alloc, &pair.tree, span, insert, Blank::new(1))?
    } else {
        replaced(alloc, &pair.tree, span, insert)?
    };
    Ok(Pair {
        plain: replaced(alloc, &pair.plain, span, insert)?,
        tree,
    })
}

/// A splice somewhere of at most so many units each way.
fn rolled(alloc: Global, dice: &mut Dice, pair: &Pair, most: u32) -> Result<Pair, Fail> {
    let len = pair.tree.len();
    let span = dice.span(len, most);
    let room = MOST_UNITS.saturating_sub(len.saturating_sub(span.len));
    let insert_len = dice.roll(room.min(most).saturating_add(1));
    let insert = dice.units(alloc, insert_len)?;
    let by_splice = dice.roll(2) == 0;
    edited(alloc, pair, span, insert.as_slice(), by_splice)
}

/// Many splices one after another; each text is compared, and the first one again at the end.
fn splices(
    rt: &(impl AllocGlobal + Abort),
    dice: &mut Dice,
    len: u32,
    count: u32,
    most: u32,
) -> Result<(), Fail> {
    let alloc = rt.alloc();
    let units = dice.units(alloc, len)?;
    let first = pair_of(alloc, units.as_slice())?;
    let mut pair = pair_of(alloc, units.as_slice())?;
    for turn in 0..count {
        pair = rolled(alloc, dice, &pair, most)?;
        assert!(rt; are_same(&pair)?, "{len} {turn}");
    }
    assert!(rt; are_same(&first)?, "{len}");
    Ok(())
}

#[test]
fn splices_at_many_sizes(rt: HostRuntime) -> Result<(), Fail> {
    let mut dice = Dice { state: 1 };
    for len in [
        0, 1, 2, 128, 255, 256, 257, 511, 512, 513, 2048, 4095, 4096, 4097,
    ] {
        splices(&rt, &mut dice, len, 60, 20)?;
        splices(&rt, &mut dice, len, 40, 700)?;
    }
    for len in [32_768, 65_535, 65_536, 65_537, 131_072, 1 << 20] {
        splices(&rt, &mut dice, len, 60, 20)?;
        splices(&rt, &mut dice, len, 40, 70_000)?;
    }
    Ok(())
}

#[test]
fn splices_of_the_longest_texts(rt: HostRuntime) -> Result<(), Fail> {
    let mut dice = Dice { state: 2 };
    for len in [MOST_UNITS, MOST_UNITS - 1, MOST_UNITS / 2 + 1, 257 << 13] {
        splices(&rt, &mut dice, len, 20, 20)?;
        splices(&rt, &mut dice, len, 10, 2_000_000)?;
    }
    Ok(())
}

/// Texts one after another, where they aren't too long together.
fn joined<T: Text>(alloc: Global, parts: &[T]) -> Result<T, Fail> {
    if !fit(parts) {
        return Err("too long together".into());
    }
    Ok(T::concat(alloc, parts)?)
}

/// Whether texts one after another are within the greatest length.
fn fit<T: Text>(parts: &[T]) -> bool
    ensures { IsTrue result → sum_by (λ t. length (T.units t)) parts.now ≤ 2 ^ 22 }
{
    let mut left = MOST_UNITS;
    for part in parts {
        if part.len() > left {
            return false;
        }
        left -= part.len();
    }
    true
}

/// A text cut at some places and joined again.
fn cut_and_joined<T: Text>(alloc: Global, dice: &mut Dice, text: &T, cuts: u32) -> Result<T, Fail> {
    let len = text.len();
    let mut parts = Vec::new(alloc);
    let mut at = 0;
    for _ in 0..cuts {
        let end = at + dice.roll((len - at).saturating_add(1));
        within(
            Span {
                start: at,
                len: end - at,
            },
            len,
        )?;
        parts.push(text.slice(
            alloc,
            Span {
                start: at,
                len: end - at,
            },
        )?)?;
        at = end;
    }
    parts.push(text.slice(
        alloc,
        Span {
            start: at,
            len: len - at,
        },
    )?)?;
    joined(alloc, &parts)
}

#[test]
fn cuts_and_joins(rt: HostRuntime) -> Result<(), Fail> {
    let alloc = rt.alloc();
    let mut dice = Dice { state: 3 };
    for len in [0, 1, 256, 257, 4096, 65_536, 65_537, 1 << 20, MOST_UNITS] {
        let units = dice.units(alloc, len)?;
        let pair = pair_of(alloc, units.as_slice())?;
        for cuts in [0, 1, 3, 200] {
            let tree = cut_and_joined(alloc, &mut dice, &pair.tree, cuts)?;
            let same = Pair {
                plain: pair.plain.share()?,
                tree,
            };
            assert!(rt; are_same(&same)?, "{len} {cuts}");
        }
    }
    Ok(())
}

#[test]
fn the_splice_of_a_short_text(rt: HostRuntime) -> Result<(), Fail> {
    let alloc = rt.alloc();
    let pair = pair_of(alloc, &[97, 98, 99, 100, 101, 102, 103, 104])?;
    let span = Span { start: 4, len: 2 };
    let new = edited(alloc, &pair, span, &[88, 89, 90], true)?;
    let mut units = Units::new(alloc);
    new.tree.copy_out(
        Span {
            start: 0,
            len: new.tree.len(),
        },
        &mut units,
    )?;
    assert_eq!(rt;
        units.as_slice(),
        [97, 98, 99, 100, 88, 89, 90, 103, 104].as_slice()
    );
    assert!(rt; are_same(&pair)?);
    Ok(())
}
