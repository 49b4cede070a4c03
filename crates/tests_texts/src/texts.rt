//! Texts of any representation, at the plain one.
ghost use Rattle.std.specs.Prelude.{◌≡◌, ◌≤◌, ◌^◌, length};

use crate::changes::changes_of;
use ed_base::{Changes, Span, Unit, Units};
use ed_text::{DocText, MOST_UNITS, Text};
use ed_units::to_units;
use std::alloc::Global;
use std::test::*;

pub fn text_of<T: Text>(alloc: Global, units: &[Unit]) -> Result<T, Fail> {
    if units.len() > MOST_UNITS as usize {
        return Err("too long for a text".into());
    }
    Ok(T::from_units(alloc, units)?)
}

/// The units of a part of a text: copied, those of its slice, and one by one.
#[derive(Drop)]
struct Part {
    copied: Units,
    sliced: Units,
    listed: Units,
}

fn part_of<T: Text>(alloc: Global, text: &T, start: u32, len: u32) -> Result<Part, Fail> {
    if start > text.len() || len > text.len() - start {
        return Err("past the end".into());
    }
    let mut copied = Units::new(alloc);
    text.copy_out(Span { start, len }, &mut copied)?;
    let slice = text.slice(alloc, Span { start, len })?;
    let mut sliced = Units::new(alloc);
    let mut listed = Units::new(alloc);
    slice.copy_out(
        Span {
            start: 0,
            len: slice.len(),
        },
        &mut sliced,
    )?;
    for at in start..start + len {
        listed.push(text.unit(at))?;
    }
    Ok(Part {
        copied,
        sliced,
        listed,
    })
}

/// All units of a text.
pub fn units_of<T: Text>(alloc: Global, text: &T) -> Result<Units, Fail> {
    let mut units = Units::new(alloc);
    text.copy_out(
        Span {
            start: 0,
            len: text.len(),
        },
        &mut units,
    )?;
    Ok(units)
}

/// Two texts, one after the other.
fn joined<T: Text>(alloc: Global, first: &T, second: &T) -> Result<T, Fail> {
    if first.len() + second.len() > MOST_UNITS {
        return Err("too long together".into());
    }
    let mut parts = Vec::new(alloc);
    parts.push(first.share()?)?;
    parts.push(second.share()?)?;
    Ok(T::concat(alloc, &parts)?)
}

fn replaced<T: Text>(alloc: Global, text: &T, changes: &Changes) -> Result<T, Fail> {
    if changes.old_len() != text.len() || changes.new_len() > MOST_UNITS {
        return Err("changes of another text".into());
    }
    Ok(text.replace(alloc, changes)?)
}

#[test]
fn parts_are_taken_at_the_edges(rt: HostRuntime) -> Result<(), Fail> {
    let text: DocText = text_of(rt.alloc(), &[97, 98, 99])?;
    for (start, len, expected) in [
        (0, 0, ""),
        (3, 0, ""),
        (0, 3, "abc"),
        (1, 2, "bc"),
        (2, 1, "c"),
        (1, 1, "b"),
    ] {
        let expected = to_units(rt.alloc(), expected)?;
        let part = part_of(rt.alloc(), &text, start, len)?;
        assert_eq!(rt;
            part.copied.as_slice(),
            expected.as_slice(),
            "{start}, {len}"
        );
        assert_eq!(rt;
            part.sliced.as_slice(),
            expected.as_slice(),
            "{start}, {len}"
        );
        assert_eq!(rt;
            part.listed.as_slice(),
            expected.as_slice(),
            "{start}, {len}"
        );
    }
    Ok(())
}

#[test]
fn changes_lead_to_another_text(rt: HostRuntime) -> Result<(), Fail> {
    let alloc = rt.alloc();
    let text: DocText = text_of(alloc, &[97, 98, 99])?;
    for (start, len, put_in, expected) in [
        (0, 0, "", "abc"),
        (1, 1, "xy", "axyc"),
        (3, 0, "x", "abcx"),
        (0, 3, "", ""),
    ] {
        let changes = changes_of(alloc, 3, &[(start, len, put_in)])??;
        let after = replaced(alloc, &text, &changes)?;
        let expected = to_units(alloc, expected)?;
        assert_eq!(rt; units_of(alloc, &after)?.as_slice(), expected.as_slice());
    }
    Ok(())
}

#[test]
fn a_text_of_the_greatest_length_is_cut_and_joined(rt: HostRuntime) -> Result<(), Fail> {
    let alloc = rt.alloc();
    let units = vec![in alloc; 7; 1 << 22]?;
    let text: DocText = text_of(alloc, &units)?;
    let front = part_of(alloc, &text, 0, 3)?;
    let back = part_of(alloc, &text, 3, 4_194_301)?;
    let front: DocText = text_of(alloc, front.copied.as_slice())?;
    let back: DocText = text_of(alloc, back.sliced.as_slice())?;
    let whole = joined(alloc, &front, &back)?;
    assert_eq!(rt; units_of(alloc, &whole)?.as_slice(), units.as_slice());
    assert_eq!(rt; DocText::concat(alloc, &[])?.len(), 0);
    assert_eq!(rt; DocText::of(alloc, Units::new(alloc))?.len(), 0);
    Ok(())
}
