//! Edits, as change lists in normal form and back.
ghost use Rattle.std.specs.Prelude.{◌≡◌, ◌≤◌, ◌^◌, IfOk, OnOk};

use ed_base::{Changes, Replace, Unit, Units};
use ed_change::{ChangeFault, apply, inverse, normalise, puts_in_at_most};
use ed_units::to_units;
use std::alloc::Global;
use std::fmt::Write;
use std::test::*;

/// A replace of a test: its start, its length and its text.
pub type Row = (u32, u32, &'static str);

/// An edit of a text: its changes as `start+old_len:text;`, the text after it, and the changes back.
type Case<'a> = (
    &'static str,
    &'a [Row],
    &'static str,
    &'static str,
    &'static str,
);

/// The change list of these replaces of a text of so many units.
pub fn changes_of(
    alloc: Global,
    len: u32,
    rows: &[Row],
) -> Result<Result<Changes, ChangeFault>, Fail> {
    let mut replaces = Vec::new(alloc);
    for (start, len, text) in rows {
        replaces.push(Replace {
            start: *start,
            len: *len,
            text: to_units(alloc, text)?,
        })?;
    }
    if len > 1 << 22 || !puts_in_at_most(&replaces, 1000) {
        return Err("too long for a test".into());
    }
    Ok(normalise(alloc, len, &replaces))
}

fn push_units(text: &mut String, units: &[Unit]) -> Result<(), Fail> {
    for unit in units {
        text.push(char::from_u32(u32::from(*unit)).ok_or("a surrogate")?)?;
    }
    Ok(())
}

fn shown(alloc: Global, changes: &Changes) -> Result<String, Fail> {
    let mut text = String::new(alloc);
    for change in changes.as_slice() {
        write!(text, "{}+{}:", change.start, change.old_len)?;
        push_units(&mut text, change.text.as_slice())?;
        text.push(';')?;
    }
    Ok(text)
}

fn applied(alloc: Global, units: &[Unit], changes: &Changes) -> Result<Units, Fail> {
    if units.len() != changes.old_len() as usize {
        return Err("a text of another length".into());
    }
    Ok(apply(alloc, units, changes)?)
}

fn turned_back(alloc: Global, units: &[Unit], changes: &Changes) -> Result<Changes, Fail> {
    if units.len() != changes.old_len() as usize {
        return Err("a text of another length".into());
    }
    Ok(inverse(alloc, units, changes)?)
}

const CASES: [Case; 9] = [
    (
        "0123456789",
        &[(0, 5, "a"), (3, 5, "b")],
        "0+8:ab;",
        "ab89",
        "0+2:01234567;",
    ),
    (
        "abcdef",
        &[(1, 2, "x"), (3, 1, "y")],
        "1+3:xy;",
        "axyef",
        "1+2:bcd;",
    ),
    (
        "abcdef",
        &[(1, 2, "x"), (4, 1, "y")],
        "1+2:x;4+1:y;",
        "axdyf",
        "1+1:bc;3+1:e;",
    ),
    (
        "abcdefgh",
        &[(1, 6, "x"), (2, 1, "y")],
        "1+6:xy;",
        "axyh",
        "1+2:bcdefg;",
    ),
    (
        "abc",
        &[(2, 1, "c"), (0, 1, "a")],
        "0+1:a;2+1:c;",
        "abc",
        "0+1:a;2+1:c;",
    ),
    (
        "abcdef",
        &[(2, 0, "y"), (2, 0, "xx"), (2, 2, "z")],
        "2+2:yxxz;",
        "abyxxzef",
        "2+4:cd;",
    ),
    (
        "abc",
        &[(3, 0, "!"), (0, 0, "?")],
        "0+0:?;3+0:!;",
        "?abc!",
        "0+1:;4+1:;",
    ),
    ("abc", &[(0, 3, "")], "0+3:;", "", "0+0:abc;"),
    ("abc", &[(1, 0, ""), (3, 0, "")], "", "abc", ""),
];

#[test]
fn edits_and_back(rt: HostRuntime) -> Result<(), Fail> {
    let alloc = rt.alloc();
    for (before, rows, changes, after, back) in CASES {
        let old = to_units(alloc, before)?;
        let found = changes_of(alloc, u32::try_from(before.len())?, rows)??;
        let new = applied(alloc, old.as_slice(), &found)?;
        let way_back = turned_back(alloc, old.as_slice(), &found)?;
        let again = applied(alloc, new.as_slice(), &way_back.share()?)?;
        assert_eq!(rt; shown(alloc, &found)?.as_str(), changes);
        assert_eq!(rt; new.as_slice(), to_units(alloc, after)?.as_slice());
        assert_eq!(rt; shown(alloc, &way_back)?.as_str(), back);
        assert_eq!(rt; again.as_slice(), old.as_slice());
    }
    Ok(())
}

#[test]
fn the_first_replace_past_the_end_is_named(rt: HostRuntime) -> Result<(), Fail> {
    let rows = [(0, 4, "a"), (3, 3, "b"), (5, 1, "c"), (9, 9, "d")];
    let fault = changes_of(rt.alloc(), 5, &rows)?.err();
    assert_eq!(rt; fault, Some(ChangeFault::OutOfRange { end: 6, len: 5 }));
    let text = format!(in rt.alloc(); "{}", ChangeFault::OutOfRange { end: 6, len: 5 })?;
    assert_eq!(rt;
        text.as_str(),
        "a replace ends at 6, past the text's length 5"
    );
    Ok(())
}
