//! The lines of texts.
ghost use Rattle.std.specs.Prelude.{◌≤◌, ◌^◌};

use ed_base::Unit;
use ed_lines::Lines;
use ed_text::{DocText, MOST_UNITS, Text};
use std::alloc::Global;
use std::test::*;

fn lines_of(alloc: Global, units: &[Unit]) -> Result<Lines, Fail> {
    if units.len() > MOST_UNITS as usize {
        return Err("too long for a text".into());
    }
    let text = DocText::from_units(alloc, units)?;
    Ok(Lines::of(alloc, &text)?)
}

/// Units, and the lines there: start, length and length of the break.
const ROWS: [(&[Unit], &[(u32, u32, u32)]); 5] = [
    (&[], &[(0, 0, 0)]),
    (&[13, 10], &[(0, 0, 2), (2, 0, 0)]),
    (&[97, 13, 10, 98, 10], &[(0, 1, 2), (3, 1, 1), (5, 0, 0)]),
    (
        &[10, 13, 13, 10, 97, 98],
        &[(0, 0, 1), (1, 0, 1), (2, 0, 2), (4, 2, 0)],
    ),
    (
        &[133, 97, 8232, 8233],
        &[(0, 0, 1), (1, 1, 1), (3, 0, 1), (4, 0, 0)],
    ),
];

#[test]
fn texts_are_cut_into_lines(rt: HostRuntime) -> Result<(), Fail> {
    for (units, expected) in ROWS {
        let lines = lines_of(rt.alloc(), units)?;
        let list = lines.list()?;
        let mut found = Vec::new(rt.alloc());
        for line in list.as_slice() {
            found.push((line.span.start, line.span.len, line.break_len))?;
        }
        assert_eq!(rt; found.as_slice(), expected, "{units:?}");
    }
    Ok(())
}

/// The line of each position of the text a, 13, 10, b, 10, and of two behind it.
const LINE_OF: [u32; 8] = [0, 0, 0, 1, 1, 2, 2, 2];

#[test]
fn positions_have_lines(rt: HostRuntime) -> Result<(), Fail> {
    let lines = lines_of(rt.alloc(), &[97, 13, 10, 98, 10])?;
    for (position, expected) in LINE_OF.iter().enumerate() {
        let found = lines.line_of(u32::try_from(position)?);
        assert_eq!(rt; found, *expected, "{position}");
        assert!(rt; found < lines.count());
    }
    Ok(())
}
