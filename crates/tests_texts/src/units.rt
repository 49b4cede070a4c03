//! Units, their quoted output and line breaks. Where a unit is escaped, it is so by the ranges of the
//! Unicode code charts: controls, the two separators and surrogates.
use ed_base::Unit;
use ed_units::{break_len, to_units, write_quoted};
use std::test::*;

const QUOTED: [(&[Unit], &[u8]); 13] = [
    (&[], b""),
    (&[0x61, 0x22, 0x5C, 0x62], b"a\\\"\\\\b"),
    (&[0x00, 0x1F, 0x20], b"\\u0000\\u001F "),
    (&[0x7E, 0x7F, 0x9F, 0xA0], b"~\\u007F\\u009F\xC2\xA0"),
    (
        &[0x2027, 0x2028, 0x2029, 0x202A],
        b"\xE2\x80\xA7\\u2028\\u2029\xE2\x80\xAA",
    ),
    (&[0xD7FF, 0xE000], b"\xED\x9F\xBF\xEE\x80\x80"),
    (&[0xD800, 0xDC00], b"\xF0\x90\x80\x80"),
    (&[0xDBFF, 0xDFFF], b"\xF4\x8F\xBF\xBF"),
    (&[0xDE00, 0xD83D], b"\\uDE00\\uD83D"),
    (&[0xD83D, 0xD83D, 0xDE00], b"\\uD83D\xF0\x9F\x98\x80"),
    (&[0xD83D, 0xDE00, 0xDE00], b"\xF0\x9F\x98\x80\\uDE00"),
    (
        &[0xD83D, 0xDE00, 0xD83D, 0xDE00],
        b"\xF0\x9F\x98\x80\xF0\x9F\x98\x80",
    ),
    (&[0xD83D, 0x61, 0xDE00], b"\\uD83Da\\uDE00"),
];

#[test]
fn texts_are_quoted(rt: HostRuntime) -> Result<(), Fail> {
    for (units, bytes) in QUOTED {
        let mut expected = Vec::from_slice(rt.alloc(), b">\"")?;
        expected.extend_from_slice(bytes)?;
        expected.push(b'"')?;
        let mut out = Vec::from_slice(rt.alloc(), b">")?;
        write_quoted(units, &mut out)?;
        assert_eq!(rt; out, expected, "{units:?}");
    }
    Ok(())
}

#[test]
fn characters_of_each_length_are_taken(rt: HostRuntime) -> Result<(), Fail> {
    let text = "a\u{7F}\u{80}\u{7FF}\u{800}\u{FFFF}\u{10000}\u{10FFFF}";
    let expected = [
        0x61, 0x7F, 0x80, 0x7FF, 0x800, 0xFFFF, 0xD800, 0xDC00, 0xDBFF, 0xDFFF,
    ];
    assert_eq!(rt; to_units(rt.alloc(), text)?.as_slice(), expected.as_slice());
    assert_eq!(rt; to_units(rt.alloc(), "")?.as_slice(), [].as_slice());
    Ok(())
}

#[test]
fn breaks_are_found_where_they_meet(rt: HostRuntime) {
    for (text, lens) in [
        ([13, 10, 10], [2, 0, 1]),
        ([13, 13, 10], [1, 2, 0]),
        ([10, 13, 97], [1, 1, 0]),
        ([97, 10, 13], [0, 1, 1]),
        ([133, 8232, 8233], [1, 1, 1]),
        ([11, 12, 8231], [0, 0, 0]),
    ] {
        let found = [
            break_len(&text, 0),
            break_len(&text, 1),
            break_len(&text, 2),
        ];
        assert_eq!(rt; found, lens, "{text:?}");
    }
}
