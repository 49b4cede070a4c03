//! Line breaks.
ghost use Rattle.std.specs.Prelude.{◌≡◌, ◌<◌, length};
ghost use Rattle.ed_units.specs.Breaks.{break_len};

use ed_base::Unit;

const LINE_FEED: Unit = 10;

const CARRIAGE_RETURN: Unit = 13;

const NEXT_LINE: Unit = 133;

const LINE_SEPARATOR: Unit = 8232;

const PARAGRAPH_SEPARATOR: Unit = 8233;

/// How many units the line break that begins at the unit `at` has: 0, where none begins there, to 2.
/// A carriage return (13) with a line feed (10) after it is one break of two units. Each of them
/// without the other, and each next line (133), line separator (8232) and paragraph separator (8233),
/// is a break of one unit. These are the line ends of the Unicode newline guidelines without 11 and
/// 12, which stay within a line.
pub fn break_len(units: &[Unit], at: u32) -> u32
    requires { at < length units.now }
    ensures { result ≡ break_len units.now at }
{
    let at = at as usize;
    match units[at] {
        CARRIAGE_RETURN if at + 1 < units.len() && units[at + 1] == LINE_FEED => 2,
        LINE_FEED if at > 0 && units[at - 1] == CARRIAGE_RETURN => 0,
        CARRIAGE_RETURN | LINE_FEED | NEXT_LINE | LINE_SEPARATOR | PARAGRAPH_SEPARATOR => 1,
        _ => 0,
    }
}
