//! Texts as they are printed: between two quotation marks, in UTF-8, with some units escaped.
ghost use Rattle.std.specs.Prelude.{◌≡◌, ℕ, true, ◌+◌, ◌<◌, ◌≤◌, ◌&&◌, List, [], ◌++◌, take, drop, length, vec_len, IfOk, OnOk, OnErr, IsTrue, encode_utf8};
ghost use Rattle.std.specs.Char.Utf16.{surrogate_pair_char, is_high_surrogate, is_low_surrogate};
ghost use Rattle.ed_units.specs.Quoted.{escape, is_escaped, hex_digit, quoted, quoted_unit, quoted_units};

use ed_base::{OutOfMemory, Unit};

/// Puts the text at the end of `out`, between two quotation marks and in UTF-8. A high surrogate and
/// the low one after it are one character. `"` and `\` have a `\` before them. Control units (0 to 31
/// and 127 to 159), the line and paragraph separators (8232 and 8233) and each surrogate outside such
/// a pair are `\u` and four upper-case hexadecimal digits.
///
/// # Errors
///
/// Memory was refused; `out` has the bytes that it had.
pub fn write_quoted(units: &[Unit], out: &mut Vec<u8>) -> Result<(), OutOfMemory>
    ensures ok { OnOk result (out.new.items ≡ out.old.items ++ quoted units.now) }
    ensures err { OnErr result (out.new.items ≡ out.old.items) }
{
    let start = out.len();
    let written = write_marked(units, out);
    if written.is_err() {
        out.truncate(start);
    }
    written
}

// The text with its quotation marks. Where memory is refused, a beginning of it may be there.
fn write_marked(units: &[Unit], out: &mut Vec<u8>) -> Result<(), OutOfMemory>
    ensures ok { OnOk result (out.new.items ≡ out.old.items ++ quoted units.now) }
    ensures front { take (vec_len out.old) out.new.items ≡ out.old.items }
{
    out.push(b'"')?;
    write_units(units, true, out)?;
    out.push(b'"')?;
    Ok(())
}

/// Puts the next units of a text at the end of `out`, as `write_quoted` prints them but without the
/// quotation marks, and answers how many it put there: all, where `is_end` says that the text ends with
/// them, and else all or all but the last one, whose character may go on.
///
/// # Errors
///
/// Memory was refused; `out` has the bytes that it had, and a beginning of what it should get.
pub fn write_units(units: &[Unit], is_end: bool, out: &mut Vec<u8>) -> Result<usize, OutOfMemory>
    ensures within { IfOk result (λ n. n ≤ length units.now) }
    ensures most { IfOk result (λ n. length units.now ≤ n + 1) }
    ensures all { IfOk result (λ n. is_end ≡ true → n ≡ length units.now) }
    ensures ok { IfOk result (λ n. (rest : List ℕ) → (is_end ≡ true → rest ≡ []) → out.new.items ++ quoted_units (drop n units.now ++ rest) ≡ out.old.items ++ quoted_units (units.now ++ rest)) }
    ensures front { take (vec_len out.old) out.new.items ≡ out.old.items }
{
    let len = units.len();
    let most = if is_end { len } else { len.saturating_sub(1) };
    let mut at = 0;
    while at < most {
        at += write_first(&units[at..], out)?;
    }
    Ok(at)
}

// The first character, or the first unit where it is part of none, and how many units that is. Of a
// text of one unit nothing may follow.
fn write_first(units: &[Unit], out: &mut Vec<u8>) -> Result<usize, OutOfMemory>
    requires { 0 < length units.now }
    ensures some { IfOk result (λ n. 0 < n) }
    ensures within { IfOk result (λ n. n ≤ length units.now) }
    ensures ok { IfOk result (λ n. (rest : List ℕ) → (length units.now ≤ 1 → rest ≡ []) → out.new.items ++ quoted_units (drop n units.now ++ rest) ≡ out.old.items ++ quoted_units (units.now ++ rest)) }
    ensures grown { vec_len out.old ≤ vec_len out.new }
    ensures err { OnErr result (out.new.items ≡ out.old.items) }
{
    if units.len() > 1 && is_pair(units[0], units[1]) {
        write_char(pair_char(units[0], units[1]), out)?;
        return Ok(2);
    }
    write_unit(units[0], out)?;
    Ok(1)
}

fn is_pair(high: Unit, low: Unit) -> bool
    ensures { result ≡ (is_high_surrogate high && is_low_surrogate low) }
{
    (0xD800..0xDC00).contains(&high) && (0xDC00..0xE000).contains(&low)
}

// The character of a high surrogate and a low one.
fn pair_char(high: Unit, low: Unit) -> char
    requires high { IsTrue (is_high_surrogate high) }
    requires low { IsTrue (is_low_surrogate low) }
    ensures { result ≡ surrogate_pair_char high low }
{
    let code = 0x1_0000 + (high as u32 - 0xD800) * 0x400 + (low as u32 - 0xDC00);
    char::from_u32(code).unwrap()
}

// A unit that is not part of a pair.
fn write_unit(unit: Unit, out: &mut Vec<u8>) -> Result<(), OutOfMemory>
    ensures ok { OnOk result (out.new.items ≡ out.old.items ++ quoted_unit unit) }
    ensures err { OnErr result (out.new.items ≡ out.old.items) }
{
    if unit == '"' as u16 {
        out.extend_from_slice(b"\\\"")?;
    } else if unit == '\\' as u16 {
        out.extend_from_slice(b"\\\\")?;
    } else if is_escaped(unit) {
        out.extend_from_slice(&escape(unit))?;
    } else {
        write_char(char::from_u32(unit as u32).unwrap(), out)?;
    }
    Ok(())
}

fn write_char(character: char, out: &mut Vec<u8>) -> Result<(), OutOfMemory>
    ensures ok { OnOk result (out.new.items ≡ out.old.items ++ encode_utf8 character) }
    ensures err { OnErr result (out.new.items ≡ out.old.items) }
{
    let mut bytes = [0; 4];
    out.extend_from_slice(character.encode_utf8(&mut bytes).as_bytes())?;
    Ok(())
}

fn is_escaped(unit: Unit) -> bool
    ensures { result ≡ is_escaped unit }
{
    matches!(unit, 0..=31 | 127..=159 | 0x2028..=0x2029 | 0xD800..=0xDFFF)
}

// `\u` and four hexadecimal digits.
fn escape(unit: Unit) -> [u8; 6]
    ensures { result ≡ escape unit }
{
    [
        b'\\',
        b'u',
        hex_digit(unit / 4096),
        hex_digit(unit / 256 % 16),
        hex_digit(unit / 16 % 16),
        hex_digit(unit % 16),
    ]
}

// An upper-case hexadecimal digit.
fn hex_digit(digit: u16) -> u8
    requires { digit < 16 }
    ensures { result ≡ hex_digit digit }
{
    let digit = digit as u8;
    if digit < 10 {
        b'0' + digit
    } else {
        b'A' + (digit - 10)
    }
}
