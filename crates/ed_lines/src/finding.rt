//! The pass over a text that finds its lines.
ghost use Rattle.std.specs.Prelude.{◌≡◌, ℕ, true, ◌<◌, ◌≤◌, ◌^◌, length, vec_len, IfOk};
ghost use Rattle.std.specs.List.{AllWithin};
ghost use Rattle.std.specs.List.Sorted.{IsNonDecreasingBy};
ghost use Rattle.ed_lines.specs.Lines.{line, lines};
ghost use Rattle.ed_lines.specs.Plain.{is_plain};
ghost use Rattle.ed_units.specs.Breaks.{break_len};

use ed_base::{LineSpan, OutOfMemory, Span, Unit, Units};
use ed_text::Text;
use ed_units::break_len;
use std::alloc::Global;

/// A line from one place up to another, without its break.
fn line(start: u32, end: u32, break_len: u32) -> LineSpan
    requires { start ≤ end }
    ensures { result ≡ line start end break_len }
{
    let span = Span {
        start,
        len: end - start,
    };
    LineSpan { span, break_len }
}

/// Whether a break begins nowhere at this unit.
fn is_plain(unit: Unit) -> bool
    ensures { result ≡ is_plain unit }
{
    !matches!(unit, 13 | 10 | 133 | 8232 | 8233)
}

/// How many units stand before the first one at which a break may begin.
fn plain_len(units: &[Unit]) -> usize
    ensures within { result ≤ length units.now }
    ensures plain { AllWithin (λ u. is_plain u ≡ true) units.now 0 result }
{
    let mut len = 0;
    while len < units.len() && is_plain(units[len]) {
        len += 1;
    }
    len
}

/// The place behind the units from `at` on, in the run that is stored there, that are plain.
fn behind_plain<T: Text>(text: &T, at: u32) -> u32
    requires { at < length (T.units text.now) }
    ensures behind { at ≤ result }
    ensures within { result ≤ length (T.units text.now) }
    ensures none { (q : ℕ) → at ≤ q → q < result → break_len (T.units text.now) q ≡ 0 }
{
    let len = text.len() - at;
    let run = text.run(Span { start: at, len });
    at + plain_len(run) as u32
}

/// The length of the break that begins at a place, 0 where none does. It is told by the unit there and
/// those beside it, which are copied only where they are stored apart.
fn break_at<T: Text>(alloc: Global, text: &T, at: u32) -> Result<u32, OutOfMemory>
    requires { at < length (T.units text.now) }
    ensures { IfOk result (λ n. n ≡ break_len (T.units text.now) at) }
{
    let len = text.len();
    let start = at.saturating_sub(1);
    let end = len.min(at + 2);
    let around = Span {
        start,
        len: end - start,
    };
    let run = text.run(around);
    if run.len() == around.len as usize {
        return Ok(break_len(run, at - start));
    }
    let mut units = Units::new(alloc);
    text.copy_out(around, &mut units)?;
    Ok(break_len(units.as_slice(), at - start))
}

/// The lines of a text, from the first on.
///
/// # Errors
///
/// Memory was refused.
pub fn lines_of<T: Text>(alloc: Global, text: &T) -> Result<Vec<LineSpan>, OutOfMemory>
    ensures lines { IfOk result (λ v. v.items ≡ lines (T.units text.now)) }
    ensures rising { IfOk result (λ v. IsNonDecreasingBy (λ l. l.span.start) v.items) }
    ensures few { IfOk result (λ v. length v.items < 2 ^ 32) }
{
    let len = text.len();
    let mut lines = Vec::new(alloc);
    let mut start = 0;
    let mut at = 0;
    while at < len {
        let next = behind_plain(text, at);
        if next > at {
            at = next;
            continue;
        }
        let found = break_at(alloc, text, at)?;
        if found == 0 {
            at += 1;
        } else {
            lines.push(line(start, at, found))?;
            at += found;
            start = at;
        }
    }
    lines.push(line(start, len, 0))?;
    Ok(lines)
}
