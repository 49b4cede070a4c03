//! Spans that grow at their end.
ghost use Rattle.std.specs.Prelude.{◌≡◌, ℕ, ◌<◌, ◌≤◌, ◌^◌, ◌||◌, OnErr, OnOk};
ghost use Rattle.ed_base.specs.Spans.{end_of, holds_place};
ghost use Rattle.ed_spans.specs.SpanSets.{AreApartFrom, in_spans};

use ed_base::{OutOfMemory, Span};

/// Puts a span behind spans that lie apart, none of which ends behind its start. Where the last ends
/// at its start the two are joined, and an empty span puts nothing.
///
/// # Errors
///
/// Memory was refused. Then the list is as it was.
pub fn put_behind(list: &mut Vec<Span>, span: Span) -> Result<(), OutOfMemory>
    requires apart { AreApartFrom 0 span.start list.old.items }
    requires fits { end_of span < 2 ^ 32 }
    ensures apart { OnOk result (AreApartFrom 0 (end_of span) list.new.items) }
    ensures holds { OnOk result ((q : ℕ) → in_spans list.new.items q ≡ (in_spans list.old.items q || holds_place span q)) }
    ensures err { OnErr result (list.new.items ≡ list.old.items) }
{
    if span.len == 0 {
        return Ok(());
    }
    let count = list.len();
    if 0 < count {
        let last = list[count - 1];
        if last.start + last.len == span.start {
            list[count - 1] = Span {
                start: last.start,
                len: last.len + span.len,
            };
            return Ok(());
        }
    }
    list.push(span)?;
    Ok(())
}
