//! How replies are printed.
ghost use Rattle.std.specs.Prelude.{◌≡◌, ◌++◌, codes, decimal, IfOk, OnOk};
ghost use Rattle.ed_units.specs.Quoted.{quoted};
ghost use Rattle.ed_render.specs.Replies.{version_text, each_version, versions_text, change_text, each_change, changes_text, line_span_text, each_line, lines_text, each_number, numbers_text, reply_text};

use crate::push::{Line, number, word};
use crate::refusals::{refusal, span};
use crate::texts::quoted_text;
use ed_base::{BufferNo, Change, LineSpan, OutOfMemory, VersionNo};
use ed_entry::Reply;
use ed_units::write_quoted;
use ed_version::Snapshot;
use std::alloc::Global;

fn version(
    alloc: Global,
    line: &mut Line,
    buffer: BufferNo,
    version: VersionNo,
) -> Result<(), OutOfMemory>
    ensures { OnOk result (line.new.items ≡ line.old.items ++ version_text buffer version) }
{
    number(alloc, line, u64::from(buffer.0))?;
    word(line, "@")?;
    number(alloc, line, u64::from(version.0))
}

fn each(
    alloc: Global,
    line: &mut Line,
    versions: &[(BufferNo, VersionNo)],
) -> Result<(), OutOfMemory>
    ensures { OnOk result (line.new.items ≡ line.old.items ++ each_version versions.now) }
{
    for pair in versions {
        let (buffer, made) = *pair;
        word(line, " ")?;
        version(alloc, line, buffer, made)?;
    }
    Ok(())
}

fn edited(
    alloc: Global,
    line: &mut Line,
    versions: &[(BufferNo, VersionNo)],
) -> Result<(), OutOfMemory>
    ensures { OnOk result (line.new.items ≡ line.old.items ++ (codes "edited" ++ versions_text versions.now)) }
{
    word(line, "edited")?;
    if versions.is_empty() {
        word(line, " none")
    } else {
        each(alloc, line, versions)
    }
}

fn text(alloc: Global, line: &mut Line, snapshot: &Snapshot) -> Result<(), OutOfMemory>
    ensures { OnOk result (line.new.items ≡ line.old.items ++ (version_text snapshot.now.buffer snapshot.now.version ++ (codes " " ++ quoted snapshot.now.text))) }
{
    version(alloc, line, snapshot.buffer, snapshot.version)?;
    word(line, " ")?;
    quoted_text(alloc, line, &snapshot.text)
}

fn line_span(alloc: Global, line: &mut Line, at: LineSpan) -> Result<(), OutOfMemory>
    ensures { OnOk result (line.new.items ≡ line.old.items ++ line_span_text at) }
{
    span(alloc, line, at.span)?;
    number(alloc, line, u64::from(at.break_len))
}

fn each_line_of(alloc: Global, line: &mut Line, lines: &[LineSpan]) -> Result<(), OutOfMemory>
    ensures { OnOk result (line.new.items ≡ line.old.items ++ each_line lines.now) }
{
    for item in lines {
        word(line, " ")?;
        line_span(alloc, line, *item)?;
    }
    Ok(())
}

fn lines(alloc: Global, line: &mut Line, lines: &[LineSpan]) -> Result<(), OutOfMemory>
    ensures { OnOk result (line.new.items ≡ line.old.items ++ lines_text lines.now) }
{
    match lines.split_first() {
        None => Ok(()),
        Some((first, others)) => {
            line_span(alloc, line, *first)?;
            each_line_of(alloc, line, others)
        }
    }
}

fn each_number_of(alloc: Global, line: &mut Line, numbers: &[u32]) -> Result<(), OutOfMemory>
    ensures { OnOk result (line.new.items ≡ line.old.items ++ each_number numbers.now) }
{
    for item in numbers {
        word(line, " ")?;
        number(alloc, line, u64::from(*item))?;
    }
    Ok(())
}

fn numbers(alloc: Global, line: &mut Line, numbers: &[u32]) -> Result<(), OutOfMemory>
    ensures { OnOk result (line.new.items ≡ line.old.items ++ numbers_text numbers.now) }
{
    match numbers.split_first() {
        None => Ok(()),
        Some((first, others)) => {
            number(alloc, line, u64::from(*first))?;
            each_number_of(alloc, line, others)
        }
    }
}

fn change(alloc: Global, line: &mut Line, change: &Change) -> Result<(), OutOfMemory>
    ensures { OnOk result (line.new.items ≡ line.old.items ++ change_text change.now) }
{
    word(line, "(")?;
    number(alloc, line, u64::from(change.start))?;
    word(line, ",")?;
    number(alloc, line, u64::from(change.old_len))?;
    word(line, ",")?;
    write_quoted(change.text.as_slice(), line)?;
    word(line, ")")
}

fn each_change_of(alloc: Global, line: &mut Line, changes: &[Change]) -> Result<(), OutOfMemory>
    ensures { OnOk result (line.new.items ≡ line.old.items ++ each_change changes.now) }
{
    for item in changes {
        word(line, " ")?;
        change(alloc, line, item)?;
    }
    Ok(())
}

fn changes(alloc: Global, line: &mut Line, changes: &[Change]) -> Result<(), OutOfMemory>
    ensures { OnOk result (line.new.items ≡ line.old.items ++ changes_text changes.now) }
{
    match changes.split_first() {
        None => word(line, "none"),
        Some((first, others)) => {
            change(alloc, line, first)?;
            each_change_of(alloc, line, others)
        }
    }
}

fn numbered(alloc: Global, line: &mut Line, text: &str, of: u32) -> Result<(), OutOfMemory>
    ensures { OnOk result (line.new.items ≡ line.old.items ++ (text.now ++ decimal of)) }
{
    word(line, text)?;
    number(alloc, line, u64::from(of))
}

/// Puts a reply at the end of a line.
#[tactic(auto, unfolding(crate::specs::Replies::reply_text))]
pub fn reply(alloc: Global, line: &mut Line, reply: &Reply) -> Result<(), OutOfMemory>
    ensures { OnOk result (line.new.items ≡ line.old.items ++ reply_text reply.now) }
{
    match reply {
        Reply::Made { buffer } => numbered(alloc, line, "made ", buffer.0),
        Reply::Edited { versions } => edited(alloc, line, versions.as_slice()),
        Reply::Region { region } => numbered(alloc, line, "region ", region.0),
        Reply::Removed => word(line, "removed"),
        Reply::Denied { region } => numbered(alloc, line, "denied ", region.0),
        Reply::Free => word(line, "free"),
        Reply::Text { snapshot } => text(alloc, line, snapshot),
        Reply::Lines { lines: list } => lines(alloc, line, list.as_slice()),
        Reply::Changes { changes: list } => changes(alloc, line, list.as_slice()),
        Reply::Versions { numbers: list } => numbers(alloc, line, list.as_slice()),
        Reply::At { pos } => numbered(alloc, line, "at ", *pos),
        Reply::Span { span: place } => span(alloc, line, *place),
        Reply::Refused(cause) => refusal(alloc, line, *cause),
    }
}
