//! How refusals are printed.
ghost use Rattle.std.specs.Prelude.{◌≡◌, ◌++◌, codes, decimal, OnOk};
ghost use Rattle.ed_render.specs.Refusals.{span_text, which_text, what_text, two_numbers, refusal_text};

use crate::push::{Line, number, word};
use ed_base::{OutOfMemory, Refusal, Span, What, Which};
use std::alloc::Global;

/// Puts a span at the end of a line.
pub fn span(alloc: Global, line: &mut Line, span: Span) -> Result<(), OutOfMemory>
    ensures { OnOk result (line.new.items ≡ line.old.items ++ span_text span) }
{
    word(line, "[")?;
    number(alloc, line, u64::from(span.start))?;
    word(line, ",")?;
    number(alloc, line, u64::from(span.start) + u64::from(span.len))?;
    word(line, ")")
}

fn which(line: &mut Line, which: Which) -> Result<(), OutOfMemory>
    ensures { OnOk result (line.new.items ≡ line.old.items ++ which_text which) }
{
    match which {
        Which::Buffers => word(line, "Buffers"),
        Which::Units => word(line, "Units"),
        Which::Inserted => word(line, "Inserted"),
        Which::Versions => word(line, "Versions"),
        Which::Members => word(line, "Members"),
        Which::Placements => word(line, "Placements"),
        Which::Taggers => word(line, "Taggers"),
        Which::Aggregators => word(line, "Aggregators"),
        Which::Regions => word(line, "Regions"),
        Which::Answers => word(line, "Answers"),
    }
}

fn what(line: &mut Line, what: What) -> Result<(), OutOfMemory>
    ensures { OnOk result (line.new.items ≡ line.old.items ++ what_text what) }
{
    match what {
        What::Version => word(line, "Version"),
        What::Tagger => word(line, "Tagger"),
        What::Region => word(line, "Region"),
        What::Aggregator => word(line, "Aggregator"),
        What::Hook => word(line, "Hook"),
    }
}

fn one(alloc: Global, line: &mut Line, text: &str, a: u64) -> Result<(), OutOfMemory>
    ensures { OnOk result (line.new.items ≡ line.old.items ++ (text.now ++ decimal a)) }
{
    word(line, text)?;
    number(alloc, line, a)
}

fn two(alloc: Global, line: &mut Line, text: &str, a: u64, b: u32) -> Result<(), OutOfMemory>
    ensures { OnOk result (line.new.items ≡ line.old.items ++ (text.now ++ two_numbers a b)) }
{
    one(alloc, line, text, a)?;
    one(alloc, line, " ", u64::from(b))
}

fn literal(alloc: Global, line: &mut Line, buffer: u32, at: Span) -> Result<(), OutOfMemory>
    ensures { OnOk result (line.new.items ≡ line.old.items ++ (codes "refused 6 Literal " ++ (decimal buffer ++ (codes " " ++ span_text at)))) }
{
    one(alloc, line, "refused 6 Literal ", u64::from(buffer))?;
    word(line, " ")?;
    span(alloc, line, at)
}

fn read_only(alloc: Global, line: &mut Line, buffer: u32, region: u32) -> Result<(), OutOfMemory>
    ensures { OnOk result (line.new.items ≡ line.old.items ++ (codes "refused 8 ReadOnly " ++ two_numbers buffer region)) }
{
    two(
        alloc,
        line,
        "refused 8 ReadOnly ",
        u64::from(buffer),
        region,
    )
}

fn limit(alloc: Global, line: &mut Line, kind: Which, count: u64) -> Result<(), OutOfMemory>
    ensures { OnOk result (line.new.items ≡ line.old.items ++ (codes "refused 16 Limit " ++ (which_text kind ++ (codes " " ++ decimal count)))) }
{
    word(line, "refused 16 Limit ")?;
    which(line, kind)?;
    one(alloc, line, " ", count)
}

fn no_such(line: &mut Line, kind: What) -> Result<(), OutOfMemory>
    ensures { OnOk result (line.new.items ≡ line.old.items ++ (codes "refused 15 NoSuch " ++ what_text kind)) }
{
    word(line, "refused 15 NoSuch ")?;
    what(line, kind)
}

/// Puts a refusal at the end of a line.
pub fn refusal(alloc: Global, line: &mut Line, refusal: Refusal) -> Result<(), OutOfMemory>
    ensures { OnOk result (line.new.items ≡ line.old.items ++ refusal_text refusal) }
{
    match refusal {
        Refusal::NoBuffer => word(line, "refused 1 NoBuffer"),
        Refusal::NameTaken => word(line, "refused 2 NameTaken"),
        Refusal::WrongKind => word(line, "refused 3 WrongKind"),
        Refusal::Stale { now } => one(alloc, line, "refused 4 Stale ", u64::from(now.0)),
        Refusal::OutOfRange { end, len } => { two(alloc, line, "refused 5 OutOfRange ", end, len) }
        Refusal::Literal { buffer, span } => literal(alloc, line, buffer.0, span),
        Refusal::NoPlace { buffer, gap } => {
            two(alloc, line, "refused 7 NoPlace ", u64::from(buffer.0), gap)
        }
        Refusal::ReadOnly { buffer, region } => read_only(alloc, line, buffer.0, region.0),
        Refusal::Mode { index } => one(alloc, line, "refused 9 Mode ", u64::from(index)),
        Refusal::Overlap { index, other } => {
            two(alloc, line, "refused 10 Overlap ", u64::from(index), other)
        }
        Refusal::Cycle { via } => one(alloc, line, "refused 11 Cycle ", u64::from(via.0)),
        Refusal::Depth { height } => one(alloc, line, "refused 12 Depth ", u64::from(height)),
        Refusal::NothingToUndo => word(line, "refused 13 NothingToUndo"),
        Refusal::NothingToRedo => word(line, "refused 14 NothingToRedo"),
        Refusal::NoSuch { what } => no_such(line, what),
        Refusal::Limit { which, count } => limit(alloc, line, which, count),
    }
}
