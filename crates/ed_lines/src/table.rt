//! The table of a text's lines.
ghost use Rattle.std.specs.Prelude.{◌≡◌, ℕ, ◌<◌, List, length, drop, nat_le, count_by, slice_get, IfOk};
ghost use Rattle.ed_lines.specs.Lines.{line_of, lines};

use crate::finding::lines_of;
use ed_base::{LineList, LineSpan, OutOfMemory};
use ed_text::DocText;
use std::alloc::Global;
use std::marker::Model;

/// The lines of a text, from the first on, as a table that its holders share.
#[derive(Drop)]
pub struct Lines {
    list: LineList,
}

impl Model for Lines {
    ghost use Rattle.std.specs.Prelude.{List, length, ◌<◌, ◌^◌};
    ghost use Rattle.ed_base.specs.declared.edit.LineSpan.{LineSpan};
    ghost use Rattle.std.specs.List.Sorted.{IsNonDecreasingBy};

    ghost Value = { List LineSpan };

    ghost view = { λ t. t.list };

    ghost invariant = { λ t. IsNonDecreasingBy (λ (l : LineSpan). l.span.start) t.list × (length t.list < 2 ^ 32) };
}

impl Lines {
    /// The lines of the text, in one pass over the runs that are stored. A carriage return (13) with a line feed (10)
    /// after it is one break of two units; each of them without the other, and each next line (133),
    /// line separator (8232) and paragraph separator (8233), is a break of one unit. A text with k
    /// breaks has k + 1 lines, of which the last may be empty. They are `ITextSnapshotLine` of the
    /// editor SDK.
    ///
    /// # Errors
    ///
    /// Memory was refused.
    pub fn of(alloc: Global, text: &DocText) -> Result<Lines, OutOfMemory>
        ensures { IfOk result (λ t. t ≡ lines text.now) }
    {
        let found = lines_of(alloc, text)?;
        let list = LineList::of(alloc, found)?;
        Ok(Lines { list })
    }

    /// How many lines there are.
    pub fn count(&self) -> u32
        ensures { result ≡ length self.now }
    {
        self.list.as_slice().len() as u32
    }

    /// The line with this number, from 0 on: its span without its break, and the length of the break,
    /// both in units.
    pub fn line_span(&self, line: u32) -> LineSpan
        requires { line < length self.now }
        ensures { slice_get self.now line ≡ Some result }
    {
        self.list.as_slice()[line as usize]
    }

    /// The number of the line in which a position lies, in units, by a binary search: how many of the
    /// lines after the first start at the position or before it. A position within a break lies in the
    /// line that the break ends, and one behind the text in the last line.
    pub fn line_of(&self, position: u32) -> u32
        ensures line { result ≡ count_by (λ l. nat_le l.span.start position) (drop 1 self.now) }
        ensures of_text { (units : List ℕ) → self.now ≡ lines units → result ≡ line_of units position }
    {
        let lines = self.list.as_slice();
        let started = lines.partition_point(|line| line.span.start <= position);
        started.saturating_sub(1) as u32
    }

    /// The lines, shared. Nothing is copied.
    ///
    /// # Errors
    ///
    /// A further holder was refused, which counts as want of memory.
    pub fn list(&self) -> Result<LineList, OutOfMemory>
        ensures { IfOk result (λ l. l ≡ self.now) }
    {
        self.list.share()
    }
}
