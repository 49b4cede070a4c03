//! Texts whose units stand in one block.
ghost use Rattle.std.specs.Prelude.{◌≡◌, ℕ, ◌+◌, ◌<◌, ◌≤◌, ◌^◌, List, ◌++◌, length, flat_map, sum_by, slice_get, slice_range, IfOk, OnOk, OnErr};
ghost use Rattle.ed_base.specs.Spans.{end_of};
ghost use Rattle.ed_base.specs.ChangeList.{applied, new_len};

use crate::text::Text;
use ed_base::{Changes, OutOfMemory, SharedUnits, Span, Unit, Units};
use ed_change::apply;
use std::alloc::Global;
use std::marker::Model;

/// A text whose units stand in one block that its holders share. An empty text has none.
#[derive(Drop)]
pub struct PlainText {
    block: SharedUnits,
}

impl Model for PlainText {
    ghost use Rattle.std.specs.Prelude.{ℕ, ◌≤◌, ◌^◌, List, length};

    ghost Value = { List ℕ };

    ghost view = { λ t. t.block };

    ghost invariant = { λ t. length t.block ≤ 2 ^ 22 };
}

/// How many units the texts have together.
fn total_len(parts: &[PlainText]) -> usize
    requires { sum_by length parts.now ≤ 2 ^ 22 }
    ensures { result ≡ sum_by length parts.now }
{
    let mut total = 0;
    for part in parts {
        total += part.as_slice().len();
    }
    total
}

impl PlainText {
    /// The units.
    fn as_slice(&self) -> &[Unit]
        ensures { result.now ≡ self.now }
    {
        self.block.as_slice()
    }

    /// The units in a span.
    fn part(&self, span: Span) -> &[Unit]
        requires { end_of span ≤ length self.now }
        ensures { result.now ≡ slice_range self.now span.start (end_of span) }
    {
        let start = span.start as usize;
        &self.as_slice()[start..start + span.len as usize]
    }
}

impl Text for PlainText {
    ghost units = { λ t. t };

    fn from_units(alloc: Global, content: &[Unit]) -> Result<PlainText, OutOfMemory>
        requires { length content.now ≤ 2 ^ 22 }
        ensures { IfOk result (λ t. t ≡ content.now) }
    {
        let items = Vec::from_slice(alloc, content)?;
        PlainText::of(alloc, Units::of(items))
    }

    fn of(alloc: Global, content: Units) -> Result<PlainText, OutOfMemory>
        requires { length content ≤ 2 ^ 22 }
        ensures { IfOk result (λ t. t ≡ content) }
    {
        let block = SharedUnits::of(alloc, content.into_vec())?;
        Ok(PlainText { block })
    }

    fn len(&self) -> u32
        ensures value { result ≡ length self.now }
        ensures most { length self.now ≤ 2 ^ 22 }
    {
        self.block.as_slice().len() as u32
    }

    fn unit(&self, at: u32) -> Unit
        requires { at < length self.now }
        ensures { slice_get self.now at ≡ Some result }
    {
        self.as_slice()[at as usize]
    }

    fn run(&self, span: Span) -> &[Unit]
        requires { end_of span ≤ length self.now }
        ensures some { 0 < span.len → 0 < length result.now }
        ensures inside { length result.now ≤ span.len }
        ensures units { result.now ≡ slice_range self.now span.start (span.start + length result.now) }
    {
        self.part(span)
    }

    fn share(&self) -> Result<PlainText, OutOfMemory>
        ensures { IfOk result (λ t. t ≡ self.now) }
    {
        Ok(PlainText {
            block: self.block.share()?,
        })
    }

    fn slice(&self, alloc: Global, span: Span) -> Result<PlainText, OutOfMemory>
        requires { end_of span ≤ length self.now }
        ensures { IfOk result (λ t. t ≡ slice_range self.now span.start (end_of span)) }
    {
        if span.len == self.len() {
            return self.share();
        }
        PlainText::from_units(alloc, self.part(span))
    }

    fn concat(alloc: Global, parts: &[PlainText]) -> Result<PlainText, OutOfMemory>
        requires { sum_by length parts.now ≤ 2 ^ 22 }
        ensures { IfOk result (λ t. t ≡ flat_map (λ part. part) parts.now) }
    {
        if let [only] = parts {
            return only.share();
        }
        let mut content = Units::of(Vec::with_capacity(alloc, total_len(parts))?);
        for part in parts {
            content.extend(part.as_slice())?;
        }
        PlainText::of(alloc, content)
    }

    fn replace(&self, alloc: Global, changes: &Changes) -> Result<PlainText, OutOfMemory>
        requires old { changes.now.old_len ≡ length self.now }
        requires new { new_len changes.now ≤ 2 ^ 22 }
        ensures text { IfOk result (λ t. t ≡ applied changes.now self.now) }
        ensures len { IfOk result (λ t. length t ≡ new_len changes.now) }
    {
        if changes.count() == 0 {
            let same = self.share()?;
            return Ok(same);
        }
        let content = apply(alloc, self.as_slice(), changes)?;
        PlainText::of(alloc, content)
    }

    fn copy_out(&self, span: Span, into: &mut Units) -> Result<(), OutOfMemory>
        requires { end_of span ≤ length self.now }
        ensures ok { OnOk result (into.new ≡ into.old ++ slice_range self.now span.start (end_of span)) }
        ensures err { OnErr result (into.new ≡ into.old) }
    {
        into.extend(self.part(span))
    }
}
