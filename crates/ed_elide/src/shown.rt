//! What is shown: the members and the text.
ghost use Rattle.std.specs.Prelude.{◌≡◌, ℕ, ◌<◌, ◌≤◌, length, map, slice_range, if◌then◌else◌, IfOk};
ghost use Rattle.ed_base.specs.Runs.{runs};
ghost use Rattle.ed_base.specs.Spans.{end_of};
ghost use Rattle.ed_layers.specs.Hidden.{nearest};
ghost use Rattle.ed_layers.specs.Records.{elision, is_shown, members_len, members_of, tracked};
ghost use Rattle.ed_layers.specs.Texts.{text_over};
ghost use Rattle.ed_spans.specs.SpanSets.{AreApartFrom, held_below, in_spans};

use crate::hidden::Hidden;
use ed_base::{BufferNo, Member, OutOfMemory, Span, SpanMode};
use ed_members::{MemberFault, Members};
use ed_spans::gaps;
use ed_text::{DocText, Text};
use std::alloc::Global;

/// Members that follow these spans of the source.
fn tracked(alloc: Global, source: BufferNo, spans: &[Span]) -> Result<Vec<Member>, OutOfMemory>
    ensures { IfOk result (λ v. v.items ≡ map (tracked source) spans.now) }
{
    let mut list = Vec::new(alloc);
    for span in spans {
        list.push(Member::Tracked {
            source,
            bounds: *span,
            mode: SpanMode::EdgeExclusive,
        })?;
    }
    Ok(list)
}

/// The parts of the text that these spans hold.
fn parts(alloc: Global, text: &DocText, spans: &[Span]) -> Result<Vec<DocText>, OutOfMemory>
    requires { AreApartFrom 0 (length text.now) spans.now }
    ensures { IfOk result (λ v. v.items ≡ map (λ s. slice_range text.now s.start (end_of s)) spans.now) }
{
    let mut parts = Vec::new(alloc);
    for span in spans {
        parts.push(text.slice(alloc, *span)?)?;
    }
    Ok(parts)
}

/// 1 where it holds, else 0.
fn one_if(holds: bool) -> u32
    ensures { result ≡ (if holds then 1 else 0) }
{
    u32::from(holds)
}

impl Hidden {
    /// The maximal runs of shown places, by rising place. It takes O(r) for r hidden runs.
    ///
    /// # Errors
    ///
    /// Memory was refused.
    pub fn shown_runs(&self, alloc: Global) -> Result<Vec<Span>, OutOfMemory>
        ensures runs { IfOk result (λ v. v.items ≡ runs (is_shown self.now) (length self.now)) }
        ensures apart { IfOk result (λ v. AreApartFrom 0 (length self.now) v.items) }
        ensures shown { IfOk result (λ v. (q : ℕ) → q < length self.now → in_spans v.items q ≡ is_shown self.now q) }
        ensures near { IfOk result (λ v. (p : ℕ) → p ≤ length self.now → held_below p v.items ≡ nearest self.now p) }
    {
        let shown = gaps(alloc, self.runs(), self.len())?;
        Ok(shown)
    }

    /// How many maximal runs of shown places there are, which is how many members there are. None is
    /// made.
    pub fn shown_count(&self) -> u32
        ensures { result ≡ length (runs (is_shown self.now) (length self.now)) }
    {
        let (len, hidden) = (self.len(), self.runs());
        if hidden.is_empty() {
            return one_if(0 < len);
        }
        let (first, last) = (hidden[0], hidden[hidden.len() - 1]);
        let between = hidden.len() as u32 - 1;
        let before = one_if(0 < first.start);
        let behind = one_if(last.start + last.len < len);
        between + before + behind
    }

    /// The members of an elision buffer over this source: one for each maximal run of shown places.
    ///
    /// # Errors
    ///
    /// Memory was refused.
    pub fn members(&self, alloc: Global, source: BufferNo) -> Result<Members, OutOfMemory>
        ensures members { IfOk result (λ m. (version : ℕ) → m ≡ members_of (elision self.now source version)) }
        ensures len { IfOk result (λ m. members_len m ≡ nearest self.now (length self.now)) }
    {
        let shown = self.shown_runs(alloc)?;
        let list = tracked(alloc, source, &shown)?;
        match Members::of(alloc, list, &[]) {
            Ok(members) => Ok(members),
            Err(MemberFault::OutOfMemory) => Err(OutOfMemory),
            Err(MemberFault::Mode { .. }) => unreachable!(),
            Err(MemberFault::Overlap { .. }) => unreachable!(),
        }
    }

    /// The shown units of the source text, which the result shares.
    ///
    /// # Errors
    ///
    /// Memory was refused.
    pub fn text(&self, alloc: Global, source: &DocText) -> Result<DocText, OutOfMemory>
        requires { length source.now ≡ length self.now }
        ensures text { IfOk result (λ t. (buffer version : ℕ) → t ≡ text_over (λ b. source.now) (members_of (elision self.now buffer version))) }
        ensures len { IfOk result (λ t. length t ≡ nearest self.now (length self.now)) }
    {
        // The length is looked at for that it is at most 2^22.
        let _len = source.len();
        let shown = self.shown_runs(alloc)?;
        let parts = parts(alloc, source, &shown)?;
        let text = DocText::concat(alloc, &parts)?;
        Ok(text)
    }
}
