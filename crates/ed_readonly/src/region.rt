//! One read-only region.
ghost use Rattle.std.specs.Prelude.{◌≡◌, ℕ, ◌+◌, ◌<◌, ◌≤◌, ◌&&◌, length, max, min, option_map, slice_index};
ghost use Rattle.ed_base.specs.ChangeList.{AreNormalFrom, new_len, step};
ghost use Rattle.ed_base.specs.Denial.{forbids, forbids_insertion, query_lets, region_after};
ghost use Rattle.ed_base.specs.Spans.{end_of, shares_unit, touches_gap};
ghost use Rattle.ed_callbacks.specs.HookLists.{hook_table};
ghost use Rattle.ed_readonly.specs.Denied.{ends, first_forbidden, forbids_at, taken_span};

use ed_base::{Change, Changes, EdgeMode, Name, RegionNo, Span, SpanMode, VersionNo};
use ed_callbacks::Hooks;
use std::marker::Model;

/// A live read-only region: its number within its buffer, its span now, how the span moves with the
/// text, whether text may be put in at its edges, and the query that it asks before it denies.
#[derive(Drop)]
pub struct ReadOnlyRegion {
    number: RegionNo,
    span: Span,
    mode: SpanMode,
    edge: EdgeMode,
    query: Option<Name>,
}

impl Model for ReadOnlyRegion {
    ghost use Rattle.ed_base.specs.Denial.{Region};

    ghost Value = { Region };

    ghost view = { λ r. record { number = r.number; span = r.span; mode = r.mode; edge = r.edge; query = r.query } };
}

/// Where a span ends, in units.
fn end(span: Span) -> u64
    ensures { result ≡ end_of span }
{
    u64::from(span.start) + u64::from(span.len)
}

/// Whether some unit lies in both spans.
fn share_a_unit(first: Span, second: Span) -> bool
    ensures { result ≡ shares_unit first second }
{
    u64::from(first.start.max(second.start)) < end(first).min(end(second))
}

/// Whether text may not be put in at the gap of a region with this span and edge mode.
fn is_insertion_forbidden(edge: EdgeMode, span: Span, gap: u32) -> bool
    ensures { result ≡ forbids_insertion edge span gap }
{
    let gap_place = u64::from(gap);
    match edge {
        EdgeMode::Allow => span.start < gap && gap_place < end(span),
        EdgeMode::Deny => span.start <= gap && gap_place <= end(span),
    }
}

/// Whether the query lets its region deny. One that isn't there does.
fn lets_deny(hooks: &Hooks, query: &Option<Name>, version: VersionNo, edit: bool) -> bool
    ensures { result ≡ query_lets (hook_table hooks.now) query.now version edit }
{
    let Some(name) = query else {
        return true;
    };
    match hooks.query(name.as_str()) {
        None => true,
        Some(query) => query.denies(version, edit),
    }
}

/// What the change takes away.
fn taken_span(change: &Change) -> Span
    ensures { result ≡ taken_span change.now }
{
    Span {
        start: change.start,
        len: change.old_len,
    }
}

/// Where the change with this index ends in the old text.
fn end_at(changes: &[Change], index: usize) -> u64
    requires { index < length changes.now }
    ensures { result ≡ slice_index (ends changes.now) index }
{
    end(taken_span(&changes[index]))
}

/// How many changes end before the place.
fn count_ending_before(changes: &[Change], place: u32) -> usize
    requires normal { (n : ℕ) × AreNormalFrom 0 n changes.now }
    ensures within { result ≤ length changes.now }
    ensures before { (k : ℕ) → k < result → slice_index (ends changes.now) k < place }
    ensures next { result < length changes.now → place ≤ slice_index (ends changes.now) result }
{
    let mut low = 0;
    let mut high = changes.len();
    while low < high {
        let middle = low + (high - low) / 2;
        if end_at(changes, middle) < u64::from(place) {
            low = middle + 1;
        } else {
            high = middle;
        }
    }
    low
}

impl ReadOnlyRegion {
    pub(crate) fn new(
        number: RegionNo,
        span: Span,
        mode: SpanMode,
        edge: EdgeMode,
        query: Option<Name>,
    ) -> ReadOnlyRegion
        ensures { result ≡ record { number = number; span = span; mode = mode; edge = edge; query = query } }
    {
        ReadOnlyRegion {
            number,
            span,
            mode,
            edge,
            query,
        }
    }

    /// Its number within its buffer.
    pub fn number(&self) -> RegionNo
        ensures { result ≡ self.now.number }
    {
        self.number
    }

    /// Its span now, in units.
    pub fn span(&self) -> Span
        ensures { result ≡ self.now.span }
    {
        self.span
    }

    /// How its span moves with the text.
    pub fn mode(&self) -> SpanMode
        ensures { result ≡ self.now.mode }
    {
        self.mode
    }

    /// Whether text may be put in at its edges.
    pub fn edge(&self) -> EdgeMode
        ensures { result ≡ self.now.edge }
    {
        self.edge
    }

    /// The name of the query that it asks.
    pub fn query(&self) -> Option<&str>
        ensures { option_map (λ name. name.now) result ≡ self.now.query }
    {
        match &self.query {
            None => None,
            Some(name) => Some(name.as_str()),
        }
    }

    /// Whether it forbids what is done at the span, its query aside: an insertion where the span is
    /// empty, else a deletion.
    fn forbids(&self, at: Span) -> bool
        ensures { result ≡ forbids self.now at }
    {
        if at.len == 0 {
            is_insertion_forbidden(self.edge, self.span, at.start)
        } else {
            share_a_unit(self.span, at)
        }
    }

    /// Whether its query lets it deny.
    pub(crate) fn may_deny(&self, version: VersionNo, edit: bool, hooks: &Hooks) -> bool
        ensures { result ≡ query_lets (hook_table hooks.now) self.now.query version edit }
    {
        lets_deny(hooks, &self.query, version, edit)
    }

    /// Whether it forbids the change with this index, its query aside.
    fn forbids_at(&self, changes: &[Change], index: usize) -> bool
        ensures { result ≡ forbids_at self.now changes.now index }
    {
        match changes.get(index) {
            None => false,
            Some(change) => self.forbids(taken_span(change)),
        }
    }

    /// The index of the first change that it forbids, its query aside. It looks for the first that
    /// doesn't end before the region, which may touch it alone; then the next is the first that can be
    /// forbidden.
    pub(crate) fn first_forbidden(&self, changes: &[Change]) -> Option<usize>
        requires normal { (n : ℕ) × AreNormalFrom 0 n changes.now }
        ensures { result ≡ first_forbidden self.now changes.now }
    {
        let first = count_ending_before(changes, self.span.start);
        if self.forbids_at(changes, first) {
            return Some(first);
        }
        if self.forbids_at(changes, first + 1) {
            return Some(first + 1);
        }
        None
    }

    /// Whether it denies what is done at the span.
    pub(crate) fn denies(&self, at: Span, version: VersionNo, edit: bool, hooks: &Hooks) -> bool
        ensures { result ≡ forbids self.now at && query_lets (hook_table hooks.now) self.now.query version edit }
    {
        self.forbids(at) && lets_deny(hooks, &self.query, version, edit)
    }

    /// Moves it with the text across a step.
    pub(crate) fn advance(&mut self, changes: &Changes)
        requires { end_of self.old.span ≤ changes.now.old_len }
        ensures moved { self.new ≡ region_after (step changes.now) self.old }
        ensures within { end_of self.new.span ≤ new_len changes.now }
    {
        self.span = ed_track::span(self.mode, self.span, changes);
    }
}
