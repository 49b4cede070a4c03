//! What can be asked of a stock.
ghost use Rattle.std.specs.Prelude.{◌≡◌, ◌&&◌, ℕ, ◌+◌, ◌-◌, ◌<◌, ◌≤◌, ◌^◌, length, map, not, true, false, [], None, Some, IfOk, IfSome, is_some, slice_get, slice_range};
ghost use Rattle.ed_base.specs.Denial.{denied_at};
ghost use Rattle.ed_base.specs.Numbers.{first_some, places};
ghost use Rattle.ed_base.specs.Spans.{end_of};
ghost use Rattle.ed_callbacks.specs.HookLists.{hook_table};
ghost use Rattle.ed_layers.specs.Records.{is_carrier, is_elision, members_of};
ghost use Rattle.ed_stock.specs.Limits.{stock_limits};
ghost use Rattle.ed_stock.specs.Making.{flags_of};
ghost use Rattle.ed_stock.specs.Stock.{buffer, count, now, record_now, reiterated, text_at, text_now};
ghost use Rattle.ed_track.specs.Linked.{AreLinked, len_after, len_before};
ghost use Rattle.ed_group.specs.Answers.{members_now};
ghost use Rattle.ed_risen.specs.Laws.{CurrentVector, OneVector};
ghost use Rattle.ed_held.specs.Seen.{known, last_of, reiterated_of, stock, text_of};
ghost use Rattle.ed_sending.specs.Ready.{IsReady, NamesLower};

use crate::stock::Stock;
use ed_base::{BufferNo, Changes, NumberList, OutOfMemory, RegionNo, Span, VersionNo};
use ed_callbacks::Hooks;
use ed_elide::Hidden;
use ed_held::Held;
use ed_text::Text;
use ed_version::Snapshot;
use std::alloc::Global;

impl Stock {
    /// A buffer that is there.
    fn held(&self, b: BufferNo) -> &Held
        requires { b < count (stock self.now) }
        ensures buffer { (known result.now).buffer ≡ buffer (stock self.now) b }
        ensures number { (known result.now).number ≡ b }
        ensures some { 0 < length (known result.now).buffer.records }
        ensures few { length (known result.now).buffer.records ≤ 2 ^ 18 }
        ensures all { length (known result.now).texts ≡ length (known result.now).buffer.records }
        ensures texts { (v : ℕ) → v < length (known result.now).texts → text_of (known result.now) v ≡ text_at (stock self.now) b v }
    {
        &self.buffers[b.0 as usize]
    }

    /// How many buffers there are.
    pub fn count(&self) -> u32
        ensures count { result ≡ count (stock self.now) }
        ensures within { first_some (stock_limits (stock self.now)) ≡ None }
        ensures one { OneVector (stock self.now) }
        ensures current { CurrentVector (stock self.now) }
        ensures ready { IsReady (stock self.now) }
        ensures low { NamesLower (stock self.now) }
    {
        // The graph is looked at for its levels.
        let _order = self.graph.order();
        self.buffers.len() as u32
    }

    /// The current version of a buffer.
    pub fn now(&self, b: BufferNo) -> VersionNo
        requires there { b < count (stock self.now) }
        ensures version { result ≡ now (stock self.now) b }
        ensures records { length (buffer (stock self.now) b).records ≡ result + 1 }
    {
        self.held(b).now()
    }

    /// Whether a buffer is a base.
    pub fn is_base(&self, b: BufferNo) -> bool
        requires there { b < count (stock self.now) }
        ensures { result ≡ not (is_carrier (record_now (stock self.now) b)) }
    {
        self.held(b).is_base()
    }

    /// Whether a buffer is a projection.
    pub fn is_projection(&self, b: BufferNo) -> bool
        requires there { b < count (stock self.now) }
        ensures { result ≡ (is_carrier (record_now (stock self.now) b) && not (is_elision (record_now (stock self.now) b))) }
    {
        self.held(b).is_projection()
    }

    /// The hidden places of an elision buffer at its current version. Other buffers have none.
    pub fn hidden(&self, b: BufferNo) -> Option<&Hidden>
        requires there { b < count (stock self.now) }
        ensures elision { is_some result ≡ is_elision (record_now (stock self.now) b) }
        ensures hidden { IfSome result (λ h. h.now ≡ flags_of (record_now (stock self.now) b)) }
    {
        self.held(b).hidden()
    }

    /// How many members a projection has at its current version.
    pub fn member_count(&self, b: BufferNo) -> u32
        requires there { b < count (stock self.now) }
        ensures { result ≡ length (members_now (stock self.now) b) }
    {
        self.held(b).member_count()
    }

    /// The length of the text of a version that is there, in UTF-16 units.
    pub fn text_len(&self, b: BufferNo, v: VersionNo) -> u32
        requires there { b < count (stock self.now) }
        requires version { v ≤ now (stock self.now) b }
        ensures { result ≡ length (text_at (stock self.now) b v) }
    {
        self.held(b).text(v).len()
    }

    /// The snapshot of a version that is there.
    ///
    /// # Errors
    ///
    /// A further holder was refused, which counts as want of memory.
    pub fn snapshot(&self, b: BufferNo, v: VersionNo) -> Result<Snapshot, OutOfMemory>
        requires there { b < count (stock self.now) }
        requires version { v ≤ now (stock self.now) b }
        ensures { IfOk result (λ s. s ≡ record { buffer = b; version = v; text = text_at (stock self.now) b v }) }
    {
        self.held(b).snapshot(v)
    }

    /// The change list that leads from a version, which isn't the current one, to the next.
    ///
    /// # Errors
    ///
    /// A further holder was refused, which counts as want of memory.
    pub fn changes(&self, b: BufferNo, v: VersionNo) -> Result<Changes, OutOfMemory>
        requires there { b < count (stock self.now) }
        requires version { v < now (stock self.now) b }
        ensures { IfOk result (λ c. slice_get (buffer (stock self.now) b).changes v ≡ Some c) }
    {
        self.held(b).changes_from(v).share()
    }

    /// The change lists that lead from one version to another that isn't older.
    pub fn steps(&self, b: BufferNo, from: VersionNo, to: VersionNo) -> &[Changes]
        requires there { b < count (stock self.now) }
        requires order { from ≤ to }
        requires version { to ≤ now (stock self.now) b }
        ensures changes { result.now ≡ slice_range (buffer (stock self.now) b).changes from to }
        ensures linked { AreLinked result.now }
        ensures before { (p : ℕ) → p ≤ length (text_at (stock self.now) b from) → p ≤ len_before p result.now }
        ensures after { (p : ℕ) → p ≤ length (text_at (stock self.now) b to) → p ≤ len_after p result.now }
    {
        self.held(b).steps(from, to)
    }

    /// The number that each version repeats, from version 0 on.
    ///
    /// # Errors
    ///
    /// Memory was refused.
    pub fn reiterated_numbers(&self, alloc: Global, b: BufferNo) -> Result<NumberList, OutOfMemory>
        requires there { b < count (stock self.now) }
        ensures { IfOk result (λ numbers. numbers ≡ map (reiterated (stock self.now) b) (places (now (stock self.now) b + 1))) }
    {
        self.held(b).reiterated_numbers(alloc)
    }

    /// The region of lowest number of a base that denies what is done at a span of the current text,
    /// asked without editing.
    pub fn denied_in(&self, hooks: &Hooks, b: BufferNo, span: Span) -> Option<RegionNo>
        requires there { b < count (stock self.now) }
        requires base { is_carrier (record_now (stock self.now) b) ≡ false }
        requires within { end_of span ≤ length (text_now (stock self.now) b) }
        ensures { result ≡ denied_at (hook_table hooks.now) (buffer (stock self.now) b).regions (now (stock self.now) b) false span }
    {
        self.held(b).denied_in(hooks, span)
    }
}
