//! The read-only regions of a buffer.
ghost use Rattle.std.specs.Prelude.{◌≡◌, ◌≤◌, ◌^◌, [], ◌<◌, false, length, is_some, slice_index, IfOk, IfSome, OnOk, OnErr};
ghost use Rattle.ed_base.specs.ChangeList.{new_len, step};
ghost use Rattle.ed_base.specs.Denial.{denied_at, first_denied, regions_after};
ghost use Rattle.ed_base.specs.Spans.{end_of};
ghost use Rattle.ed_callbacks.specs.HookLists.{hook_table};
ghost use Rattle.ed_readonly.specs.Denied.{denial_by, earlier, first_denial};
ghost use Rattle.ed_readonly.specs.LiveRegions.{AreKept, EndWithin, is_live, limit_passed, limit_told, numbers, with_region, without_region};

use crate::fault::RegionFault;
use crate::region::ReadOnlyRegion;
use ed_base::{Changes, EdgeMode, Name, RegionNo, Span, SpanMode, VersionNo};
use ed_callbacks::Hooks;
use std::alloc::Global;
use std::marker::Model;

/// How many regions may be live at once.
const LIVE_LIMIT: usize = 1024;

/// How many numbers may be given.
const NUMBER_LIMIT: u32 = 1 << 20;

/// The live read-only regions of a base buffer, by number. Numbers are given from 0 on, and never
/// twice.
#[derive(Drop)]
pub struct Regions {
    list: Vec<ReadOnlyRegion>,
    given: u32,
}

impl Model for Regions {
    ghost use Rattle.ed_readonly.specs.LiveRegions.{LiveRegions, AreKept};

    ghost Value = { LiveRegions };

    ghost view = { λ r. record { regions = r.list.items; given = r.given } };

    ghost invariant = { λ r. AreKept (record { regions = r.list.items; given = r.given }) };
}

/// A change that a region denies, by its index.
#[derive(Clone, Copy)]
pub struct Denial {
    pub index: usize,
    pub region: RegionNo,
}

/// The first change that the region denies.
fn denial_by(
    region: &ReadOnlyRegion,
    changes: &Changes,
    version: VersionNo,
    hooks: &Hooks,
) -> Option<Denial>
    ensures { result ≡ denial_by (hook_table hooks.now) version changes.now.changes region.now }
{
    if !region.may_deny(version, true, hooks) {
        return None;
    }
    match region.first_forbidden(changes.as_slice()) {
        None => None,
        Some(index) => Some(Denial {
            index,
            region: region.number(),
        }),
    }
}

/// The first of two denials, and of those of one change the one that was found before.
fn earlier(found: Option<Denial>, other: Option<Denial>) -> Option<Denial>
    ensures { result ≡ earlier found other }
{
    match (found, other) {
        (None, _) => other,
        (_, None) => found,
        (Some(a), Some(b)) => { if b.index < a.index { other } else { found } }
    }
}

impl Regions {
    /// No regions. It takes no memory.
    pub fn new(alloc: Global) -> Regions
        ensures { result ≡ record { regions = []; given = 0 } }
    {
        Regions {
            list: Vec::new(alloc),
            given: 0,
        }
    }

    /// Makes a region, under the next number.
    ///
    /// # Errors
    ///
    /// 1,024 regions are live, or else 2^20 numbers were given: `Limit` has one more than that.
    /// Memory was refused. The regions are as before then.
    pub fn add(
        &mut self,
        span: Span,
        mode: SpanMode,
        edge: EdgeMode,
        query: Option<Name>,
    ) -> Result<RegionNo, RegionFault>
        requires { end_of span ≤ 2 ^ 22 }
        ensures limit { limit_told result ≡ limit_passed self.old }
        ensures number { IfOk result (λ number. number ≡ self.old.given) }
        ensures ok { OnOk result (self.new ≡ with_region self.old span mode edge query) }
        ensures err { OnErr result (self.new ≡ self.old) }
    {
        if self.list.len() >= LIVE_LIMIT {
            return Err(RegionFault::Limit { count: 1025 });
        }
        if self.given >= NUMBER_LIMIT {
            return Err(RegionFault::Limit { count: 1_048_577 });
        }
        let number = RegionNo(self.given);
        let region = ReadOnlyRegion::new(number, span, mode, edge, query);
        self.list.push(region)?;
        self.given += 1;
        Ok(number)
    }

    /// Where the region of this number stands in the list.
    fn place(&self, number: RegionNo) -> Option<usize>
        ensures live { is_some result ≡ is_live self.now number }
        ensures within { IfSome result (λ at. at < length self.now.regions) }
        ensures place { IfSome result (λ at. slice_index (numbers self.now.regions) at ≡ number) }
    {
        let at = self.list.partition_point(|region| region.number() < number);
        if at < self.list.len() && self.list[at].number() == number {
            Some(at)
        } else {
            None
        }
    }

    /// Whether the region of this number is live.
    pub fn is_live(&self, region: RegionNo) -> bool
        ensures { result ≡ is_live self.now region }
    {
        self.place(region).is_some()
    }

    /// Removes the region of this number. Whether it was live.
    pub fn remove(&mut self, region: RegionNo) -> bool
        ensures live { result ≡ is_live self.old region }
        ensures state { self.new ≡ without_region self.old region }
    {
        let Some(at) = self.place(region) else {
            return false;
        };
        let _removed = self.list.remove(at);
        true
    }

    /// Moves the regions with the text across a step. It takes no memory.
    pub fn advance(&mut self, changes: &Changes)
        requires within { EndWithin changes.now.old_len self.old.regions }
        requires fits { new_len changes.now ≤ 2 ^ 22 }
        ensures moved { self.new.regions ≡ regions_after (step changes.now) self.old.regions }
        ensures given { self.new.given ≡ self.old.given }
        ensures within { EndWithin (new_len changes.now) self.new.regions }
    {
        for region in self.list.iter_mut() {
            region.advance(changes);
        }
    }

    /// How many regions are live.
    pub fn count(&self) -> u32
        ensures { result ≡ length self.now.regions }
    {
        self.list.len() as u32
    }

    /// The live regions, by number.
    pub fn as_slice(&self) -> &[ReadOnlyRegion]
        ensures regions { result.now ≡ self.now.regions }
        ensures kept { AreKept self.now }
    {
        self.list.as_slice()
    }

    /// The region of lowest number that denies what is done at the span, which a query is told to be
    /// an edit or not.
    fn denied_at(&self, at: Span, version: VersionNo, edit: bool, hooks: &Hooks) -> Option<RegionNo>
        ensures { result ≡ denied_at (hook_table hooks.now) self.now.regions version edit at }
    {
        for region in &self.list {
            if region.denies(at, version, edit, hooks) {
                return Some(region.number());
            }
        }
        None
    }

    /// The region of lowest number that denies what an edit would do at the span of the text, at a
    /// version of the buffer; queries are told that no edit is made. Places are in units.
    pub fn denied_in(&self, span: Span, version: VersionNo, hooks: &Hooks) -> Option<RegionNo>
        ensures { result ≡ denied_at (hook_table hooks.now) self.now.regions version false span }
    {
        self.denied_at(span, version, false, hooks)
    }

    /// The first change that one of the regions denies, and the first such region.
    fn first_denial(&self, changes: &Changes, version: VersionNo, hooks: &Hooks) -> Option<Denial>
        ensures { result ≡ first_denial (hook_table hooks.now) version changes.now.changes self.now.regions }
    {
        let mut first = None;
        for region in &self.list {
            first = earlier(first, denial_by(region, changes, version, hooks));
        }
        first
    }

    /// The region of lowest number that denies the first denied change of an edit of a version of the
    /// buffer. It asks each region's query once.
    pub fn first_denied(
        &self,
        changes: &Changes,
        version: VersionNo,
        hooks: &Hooks,
    ) -> Option<RegionNo>
        ensures { result ≡ first_denied (hook_table hooks.now) self.now.regions version changes.now.changes }
    {
        match self.first_denial(changes, version, hooks) {
            None => None,
            Some(denial) => Some(denial.region),
        }
    }
}
