//! A buffer of any kind.
ghost use Rattle.std.specs.Prelude.{◌≡◌, ◌&&◌, ℕ, ◌+◌, ◌-◌, ◌<◌, ◌≤◌, ◌^◌, length, map, not, nat_eq, true, false, Some, IfOk, IfSome, OnOk, OnErr, is_some, option_map, slice_get, slice_range};
ghost use Rattle.std.specs.List.{list_any};
ghost use Rattle.ed_base.specs.Denial.{denied_at};
ghost use Rattle.ed_base.specs.Numbers.{places};
ghost use Rattle.ed_base.specs.Spans.{end_of};
ghost use Rattle.ed_callbacks.specs.HookLists.{hook_table};
ghost use Rattle.ed_layers.specs.Records.{is_carrier, is_elision, members_of, sources_of};
ghost use Rattle.ed_readonly.specs.LiveRegions.{limit_passed, limit_told};
ghost use Rattle.ed_stock.specs.Making.{flags_of};
ghost use Rattle.ed_track.specs.Linked.{AreLinked, len_after, len_before};
ghost use Rattle.ed_held.specs.Asking.{IsBase, regions_of, with_region, without_region, zoned};
ghost use Rattle.ed_held.specs.Making.{CanTurn, known_grown, known_turned};
ghost use Rattle.ed_held.specs.declared.moves.Move.{Move};
ghost use Rattle.ed_held.specs.Moves.{CanMake};
ghost use Rattle.ed_held.specs.Seen.{known, last_of, reiterated_of, text_of};

use crate::moves::{Move, Planned};
use ed_base::{
    BufferNo, Changes, EdgeMode, Name, NumberList, OutOfMemory, RegionNo, Span, SpanMode, VersionNo,
};
use ed_buffer::Base;
use ed_callbacks::Hooks;
use ed_elide::{Elision, Hidden};
use ed_members::Members;
use ed_project::Projection;
use ed_readonly::RegionFault;
use ed_text::DocText;
use ed_version::Snapshot;
use std::alloc::Global;

/// The numbers up to this one, from 0 on.
fn numbers_to(alloc: Global, last: u32) -> Result<NumberList, OutOfMemory>
    requires { last < 2 ^ 32 - 1 }
    ensures { IfOk result (λ numbers. numbers ≡ places (last + 1)) }
{
    let mut numbers = Vec::with_capacity(alloc, last as usize + 1)?;
    for number in 0..last + 1 {
        numbers.push(number)?;
    }
    NumberList::of(alloc, numbers)
}

/// A buffer of the stock: a base, or a projection or an elision buffer with the number of times that
/// its members or its hidden places were set.
#[derive(Drop)]
pub enum Held {
    Base(Base),
    Projection { projection: Projection, turns: u32 },
    Elision { elision: Elision, turns: u32 },
}

impl Held {
    /// The current version.
    pub fn now(&self) -> VersionNo
        ensures version { result + 1 ≡ length (known self.now).buffer.records }
        ensures texts { length (known self.now).texts ≡ length (known self.now).buffer.records }
        ensures few { length (known self.now).buffer.records < 2 ^ 32 }
        ensures steps { length (known self.now).buffer.records ≡ length (known self.now).buffer.changes + 1 }
    {
        match self {
            Held::Base(base) => base.chain().now(),
            Held::Projection { projection, .. } => projection.now(),
            Held::Elision { elision, .. } => elision.now(),
        }
    }

    /// The text of a version that is there.
    pub fn text(&self, version: VersionNo) -> &DocText
        requires { version < length (known self.now).texts }
        ensures { result.now ≡ text_of (known self.now) version }
    {
        match self {
            Held::Base(base) => base.chain().text_at(version),
            Held::Projection { projection, .. } => projection.text(version),
            Held::Elision { elision, .. } => elision.text(version),
        }
    }

    /// The snapshot of a version that is there.
    ///
    /// # Errors
    ///
    /// A further holder was refused, which counts as want of memory.
    pub fn snapshot(&self, version: VersionNo) -> Result<Snapshot, OutOfMemory>
        requires { version < length (known self.now).texts }
        ensures { IfOk result (λ s. s ≡ record { buffer = (known self.now).number; version = version; text = text_of (known self.now) version }) }
    {
        match self {
            Held::Base(base) => base.chain().snapshot(version),
            Held::Projection { projection, .. } => projection.snapshot(version),
            Held::Elision { elision, .. } => elision.snapshot(version),
        }
    }

    /// The change list that leads from a version, which isn't the current one, to the next.
    pub fn changes_from(&self, version: VersionNo) -> &Changes
        requires { version + 1 < length (known self.now).buffer.records }
        ensures { slice_get (known self.now).buffer.changes version ≡ Some result.now }
    {
        match self {
            Held::Base(base) => base.chain().changes_from(version),
            Held::Projection { projection, .. } => projection.changes_from(version),
            Held::Elision { elision, .. } => elision.changes_from(version),
        }
    }

    /// Whether it is a base.
    pub fn is_base(&self) -> bool
        ensures { result ≡ not (is_carrier (last_of (known self.now).buffer)) }
    {
        match self {
            Held::Base(_) => true,
            Held::Projection { projection, .. } => {
                // It has a version.
                let _now = projection.now();
                false
            }
            Held::Elision { elision, .. } => {
                // It has a version.
                let _now = elision.now();
                false
            }
        }
    }

    /// Whether it is a projection.
    pub fn is_projection(&self) -> bool
        ensures { result ≡ (is_carrier (last_of (known self.now).buffer) && not (is_elision (last_of (known self.now).buffer))) }
    {
        match self {
            Held::Base(_) => false,
            Held::Projection { projection, .. } => {
                // It has a version.
                let _now = projection.now();
                true
            }
            Held::Elision { elision, .. } => {
                // It has a version.
                let _now = elision.now();
                false
            }
        }
    }

    /// How many members the current version has.
    pub fn member_count(&self) -> u32
        ensures { result ≡ length (members_of (last_of (known self.now).buffer)) }
    {
        match self {
            Held::Base(_) => 0,
            Held::Projection { projection, .. } => projection.members(projection.now()).count(),
            Held::Elision { elision, .. } => elision.members(elision.now()).count(),
        }
    }

    /// The change lists that lead from one version to another that isn't older.
    pub fn steps(&self, from: VersionNo, to: VersionNo) -> &[Changes]
        requires order { from ≤ to }
        requires there { to < length (known self.now).texts }
        ensures changes { result.now ≡ slice_range (known self.now).buffer.changes from to }
        ensures linked { AreLinked result.now }
        ensures before { (p : ℕ) → p ≤ length (text_of (known self.now) from) → p ≤ len_before p result.now }
        ensures after { (p : ℕ) → p ≤ length (text_of (known self.now) to) → p ≤ len_after p result.now }
    {
        match self {
            Held::Base(base) => base.chain().changes_between(from, to),
            Held::Projection { projection, .. } => projection.steps(from, to),
            Held::Elision { elision, .. } => elision.steps(from, to),
        }
    }

    /// The number that each version repeats, from version 0 on.
    pub fn reiterated_numbers(&self, alloc: Global) -> Result<NumberList, OutOfMemory>
        requires { length (known self.now).buffer.records < 2 ^ 32 - 1 }
        ensures { IfOk result (λ numbers. numbers ≡ map (reiterated_of (known self.now).buffer) (places (length (known self.now).buffer.records))) }
    {
        match self {
            Held::Base(base) => base.chain().reiterated_numbers(alloc),
            Held::Projection { projection, .. } => numbers_to(alloc, projection.now().0),
            Held::Elision { elision, .. } => numbers_to(alloc, elision.now().0),
        }
    }

    /// The region of lowest number that denies what is done at a span of the current text, asked
    /// without editing.
    pub fn denied_in(&self, hooks: &Hooks, span: Span) -> Option<RegionNo>
        ensures { result ≡ denied_at (hook_table hooks.now) (known self.now).buffer.regions (length (known self.now).buffer.records - 1) false span }
    {
        match self {
            Held::Base(base) => base.regions().denied_in(span, base.chain().now(), hooks),
            Held::Projection { .. } => None,
            Held::Elision { .. } => None,
        }
    }

    /// Makes a read-only region inside the current text of a base, under the next number.
    pub fn add_region(
        &mut self,
        span: Span,
        mode: SpanMode,
        edge: EdgeMode,
        query: Option<Name>,
    ) -> Result<RegionNo, RegionFault>
        requires base { IsBase self.old }
        requires within { end_of span ≤ length (text_of (known self.old) (length (known self.old).texts - 1)) }
        ensures limit { limit_told result ≡ limit_passed (regions_of (known self.old).buffer) }
        ensures number { IfOk result (λ number. number ≡ (known self.old).buffer.regions_given) }
        ensures ok { OnOk result (known self.new ≡ zoned (regions_of (with_region (known self.old).buffer span mode edge query)) (known self.old)) }
        ensures err { OnErr result (known self.new ≡ known self.old) }
    {
        match self {
            Held::Base(base) => base.add_region(span, mode, edge, query),
            Held::Projection { .. } => unreachable!(),
            Held::Elision { .. } => unreachable!(),
        }
    }

    /// Removes the region of this number of a base. Whether it was live.
    pub fn remove_region(&mut self, region: RegionNo) -> bool
        requires { IsBase self.old }
        ensures live { result ≡ list_any (λ r. nat_eq r.number region) (known self.old).buffer.regions }
        ensures same { result ≡ false → known self.new ≡ known self.old }
        ensures regions { known self.new ≡ zoned (regions_of (without_region (known self.old).buffer region)) (known self.old) }
    {
        match self {
            Held::Base(base) => base.remove_region(region),
            Held::Projection { .. } => unreachable!(),
            Held::Elision { .. } => unreachable!(),
        }
    }

    /// Makes a version that was planned of the buffer as it is. It takes no memory.
    fn make(&mut self, planned: Planned)
        requires { CanMake self.old planned }
        ensures known { (m : Move) → m.planned ≡ planned → known self.new ≡ known_grown (known self.old) m }
        ensures turning { CanTurn self.old → CanTurn self.new }
    {
        match (self, planned) {
            (Held::Base(base), Planned::Base(step)) => {
                base.commit(step);
            }
            (Held::Projection { projection, .. }, Planned::Projection(step)) => {
                projection.commit(step);
            }
            (Held::Elision { elision, .. }, Planned::Elision(step)) => {
                elision.commit(step);
            }
            _ => unreachable!(),
        }
    }

    /// Makes a version that was planned of the buffer as it is. It takes no memory.
    pub fn commit(&mut self, next: Move)
        requires { CanMake self.old next.planned }
        ensures known { known self.new ≡ known_grown (known self.old) next }
        ensures turning { CanTurn self.old → CanTurn self.new }
    {
        let Move { planned, .. } = next;
        self.make(planned);
    }

    /// One turn more of a projection or an elision buffer.
    pub fn turn(&mut self)
        requires { CanTurn self.old }
        ensures { known self.new ≡ known_turned (known self.old) }
    {
        match self {
            Held::Base(_) => unreachable!(),
            Held::Projection { turns, .. } => *turns += 1,
            Held::Elision { turns, .. } => *turns += 1,
        }
    }

    /// Whether it is a projection whose members, or an elision buffer whose hidden places, can be set
    /// once more.
    pub fn can_turn(&self) -> bool
        ensures { result ≡ true → CanTurn self.now }
    {
        match self {
            Held::Base(_) => false,
            Held::Projection { turns, .. } => *turns < u32::MAX,
            Held::Elision { turns, .. } => *turns < u32::MAX,
        }
    }

    /// The versions of the sources that the current version names. A base has none.
    pub fn sources(&self) -> &[(BufferNo, VersionNo)]
        ensures { result.now ≡ sources_of (last_of (known self.now).buffer) }
    {
        match self {
            Held::Base(_) => &[],
            Held::Projection { projection, .. } => projection.sources(projection.now()).as_slice(),
            Held::Elision { elision, .. } => elision.sources(elision.now()).as_slice(),
        }
    }

    /// The hidden places of the current version of an elision buffer. Other buffers have none.
    pub fn hidden(&self) -> Option<&Hidden>
        ensures elision { is_some result ≡ is_elision (last_of (known self.now).buffer) }
        ensures hidden { IfSome result (λ m. m.now ≡ flags_of (last_of (known self.now).buffer)) }
    {
        match self {
            Held::Base(_) => None,
            Held::Projection { projection, .. } => {
                // It has a version.
                let _now = projection.now();
                None
            }
            Held::Elision { elision, .. } => Some(elision.hidden(elision.now())),
        }
    }

    /// The members of the current version of a projection or an elision buffer. A base has none.
    pub fn members(&self) -> Option<&Members>
        ensures carrier { is_some result ≡ is_carrier (last_of (known self.now).buffer) }
        ensures members { IfSome result (λ m. m.now ≡ members_of (last_of (known self.now).buffer)) }
    {
        match self {
            Held::Base(_) => None,
            Held::Projection { projection, .. } => Some(projection.members(projection.now())),
            Held::Elision { elision, .. } => Some(elision.members(elision.now())),
        }
    }

    /// The name of its resolver, if it has one.
    pub fn resolver(&self) -> Option<&Name>
        ensures { option_map (λ n. n.now) result ≡ (known self.now).buffer.resolver }
    {
        match self {
            Held::Base(_) => None,
            Held::Projection { projection, .. } => projection.resolver().as_ref(),
            Held::Elision { elision, .. } => elision.resolver().as_ref(),
        }
    }
}
