//! Base buffers.
ghost use Rattle.std.specs.Prelude.{◌≡◌, ◌-◌, ◌<◌, ◌≤◌, ◌^◌, ◌++◌, ◌∷◌, [], ℕ, length, map, IfOk, OnOk, OnErr, Some, None};
ghost use Rattle.ed_base.specs.ChangeList.{applied, new_len, step as step_of_changes};
ghost use Rattle.ed_base.specs.Denial.{regions_after};
ghost use Rattle.ed_base.specs.Spans.{end_of};
ghost use Rattle.ed_callbacks.specs.HookLists.{hook_table};
ghost use Rattle.ed_readonly.specs.LiveRegions.{with_region, without_region, is_live, limit_passed, limit_told};
ghost use Rattle.ed_version.specs.Chain.{opening, version, text_now};
ghost use Rattle.ed_layers.specs.Pieces.{marked_text, step_of_pieces};
ghost use Rattle.ed_pieces.specs.Trails.{trails_in};
ghost use Rattle.ed_buffer.specs.Planning.{put_in, AreInside, text_left, changes_left, fault_of, Answers, MayBeNamed, IsNext, IsPlanned, IsUnchanged};

use crate::fault::BaseFault;
use crate::planned::BaseStep;
use ed_base::{
    BufferNo, Changes, EdgeMode, Name, OutOfMemory, Piece, RegionNo, Span, SpanMode, Unit,
    VersionNo,
};
use ed_callbacks::Hooks;
use ed_pieces::{Landing, land};
use ed_readonly::{RegionFault, Regions};
use ed_text::{DocText, MOST_UNITS, Text};
use ed_version::{Chain, Snapshot};
use std::alloc::Global;
use std::marker::Model;

/// A base buffer: its versions, and the read-only regions that follow each of them. It is after
/// `ITextBuffer` of the editor SDK. A change is planned first, which does all that can fail, and then
/// committed, which can't.
#[derive(Drop)]
pub struct Base {
    chain: Chain,
    regions: Regions,
}

impl Model for Base {
    ghost use Rattle.std.specs.Prelude.{◌≤◌, ◌^◌, length};
    ghost use Rattle.ed_version.specs.Chain.{text_now};
    ghost use Rattle.ed_readonly.specs.LiveRegions.{EndWithin};
    ghost use Rattle.ed_buffer.specs.Planning.{Base as Buffer};

    ghost Value = { Buffer };

    ghost view = { λ b. record { chain = b.chain; regions = b.regions } };

    ghost invariant = { λ b. (length (text_now b.chain.versions) ≤ 2 ^ 22) × EndWithin (length (text_now b.chain.versions)) b.regions.regions };
}

impl Base {
    /// A buffer of one version, which has this text of at most 2^22 units, without regions.
    ///
    /// # Errors
    ///
    /// Memory was refused.
    pub fn new(alloc: Global, buffer: BufferNo, text: &[Unit]) -> Result<Base, OutOfMemory>
        requires { length text.now ≤ 2 ^ 22 }
        ensures buffer { IfOk result (λ b. b.chain.buffer ≡ buffer) }
        ensures versions { IfOk result (λ b. b.chain.versions ≡ opening text.now) }
        ensures changes { IfOk result (λ b. b.chain.changes ≡ []) }
        ensures regions { IfOk result (λ b. b.regions ≡ record { regions = []; given = 0 }) }
    {
        let text = DocText::from_units(alloc, text)?;
        Ok(Base {
            chain: Chain::new(alloc, buffer, text)?,
            regions: Regions::new(alloc),
        })
    }

    /// The versions.
    pub fn chain(&self) -> &Chain
        ensures { result.now ≡ self.now.chain }
    {
        &self.chain
    }

    /// The read-only regions.
    pub fn regions(&self) -> &Regions
        ensures { result.now ≡ self.now.regions }
    {
        &self.regions
    }

    /// The current text.
    fn text(&self) -> &DocText
        ensures { result.now ≡ text_now self.now.chain.versions }
    {
        self.chain.text_at(self.chain.now())
    }

    /// Why the changes of the current text can't be made, if they can't.
    fn fault(&self, hooks: &Hooks, changes: &Changes) -> Option<BaseFault>
        ensures { result ≡ fault_of (hook_table hooks.now) self.now changes.now }
    {
        let now = self.chain.now();
        if let Some(region) = self.regions.first_denied(changes, now, hooks) {
            return Some(BaseFault::ReadOnly { region });
        }
        if changes.new_len() > MOST_UNITS {
            let count = u64::from(changes.new_len());
            return Some(BaseFault::Units { count });
        }
        None
    }

    /// What the pieces make of the current text.
    fn landing(&self, alloc: Global, pieces: &[Piece]) -> Result<Landing, OutOfMemory>
        requires inside { AreInside (length (text_now self.now.chain.versions)) pieces.now }
        requires put_in { put_in pieces.now ≤ 2 ^ 27 }
        ensures changes { IfOk result (λ l. l.changes ≡ changes_left pieces.now (text_now self.now.chain.versions)) }
        ensures step { IfOk result (λ l. step_of_changes l.changes ≡ step_of_pieces pieces.now (length (text_now self.now.chain.versions))) }
        ensures text { IfOk result (λ l. applied l.changes (text_now self.now.chain.versions) ≡ text_left pieces.now (text_now self.now.chain.versions)) }
        ensures trails { IfOk result (λ l. trails_in l.trails (length (text_left pieces.now (text_now self.now.chain.versions))) ≡ map (λ u. u.1) (marked_text pieces.now (text_now self.now.chain.versions))) }
    {
        let landing = land(alloc, self.text().len(), pieces)?;
        Ok(landing)
    }

    /// The next version, to which changes of the current text lead.
    fn next(
        &self,
        alloc: Global,
        landing: Landing,
        reiterated: Option<VersionNo>,
    ) -> Result<BaseStep, OutOfMemory>
        requires number { length self.now.chain.versions < 2 ^ 32 - 1 }
        requires from { landing.changes.old_len ≡ length (text_now self.now.chain.versions) }
        requires fits { new_len landing.changes ≤ 2 ^ 22 }
        requires named { MayBeNamed self.now (applied landing.changes (text_now self.now.chain.versions)) reiterated }
        ensures changes { IfOk result (λ s. s.changes ≡ landing.changes) }
        ensures trails { IfOk result (λ s. s.trails ≡ landing.trails) }
        ensures next { IfOk result (λ s. IsNext self.now s) }
        ensures own { reiterated ≡ None → IfOk result (λ s. s.reiterated ≡ length self.now.chain.versions) }
        ensures other { (r : ℕ) → reiterated ≡ Some r → IfOk result (λ s. s.reiterated ≡ r) }
    {
        let Landing { changes, trails } = landing;
        let now = self.chain.now();
        let version = VersionNo(now.0 + 1);
        let snapshot = Snapshot {
            buffer: self.chain.buffer(),
            version,
            text: self.text().replace(alloc, &changes)?,
        };
        Ok(BaseStep {
            changes,
            trails,
            snapshot,
            reiterated: reiterated.unwrap_or(version),
        })
    }

    /// Plans the step that the pieces make of the current text: it does all that can fail, and changes
    /// nothing but the room for versions. The pieces lie inside the text, and together put in at most
    /// 2^27 units; they may have come through carriers, and the step keeps the way of each unit. A
    /// reiterated number names a version that has the text that the pieces leave and repeats itself;
    /// without one the new version repeats itself.
    ///
    /// # Errors
    ///
    /// A region denies a change, or else the text would have more than 2^22 units, or memory was
    /// refused.
    pub fn plan(
        &mut self,
        alloc: Global,
        hooks: &Hooks,
        pieces: &[Piece],
        reiterated: Option<VersionNo>,
    ) -> Result<BaseStep, BaseFault>
        requires inside { AreInside (length (text_now self.old.chain.versions)) pieces.now }
        requires put_in { put_in pieces.now ≤ 2 ^ 27 }
        requires number { length self.old.chain.versions < 2 ^ 32 - 1 }
        requires named { MayBeNamed self.old (text_left pieces.now (text_now self.old.chain.versions)) reiterated }
        ensures same { IsUnchanged self.old self.new }
        ensures fault { Answers (fault_of (hook_table hooks.now) self.old (changes_left pieces.now (text_now self.old.chain.versions))) result }
        ensures changes { IfOk result (λ s. s.changes ≡ changes_left pieces.now (text_now self.old.chain.versions)) }
        ensures text { IfOk result (λ s. s.snapshot.text ≡ text_left pieces.now (text_now self.old.chain.versions)) }
        ensures own_number { reiterated ≡ None → IfOk result (λ s. s.reiterated ≡ length self.old.chain.versions) }
        ensures other_number { (r : ℕ) → reiterated ≡ Some r → IfOk result (λ s. s.reiterated ≡ r) }
        ensures planned { IfOk result (λ s. IsPlanned self.new s) }
        ensures step { IfOk result (λ s. step_of_changes s.changes ≡ step_of_pieces pieces.now (length (text_now self.old.chain.versions))) }
        ensures trails { IfOk result (λ s. trails_in s.trails (length (text_left pieces.now (text_now self.old.chain.versions))) ≡ map (λ u. u.1) (marked_text pieces.now (text_now self.old.chain.versions))) }
    {
        let landing = self.landing(alloc, pieces)?;
        if let Some(fault) = self.fault(hooks, &landing.changes) {
            return Err(fault);
        }
        let step = self.next(alloc, landing, reiterated)?;
        self.chain.reserve()?;
        Ok(step)
    }

    /// Makes a step that was planned on this state, and gives the number of the new version. The
    /// regions follow. It takes no memory.
    pub fn commit(&mut self, step: BaseStep) -> VersionNo
        requires { IsPlanned self.old step }
        ensures version { result ≡ length self.old.chain.versions }
        ensures buffer { self.new.chain.buffer ≡ self.old.chain.buffer }
        ensures versions { self.new.chain.versions ≡ self.old.chain.versions ++ version step.snapshot.text step.reiterated ∷ [] }
        ensures changes { self.new.chain.changes ≡ self.old.chain.changes ++ step.changes ∷ [] }
        ensures regions { self.new.regions.regions ≡ regions_after (step_of_changes step.changes) self.old.regions.regions }
        ensures given { self.new.regions.given ≡ self.old.regions.given }
    {
        let BaseStep {
            changes,
            snapshot,
            reiterated,
            ..
        } = step;
        self.regions.advance(&changes);
        self.chain.push(snapshot.text, changes, reiterated);
        snapshot.version
    }

    /// Makes a read-only region of the current text, under the next number.
    ///
    /// # Errors
    ///
    /// 1,024 regions are live, or else 2^20 numbers were given: `Limit` has one more than that. Memory
    /// was refused. The buffer is as before then.
    pub fn add_region(
        &mut self,
        span: Span,
        mode: SpanMode,
        edge: EdgeMode,
        query: Option<Name>,
    ) -> Result<RegionNo, RegionFault>
        requires { end_of span ≤ length (text_now self.old.chain.versions) }
        ensures limit { limit_told result ≡ limit_passed self.old.regions }
        ensures number { IfOk result (λ number. number ≡ self.old.regions.given) }
        ensures ok { OnOk result (self.new.regions ≡ with_region self.old.regions span mode edge query) }
        ensures err { OnErr result (self.new.regions ≡ self.old.regions) }
        ensures chain { self.new.chain ≡ self.old.chain }
    {
        self.regions.add(span, mode, edge, query)
    }

    /// Removes the region of this number. Whether it was live.
    pub fn remove_region(&mut self, region: RegionNo) -> bool
        ensures live { result ≡ is_live self.old.regions region }
        ensures regions { self.new.regions ≡ without_region self.old.regions region }
        ensures chain { self.new.chain ≡ self.old.chain }
    {
        self.regions.remove(region)
    }
}
