//! Elision buffers as values.
ghost use Rattle.std.specs.Prelude.{◌≡◌, ◌↔◌, ℕ, ◌+◌, ◌-◌, ◌<◌, ◌≤◌, ◌^◌, ◌++◌, ◌∷◌, [], length, slice_get, slice_range, IsTrue, IfOk, Option, Some, None};
ghost use Rattle.ed_base.specs.ChangeList.{new_len, step as changed};
ghost use Rattle.ed_layers.specs.Hidden.{flags_after};
ghost use Rattle.ed_layers.specs.Records.{elision, members_len, members_of};
ghost use Rattle.ed_layers.specs.Texts.{text_over};
ghost use Rattle.ed_layers.specs.SourceStep as layers;
ghost use Rattle.ed_members.specs.Steps.{step_seen};
ghost use Rattle.ed_track.specs.Linked.{AreLinked, len_before, len_after};
ghost use Rattle.ed_elide.specs.Records.{IsPlanned, IsShown, IsStep, IsUnchanged, now, shown, shown_now, shown_of, version_at};
ghost use Rattle.ed_elide.specs.Steps.{Steps as StepsBy};

use crate::hidden::Hidden;
use crate::next::NextRecord;
use crate::version::{ElisionVersion, shown_of};
use ed_base::{BufferNo, Changes, Name, OutOfMemory, Steps, VersionList, VersionNo};
use ed_members::{Members, SourceStep};
use ed_text::{DocText, Text};
use ed_version::{Snapshot, Versions};
use std::alloc::Global;
use std::marker::Model;
use std::sync::ledger::Ledger;

/// An elision buffer: its versions by number, and the change list of each to the next, after
/// `IElisionBuffer` of the editor SDK. It shows its source but for the hidden places. A version is
/// planned first, which does all that can fail, and then committed, which can't.
#[derive(Drop)]
pub struct Elision {
    source: BufferNo,
    kept: Versions<ElisionVersion>,
    resolver: Option<Name>,
}

impl Model for Elision {
    ghost use Rattle.std.specs.Prelude.{All};
    ghost use Rattle.ed_elide.specs.Records.{Elision as Kept, IsShown};

    ghost Value = { Kept };

    ghost view = { λ e. record {
      buffer = e.kept.buffer;
      source = e.source;
      versions = e.kept.versions;
      changes = e.kept.changes;
      resolver = e.resolver;
      spare = e.kept.spare;
    } };

    ghost invariant = { λ e. All (IsShown e.source) e.kept.versions };
}

impl Elision {
    /// An elision buffer of one version, which hides these places of the snapshot of its source.
    ///
    /// # Errors
    ///
    /// Memory was refused.
    pub fn new(
        alloc: Global,
        me: BufferNo,
        hidden: Hidden,
        source: &Snapshot,
        resolver: Option<Name>,
    ) -> Result<Elision, OutOfMemory>
        requires { length source.now.text ≡ length hidden }
        ensures buffer { IfOk result (λ e. e.buffer ≡ me) }
        ensures source { IfOk result (λ e. e.source ≡ source.now.buffer) }
        ensures versions { IfOk result (λ e. e.versions ≡ shown_of hidden source.now.buffer source.now.version source.now.text ∷ []) }
        ensures changes { IfOk result (λ e. e.changes ≡ []) }
        ensures resolver { IfOk result (λ e. e.resolver ≡ resolver) }
    {
        let shown = shown_of(alloc, hidden, source)?;
        Ok(Elision {
            source: source.buffer,
            kept: Versions::new(alloc, me, shown)?,
            resolver,
        })
    }

    /// Plans the version that follows this step of the source, with a snapshot of the source at its
    /// current version. It does all that can fail, and changes nothing but the room for versions. The
    /// counter is left as it is.
    ///
    /// # Errors
    ///
    /// Memory was refused.
    pub fn advance<L: Ledger>(
        &mut self,
        alloc: Global,
        source: &Snapshot,
        step: &SourceStep,
        count: &mut Steps<L>,
    ) -> Result<NextRecord, OutOfMemory>
        requires source { source.now.buffer ≡ self.old.source }
        requires steps { step.now.source ≡ self.old.source }
        requires old { step.now.changes.old_len ≡ length (shown_now self.old).hidden }
        requires new { (changed step.now.changes).new_len ≡ length source.now.text }
        requires number { length self.old.versions < 2 ^ 32 - 1 }
        ensures same { IsUnchanged self.old self.new }
        ensures counted { count.new ≡ count.old }
        ensures hidden { IfOk result (λ n. n.hidden ≡ flags_after self.old.buffer (step_seen step.now) (shown_now self.old).hidden) }
        ensures version { IfOk result (λ n. n.version ≡ source.now.version) }
        ensures members { IfOk result (λ n. n.members ≡ members_of (elision n.hidden self.old.source n.version)) }
        ensures sources { IfOk result (λ n. n.sources ≡ (self.old.source, source.now.version) ∷ []) }
        ensures text { IfOk result (λ n. n.snapshot.text ≡ text_over (λ b. source.now.text) n.members) }
        ensures step { IfOk result (λ n. (steps : ℕ → Option layers.SourceStep) → steps self.old.source ≡ Some (step_seen step.now) → IsStep steps self.old n) }
        ensures planned { IfOk result (λ n. IsPlanned self.new n) }
    {
        let hidden = self.newest().hidden.advance(alloc, self.buffer(), step)?;
        let next = self.planned(alloc, hidden, source, &step.changes)?;
        Ok(next)
    }

    /// Plans the version that hides these places, over a snapshot of the source at the version that
    /// the current version names. It does all that can fail, and changes nothing but the room for
    /// versions.
    ///
    /// # Errors
    ///
    /// Memory was refused.
    pub fn set_hidden(
        &mut self,
        alloc: Global,
        hidden: Hidden,
        source: &Snapshot,
    ) -> Result<NextRecord, OutOfMemory>
        requires source { source.now.buffer ≡ self.old.source }
        requires old { length hidden ≡ length (shown_now self.old).hidden }
        requires new { length hidden ≡ length source.now.text }
        requires number { length self.old.versions < 2 ^ 32 - 1 }
        ensures same { IsUnchanged self.old self.new }
        ensures hidden { IfOk result (λ n. n.hidden ≡ hidden) }
        ensures version { IfOk result (λ n. n.version ≡ source.now.version) }
        ensures members { IfOk result (λ n. n.members ≡ members_of (elision hidden self.old.source n.version)) }
        ensures sources { IfOk result (λ n. n.sources ≡ (self.old.source, source.now.version) ∷ []) }
        ensures text { IfOk result (λ n. n.snapshot.text ≡ text_over (λ b. source.now.text) n.members) }
        ensures step { IfOk result (λ n. (steps : ℕ → Option layers.SourceStep) → steps self.old.source ≡ None → IsStep steps self.old n) }
        ensures planned { IfOk result (λ n. IsPlanned self.new n) }
    {
        let none = Changes::none(hidden.len());
        let next = self.planned(alloc, hidden, source, &none)?;
        Ok(next)
    }

    /// What the current version shows.
    fn newest(&self) -> &ElisionVersion
        ensures shown { result.now ≡ shown_now self.now }
        ensures whole { IsShown self.now.source result.now }
    {
        self.kept.get(self.kept.now())
    }

    /// Makes room for the version that comes next, and puts together what a commit will add.
    fn planned(
        &mut self,
        alloc: Global,
        hidden: Hidden,
        source: &Snapshot,
        source_step: &Changes,
    ) -> Result<NextRecord, OutOfMemory>
        requires source { source.now.buffer ≡ self.old.source }
        requires old { source_step.now.old_len ≡ length (shown_now self.old).hidden }
        requires new { new_len source_step.now ≡ length hidden }
        requires long { length source.now.text ≡ length hidden }
        requires number { length self.old.versions < 2 ^ 32 - 1 }
        ensures same { IsUnchanged self.old self.new }
        ensures hidden { IfOk result (λ n. n.hidden ≡ hidden) }
        ensures version { IfOk result (λ n. n.version ≡ source.now.version) }
        ensures text { IfOk result (λ n. n.snapshot.text ≡ text_over (λ b. source.now.text) n.members) }
        ensures step { IfOk result (λ n. (steps : ℕ → Option layers.SourceStep) → StepsBy steps self.old.source source_step.now → IsStep steps self.old n) }
        ensures planned { IfOk result (λ n. IsPlanned self.new n) }
    {
        let shown = shown_of(alloc, hidden, source)?;
        let old = self.newest();
        let changes = old
            .hidden
            .changes_to(alloc, &shown.hidden, source_step, &shown.text)?;
        self.kept.reserve()?;
        let ElisionVersion {
            hidden,
            version,
            members,
            sources,
            text,
        } = shown;
        let snapshot = Snapshot {
            buffer: self.kept.buffer(),
            version: VersionNo(self.kept.now().0 + 1),
            text,
        };
        Ok(NextRecord {
            source: self.source,
            hidden,
            version,
            members,
            sources,
            changes,
            snapshot,
        })
    }

    /// Makes a version that was planned on this state, and gives its number. It takes no memory.
    pub fn commit(&mut self, next: NextRecord) -> VersionNo
        requires { IsPlanned self.old next }
        ensures version { result ≡ length self.old.versions }
        ensures buffer { self.new.buffer ≡ self.old.buffer }
        ensures source { self.new.source ≡ self.old.source }
        ensures versions { self.new.versions ≡ self.old.versions ++ shown next.hidden next.version next.members next.sources next.snapshot.text ∷ [] }
        ensures changes { self.new.changes ≡ self.old.changes ++ next.changes ∷ [] }
        ensures resolver { self.new.resolver ≡ self.old.resolver }
    {
        let NextRecord {
            hidden,
            version,
            members,
            sources,
            changes,
            snapshot,
            ..
        } = next;
        let shown = ElisionVersion {
            hidden,
            version,
            members,
            sources,
            text: snapshot.text,
        };
        self.kept.push(shown, changes);
        snapshot.version
    }

    /// The current version.
    pub fn now(&self) -> VersionNo
        ensures version { result ≡ now self.now.versions }
        ensures some { 0 < length self.now.versions }
        ensures few { length self.now.versions < 2 ^ 32 }
        ensures steps { length self.now.versions ≡ length self.now.changes + 1 }
    {
        self.kept.now()
    }

    /// The buffer that the elision buffer is.
    pub fn buffer(&self) -> BufferNo
        ensures { result ≡ self.now.buffer }
    {
        self.kept.buffer()
    }

    /// The buffer that it shows.
    pub fn source(&self) -> BufferNo
        ensures { result ≡ self.now.source }
    {
        self.source
    }

    /// Whether no further version can have a number.
    pub fn is_full(&self) -> bool
        ensures full { IsTrue result ↔ (2 ^ 32 - 1 ≤ length self.now.versions) }
    {
        self.kept.is_full()
    }

    /// The hidden places of a version that is there.
    pub fn hidden(&self, version: VersionNo) -> &Hidden
        requires { version < length self.now.versions }
        ensures { result.now ≡ (version_at self.now.versions version).hidden }
    {
        &self.kept.get(version).hidden
    }

    /// The members of a version that is there: one for each maximal run of shown places.
    pub fn members(&self, version: VersionNo) -> &Members
        requires { version < length self.now.versions }
        ensures members { result.now ≡ (version_at self.now.versions version).members }
        ensures shown { IsShown self.now.source (version_at self.now.versions version) }
    {
        &self.kept.get(version).members
    }

    /// The version of the source that a version names, alone in a list.
    pub fn sources(&self, version: VersionNo) -> &VersionList
        requires { version < length self.now.versions }
        ensures sources { result.now ≡ (version_at self.now.versions version).sources }
        ensures shown { IsShown self.now.source (version_at self.now.versions version) }
    {
        &self.kept.get(version).sources
    }

    /// The text of a version that is there.
    pub fn text(&self, version: VersionNo) -> &DocText
        requires { version < length self.now.versions }
        ensures text { result.now ≡ (version_at self.now.versions version).text }
        ensures len { length result.now ≡ members_len (version_at self.now.versions version).members }
    {
        &self.kept.get(version).text
    }

    /// The snapshot of a version that is there.
    ///
    /// # Errors
    ///
    /// A further holder was refused, which counts as want of memory.
    pub fn snapshot(&self, version: VersionNo) -> Result<Snapshot, OutOfMemory>
        requires { version < length self.now.versions }
        ensures { IfOk result (λ s. s ≡ record { buffer = self.now.buffer; version = version; text = (version_at self.now.versions version).text }) }
    {
        self.kept.snapshot(version)
    }

    /// The change lists that lead from one version to another that isn't older.
    pub fn steps(&self, from: VersionNo, to: VersionNo) -> &[Changes]
        requires order { from ≤ to }
        requires there { to < length self.now.versions }
        ensures changes { result.now ≡ slice_range self.now.changes from to }
        ensures linked { AreLinked result.now }
        ensures before { (p : ℕ) → p ≤ length (version_at self.now.versions from).text → p ≤ len_before p result.now }
        ensures after { (p : ℕ) → p ≤ length (version_at self.now.versions to).text → p ≤ len_after p result.now }
    {
        self.kept.changes_between(from, to)
    }

    /// The change list that leads from a version, which isn't the current one, to the next.
    pub fn changes_from(&self, version: VersionNo) -> &Changes
        requires { version + 1 < length self.now.versions }
        ensures { slice_get self.now.changes version ≡ Some result.now }
    {
        self.kept.changes_from(version)
    }

    /// The name of the hook that divides what is put in among several members, if there is one.
    pub fn resolver(&self) -> &Option<Name>
        ensures { result.now ≡ self.now.resolver }
    {
        &self.resolver
    }
}
