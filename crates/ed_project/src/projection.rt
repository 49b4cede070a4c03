//! Projection buffers as values.
ghost use Rattle.std.specs.Prelude.{◌≡◌, ◌↔◌, ℕ, ◌+◌, ◌-◌, ◌<◌, ◌≤◌, ◌^◌, ◌++◌, ◌∷◌, [], length, slice_get, slice_range, IsTrue, All, IfOk, OnOk, Some};
ghost use Rattle.ed_base.specs.ChangeList.{new_len};
ghost use Rattle.ed_layers.specs.Bounds.{members_after};
ghost use Rattle.ed_layers.specs.CarrierStep.{all_stay, stay_around};
ghost use Rattle.ed_layers.specs.Records.{members_len};
ghost use Rattle.ed_members.specs.Faults.{replaced};
ghost use Rattle.ed_members.specs.Moving.{EndsInOld, OwnInside, OwnInOrder};
ghost use Rattle.ed_members.specs.Steps.{steps_seen};
ghost use Rattle.ed_track.specs.Linked.{AreLinked, len_before, len_after};
ghost use Rattle.ed_project.specs.Planning.{Answers, EndsWithin, IsPlanned, IsStep, added_in, too_long};
ghost use Rattle.ed_project.specs.Records.{IsShown, IsUnchanged, now, shown, shown_now, version_at};
ghost use Rattle.ed_project.specs.Texts.{HasSource, no_steps, text_in, text_over, versions_of};

use crate::fault::ProjectionFault;
use crate::next::NextRecord;
use crate::shown::{Shown, advanced, respanned};
use crate::texts::{Staying, text_of, versions_of};
use ed_base::{BufferNo, Changes, Name, OutOfMemory, Steps, VersionList, VersionNo};
use ed_members::{Members, SourceStep};
use ed_text::{DocText, Text};
use ed_version::{Snapshot, Versions};
use std::alloc::Global;
use std::marker::Model;
use std::sync::ledger::Ledger;

/// A projection buffer: its versions by number, and the change list of each to the next, after
/// `IProjectionBuffer` of the editor SDK. A version is planned first, which does all that can fail,
/// and then committed, which can't.
#[derive(Drop)]
pub struct Projection {
    kept: Versions<Shown>,
    resolver: Option<Name>,
}

impl Model for Projection {
    ghost use Rattle.std.specs.Prelude.{All};
    ghost use Rattle.ed_project.specs.Records.{Projection as Kept, IsShown};

    ghost Value = { Kept };

    ghost view = { λ p. record {
      buffer = p.kept.buffer;
      versions = p.kept.versions;
      changes = p.kept.changes;
      resolver = p.resolver;
      spare = p.kept.spare;
    } };

    ghost invariant = { λ p. All IsShown p.kept.versions };
}

impl Projection {
    /// A projection of one version, which shows these members over these snapshots of their sources,
    /// one a source. Its text has at most 2^22 units.
    ///
    /// # Errors
    ///
    /// Memory was refused.
    pub fn new(
        alloc: Global,
        me: BufferNo,
        members: Members,
        sources: &[Snapshot],
        resolver: Option<Name>,
    ) -> Result<Projection, OutOfMemory>
        requires there { All (HasSource no_steps sources.now) members }
        requires fits { members_len members ≤ 2 ^ 22 }
        ensures buffer { IfOk result (λ p. p.buffer ≡ me) }
        ensures versions { IfOk result (λ p. p.versions ≡ shown members (versions_of sources.now) (text_over (text_in sources.now) members) ∷ []) }
        ensures changes { IfOk result (λ p. p.changes ≡ []) }
        ensures resolver { IfOk result (λ p. p.resolver ≡ resolver) }
    {
        let text = text_of(alloc, &members, sources, None, Staying::all())?;
        let sources = versions_of(alloc, sources)?;
        let shown = Shown {
            members,
            sources,
            text,
        };
        Ok(Projection {
            kept: Versions::new(alloc, me, shown)?,
            resolver,
        })
    }

    /// Plans the version that follows these steps of the sources, one step a source, with a snapshot
    /// of each source at its current version. It does all that can fail, and changes nothing but the
    /// room for versions. The counter is left as it is.
    ///
    /// # Errors
    ///
    /// The text would have more than 2^22 units, or memory was refused.
    pub fn advance<L: Ledger>(
        &mut self,
        alloc: Global,
        sources: &[Snapshot],
        steps: &[SourceStep],
        count: &mut Steps<L>,
    ) -> Result<NextRecord, ProjectionFault>
        requires within { All (EndsInOld (steps_seen steps.now)) (shown_now self.old).members }
        requires inside { OwnInside self.old.buffer (steps_seen steps.now) (shown_now self.old).members }
        requires order { OwnInOrder self.old.buffer (steps_seen steps.now) (shown_now self.old).members }
        requires there { All (HasSource (steps_seen steps.now) sources.now) (shown_now self.old).members }
        requires number { length self.old.versions < 2 ^ 32 - 1 }
        ensures same { IsUnchanged self.old self.new }
        ensures counted { count.new ≡ count.old }
        ensures fault { Answers (too_long (members_len (members_after self.old.buffer (steps_seen steps.now) (shown_now self.old).members))) result }
        ensures members { IfOk result (λ n. n.members ≡ members_after self.old.buffer (steps_seen steps.now) (shown_now self.old).members) }
        ensures sources { IfOk result (λ n. n.sources ≡ versions_of sources.now) }
        ensures text { IfOk result (λ n. n.snapshot.text ≡ text_over (text_in sources.now) n.members) }
        ensures step { IfOk result (λ n. IsStep all_stay (steps_seen steps.now) self.old n) }
        ensures within { EndsWithin (steps_seen steps.now) (members_after self.old.buffer (steps_seen steps.now) (shown_now self.old).members) result }
        ensures planned { IfOk result (λ n. IsPlanned self.new n) }
    {
        let (shown, changes) = advanced(alloc, self.newest(), self.buffer(), sources, steps)?;
        let next = self.planned(shown, changes)?;
        Ok(next)
    }

    /// Plans the version that shows these members, which are the current ones but for `removed` of
    /// them from `first` on, over these snapshots of their sources, one a source. The sources of the
    /// members that stay stand at the versions that the current version names. The text has at most
    /// 2^22 units. It does all that can fail, and changes nothing but the room for versions.
    ///
    /// # Errors
    ///
    /// Memory was refused.
    pub fn set_spans(
        &mut self,
        alloc: Global,
        members: Members,
        first: u32,
        removed: u32,
        sources: &[Snapshot],
    ) -> Result<NextRecord, OutOfMemory>
        requires part { first + removed ≤ length (shown_now self.old).members }
        requires others { members ≡ replaced (shown_now self.old).members first removed (added_in first removed (shown_now self.old).members members) }
        requires there { All (HasSource no_steps sources.now) members }
        requires fits { members_len members ≤ 2 ^ 22 }
        requires number { length self.old.versions < 2 ^ 32 - 1 }
        ensures same { IsUnchanged self.old self.new }
        ensures members { IfOk result (λ n. n.members ≡ members) }
        ensures sources { IfOk result (λ n. n.sources ≡ versions_of sources.now) }
        ensures text { IfOk result (λ n. n.snapshot.text ≡ text_over (text_in sources.now) n.members) }
        ensures step { IfOk result (λ n. IsStep (stay_around first removed (length (added_in first removed (shown_now self.old).members members))) no_steps self.old n) }
        ensures planned { IfOk result (λ n. IsPlanned self.new n) }
    {
        let (shown, changes) = respanned(alloc, self.newest(), members, first, removed, sources)?;
        self.planned(shown, changes)
    }

    /// What the current version shows.
    fn newest(&self) -> &Shown
        ensures shown { result.now ≡ shown_now self.now }
        ensures whole { IsShown result.now }
    {
        self.kept.get(self.kept.now())
    }

    /// Makes room for the version that comes next, and puts together what a commit will add.
    ///
    /// # Errors
    ///
    /// Memory was refused.
    fn planned(&mut self, shown: Shown, changes: Changes) -> Result<NextRecord, OutOfMemory>
        requires number { length self.old.versions < 2 ^ 32 - 1 }
        requires from { changes.old_len ≡ length (shown_now self.old).text }
        requires to { new_len changes ≡ length shown.text }
        requires whole { IsShown shown }
        ensures same { IsUnchanged self.old self.new }
        ensures members { IfOk result (λ n. n.members ≡ shown.members) }
        ensures sources { IfOk result (λ n. n.sources ≡ shown.sources) }
        ensures text { IfOk result (λ n. n.snapshot.text ≡ shown.text) }
        ensures changes { IfOk result (λ n. n.changes ≡ changes) }
        ensures planned { IfOk result (λ n. IsPlanned self.new n) }
    {
        self.kept.reserve()?;
        let Shown {
            members,
            sources,
            text,
        } = shown;
        let snapshot = Snapshot {
            buffer: self.kept.buffer(),
            version: VersionNo(self.kept.now().0 + 1),
            text,
        };
        Ok(NextRecord {
            members,
            sources,
            changes,
            snapshot,
        })
    }

    /// Makes a version that was planned on this state, and gives its number. It takes no memory.
    pub fn commit(&mut self, next: NextRecord) -> VersionNo
        requires { IsPlanned self.old next }
        ensures version { result ≡ length self.old.versions }
        ensures buffer { self.new.buffer ≡ self.old.buffer }
        ensures versions { self.new.versions ≡ self.old.versions ++ shown next.members next.sources next.snapshot.text ∷ [] }
        ensures changes { self.new.changes ≡ self.old.changes ++ next.changes ∷ [] }
        ensures resolver { self.new.resolver ≡ self.old.resolver }
    {
        let NextRecord {
            members,
            sources,
            changes,
            snapshot,
        } = next;
        let shown = Shown {
            members,
            sources,
            text: snapshot.text,
        };
        self.kept.push(shown, changes);
        snapshot.version
    }

    /// The current version.
    pub fn now(&self) -> VersionNo
        ensures version { result ≡ now self.now.versions }
        ensures some { 0 < length self.now.versions }
        ensures few { length self.now.versions < 2 ^ 32 }
        ensures steps { length self.now.versions ≡ length self.now.changes + 1 }
    {
        self.kept.now()
    }

    /// The buffer that the projection is.
    pub fn buffer(&self) -> BufferNo
        ensures { result ≡ self.now.buffer }
    {
        self.kept.buffer()
    }

    /// Whether no further version can have a number.
    pub fn is_full(&self) -> bool
        ensures full { IsTrue result ↔ (2 ^ 32 - 1 ≤ length self.now.versions) }
    {
        self.kept.is_full()
    }

    /// The members of a version that is there.
    pub fn members(&self, version: VersionNo) -> &Members
        requires { version < length self.now.versions }
        ensures { result.now ≡ (version_at self.now.versions version).members }
    {
        &self.kept.get(version).members
    }

    /// The version of each source that a version names.
    pub fn sources(&self, version: VersionNo) -> &VersionList
        requires { version < length self.now.versions }
        ensures { result.now ≡ (version_at self.now.versions version).sources }
    {
        &self.kept.get(version).sources
    }

    /// The text of a version that is there.
    pub fn text(&self, version: VersionNo) -> &DocText
        requires { version < length self.now.versions }
        ensures text { result.now ≡ (version_at self.now.versions version).text }
        ensures len { length result.now ≡ members_len (version_at self.now.versions version).members }
    {
        &self.kept.get(version).text
    }

    /// The snapshot of a version that is there.
    ///
    /// # Errors
    ///
    /// A further holder was refused, which counts as want of memory.
    pub fn snapshot(&self, version: VersionNo) -> Result<Snapshot, OutOfMemory>
        requires { version < length self.now.versions }
        ensures { IfOk result (λ s. s ≡ record { buffer = self.now.buffer; version = version; text = (version_at self.now.versions version).text }) }
    {
        self.kept.snapshot(version)
    }

    /// The change lists that lead from one version to another that isn't older.
    pub fn steps(&self, from: VersionNo, to: VersionNo) -> &[Changes]
        requires order { from ≤ to }
        requires there { to < length self.now.versions }
        ensures changes { result.now ≡ slice_range self.now.changes from to }
        ensures linked { AreLinked result.now }
        ensures before { (p : ℕ) → p ≤ length (version_at self.now.versions from).text → p ≤ len_before p result.now }
        ensures after { (p : ℕ) → p ≤ length (version_at self.now.versions to).text → p ≤ len_after p result.now }
    {
        self.kept.changes_between(from, to)
    }

    /// The change list that leads from a version, which isn't the current one, to the next.
    pub fn changes_from(&self, version: VersionNo) -> &Changes
        requires { version + 1 < length self.now.versions }
        ensures { slice_get self.now.changes version ≡ Some result.now }
    {
        self.kept.changes_from(version)
    }

    /// The name of the hook that divides what is put in among several members, if there is one.
    pub fn resolver(&self) -> &Option<Name>
        ensures { result.now ≡ self.now.resolver }
    {
        &self.resolver
    }
}
