//! The versions of a buffer, by number.
ghost use Rattle.std.specs.Prelude.{◌≡◌, ◌↔◌, ◌+◌, ◌-◌, ◌<◌, ◌≤◌, ◌^◌, ◌++◌, ◌∷◌, [], ℕ, length, map, slice_get, slice_range, IsTrue, Some, IfOk, OnOk};
ghost use Rattle.ed_base.specs.ChangeList.{applied};
ghost use Rattle.ed_track.specs.Linked.{AreLinked, len_before, len_after};
ghost use Rattle.ed_version.specs.Chain.{opening, version, text_at, reiterated_at, now, text_now, IsOriginal, MayRepeat, snapshot_of, IsSame};

use crate::snapshot::Snapshot;
use crate::versions::{HasText, Versions};
use ed_base::{BufferNo, Changes, NumberList, OutOfMemory, VersionNo};
use ed_text::DocText;
use std::alloc::Global;
use std::marker::Model;

/// A version of a buffer: its text, and the number of the version that it repeats, which is its own
/// but where undo or redo brought an earlier text back (`ITextVersion.ReiteratedVersionNumber` of the
/// editor SDK).
#[derive(Drop)]
pub struct Version {
    pub text: DocText,
    pub reiterated: VersionNo,
}

impl HasText for Version {
    ghost units = { λ v. v.text };

    fn text(&self) -> &DocText
        ensures { result.now ≡ self.now.text }
    {
        &self.text
    }
}

/// The versions of one buffer, numbered from 0, after `ITextVersion` of the editor SDK. A chain only
/// grows at its end: what is there never changes. Its texts and change lists are shared with those
/// who asked for them.
#[derive(Drop)]
pub struct Chain {
    kept: Versions<Version>,
}

impl Model for Chain {
    ghost use Rattle.ed_version.specs.Chain.{Chain as Kept, texts, AreRepeating};
    ghost use Rattle.ed_version.specs.Follows.{Follows};

    ghost Value = { Kept };

    ghost view = { λ c. record {
      buffer = c.kept.buffer;
      versions = c.kept.versions;
      changes = c.kept.changes;
      spare = c.kept.spare;
    } };

    ghost invariant = { λ c. Follows (texts c.kept.versions) c.kept.changes × AreRepeating c.kept.versions };
}

impl Chain {
    /// A chain of one version, which has this text.
    ///
    /// # Errors
    ///
    /// Memory was refused.
    pub fn new(alloc: Global, buffer: BufferNo, text: DocText) -> Result<Chain, OutOfMemory>
        ensures buffer { IfOk result (λ c. c.buffer ≡ buffer) }
        ensures versions { IfOk result (λ c. c.versions ≡ opening text) }
        ensures changes { IfOk result (λ c. c.changes ≡ []) }
    {
        let first = Version {
            text,
            reiterated: VersionNo(0),
        };
        Ok(Chain {
            kept: Versions::new(alloc, buffer, first)?,
        })
    }

    /// The current version.
    pub fn now(&self) -> VersionNo
        ensures version { result ≡ now self.now.versions }
        ensures some { 0 < length self.now.versions }
        ensures few { length self.now.versions < 2 ^ 32 }
        ensures steps { length self.now.versions ≡ length self.now.changes + 1 }
    {
        self.kept.now()
    }

    /// The buffer whose versions these are.
    pub fn buffer(&self) -> BufferNo
        ensures { result ≡ self.now.buffer }
    {
        self.kept.buffer()
    }

    /// Whether no further version can have a number.
    pub fn is_full(&self) -> bool
        ensures full { IsTrue result ↔ (2 ^ 32 - 1 ≤ length self.now.versions) }
    {
        self.kept.is_full()
    }

    /// Makes room for one more version.
    ///
    /// # Errors
    ///
    /// Memory was refused.
    pub fn reserve(&mut self) -> Result<(), OutOfMemory>
        ensures same { IsSame self.old self.new }
        ensures room { OnOk result (0 < self.new.spare) }
    {
        self.kept.reserve()
    }

    /// One more version, to which these changes of the current text lead. It takes no memory.
    pub fn push(&mut self, text: DocText, changes: Changes, reiterated: VersionNo)
        requires room { 0 < self.old.spare }
        requires number { length self.old.versions < 2 ^ 32 - 1 }
        requires from { changes.old_len ≡ length (text_now self.old.versions) }
        requires to { text ≡ applied changes (text_now self.old.versions) }
        requires repeats { MayRepeat self.old.versions text reiterated }
        ensures buffer { self.new.buffer ≡ self.old.buffer }
        ensures versions { self.new.versions ≡ self.old.versions ++ version text reiterated ∷ [] }
        ensures changes { self.new.changes ≡ self.old.changes ++ changes ∷ [] }
        ensures spare { self.new.spare ≡ self.old.spare - 1 }
        ensures older { (v : ℕ) → v < length self.old.versions → slice_get self.new.versions v ≡ slice_get self.old.versions v }
    {
        // The changes are read for what is known of their order.
        let _changes = changes.as_slice();
        self.kept.push(Version { text, reiterated }, changes);
    }

    /// The text of a version that is there.
    pub fn text_at(&self, version: VersionNo) -> &DocText
        requires { version < length self.now.versions }
        ensures { result.now ≡ text_at self.now.versions version }
    {
        self.kept.text_at(version)
    }

    /// The snapshot of a version that is there.
    ///
    /// # Errors
    ///
    /// A further holder was refused, which counts as want of memory.
    pub fn snapshot(&self, version: VersionNo) -> Result<Snapshot, OutOfMemory>
        requires { version < length self.now.versions }
        ensures { IfOk result (λ s. s ≡ snapshot_of self.now version) }
    {
        self.kept.snapshot(version)
    }

    /// The version that a version repeats: itself, or an earlier one of the same text that repeats
    /// itself.
    pub fn reiterated(&self, version: VersionNo) -> VersionNo
        requires { version < length self.now.versions }
        ensures number { result ≡ reiterated_at self.now.versions version }
        ensures earlier { result ≤ version }
        ensures original { IsOriginal self.now.versions (text_at self.now.versions version) result }
    {
        self.kept.get(version).reiterated
    }

    /// The number that each version repeats, from version 0 on.
    ///
    /// # Errors
    ///
    /// Memory was refused.
    pub fn reiterated_numbers(&self, alloc: Global) -> Result<NumberList, OutOfMemory>
        ensures { IfOk result (λ numbers. numbers ≡ map (λ v. v.reiterated) self.now.versions) }
    {
        let versions = self.kept.as_slice();
        let mut numbers = Vec::with_capacity(alloc, versions.len())?;
        for version in versions {
            let reiterated = &version.reiterated;
            numbers.push(reiterated.0)?;
        }
        NumberList::of(alloc, numbers)
    }

    /// The change lists that lead from one version to another that isn't older.
    pub fn changes_between(&self, from: VersionNo, to: VersionNo) -> &[Changes]
        requires order { from ≤ to }
        requires there { to < length self.now.versions }
        ensures changes { result.now ≡ slice_range self.now.changes from to }
        ensures linked { AreLinked result.now }
        ensures before { (p : ℕ) → p ≤ length (text_at self.now.versions from) → p ≤ len_before p result.now }
        ensures after { (p : ℕ) → p ≤ length (text_at self.now.versions to) → p ≤ len_after p result.now }
    {
        self.kept.changes_between(from, to)
    }

    /// The change list that leads from a version, which isn't the current one, to the next.
    pub fn changes_from(&self, version: VersionNo) -> &Changes
        requires { version + 1 < length self.now.versions }
        ensures { slice_get self.now.changes version ≡ Some result.now }
    {
        self.kept.changes_from(version)
    }
}
