//! What is kept of the versions of a buffer of any kind.
ghost use Rattle.std.specs.Prelude.{◌≡◌, ◌↔◌, ◌+◌, ◌-◌, ◌<◌, ◌≤◌, ◌^◌, ◌++◌, ◌∷◌, [], ℕ, List, length, slice_get, slice_range, IsTrue, Some, IfOk, OnOk};
ghost use Rattle.ed_base.specs.ChangeList.{new_len};
ghost use Rattle.ed_track.specs.Linked.{AreLinked, len_before, len_after};
ghost use Rattle.ed_version.specs.Versions.{IsSame, now, text_at, text_now};

use crate::snapshot::Snapshot;
use ed_base::{BufferNo, Changes, OutOfMemory, VersionNo};
use ed_text::{DocText, Text};
use std::alloc::Global;
use std::marker::Model;

/// What a version of a buffer holds, whatever the kind of the buffer: a text, and what is known
/// beside it.
pub trait HasText: Sized + Drop {
    // the units of the text
    ghost units: { Self → List ℕ };

    /// The text.
    fn text(&self) -> &DocText
        ensures { result.now ≡ units self.now };
}

/// The versions of one buffer, numbered from 0, and the change list of each to the next. They only
/// grow at their end: what is there never changes. Each change list leads from the length of one text
/// to the length of the next.
#[derive(Drop)]
pub struct Versions<V: HasText> {
    buffer: BufferNo,
    versions: Vec<V>,
    changes: Vec<Changes>,
}

impl<V: HasText> Model for Versions<V> {
    ghost use Rattle.std.specs.Prelude.{◌-◌, ◌<◌, ◌^◌, length, min, vec_len, vec_capacity};
    ghost use Rattle.ed_version.specs.Versions.{Versions as Kept, Lead};

    ghost Value = { Kept V };

    ghost view = { λ s. record {
      buffer = s.buffer;
      versions = s.versions.items;
      changes = s.changes.items;
      spare = min (vec_capacity s.versions - vec_len s.versions) (vec_capacity s.changes - vec_len s.changes);
    } };

    ghost invariant = { λ s. Lead V.units s.versions.items s.changes.items × (length s.versions.items < 2 ^ 32) };
}

/// The change lists with these indices.
fn part(changes: &[Changes], from: usize, to: usize) -> &[Changes]
    requires order { from ≤ to }
    requires there { to ≤ length changes.now }
    ensures { result.now ≡ slice_range changes.now from to }
{
    &changes[from..to]
}

impl<V: HasText> Versions<V> {
    /// One version.
    ///
    /// # Errors
    ///
    /// Memory was refused.
    pub fn new(alloc: Global, buffer: BufferNo, first: V) -> Result<Versions<V>, OutOfMemory>
        ensures buffer { IfOk result (λ s. s.buffer ≡ buffer) }
        ensures versions { IfOk result (λ s. s.versions ≡ first ∷ []) }
        ensures changes { IfOk result (λ s. s.changes ≡ []) }
    {
        let mut versions = Vec::new(alloc);
        versions.push(first)?;
        Ok(Versions {
            buffer,
            versions,
            changes: Vec::new(alloc),
        })
    }

    /// The buffer whose versions these are.
    pub fn buffer(&self) -> BufferNo
        ensures { result ≡ self.now.buffer }
    {
        self.buffer
    }

    /// The current version.
    pub fn now(&self) -> VersionNo
        ensures version { result ≡ now self.now.versions }
        ensures some { 0 < length self.now.versions }
        ensures few { length self.now.versions < 2 ^ 32 }
        ensures steps { length self.now.versions ≡ length self.now.changes + 1 }
    {
        VersionNo((self.versions.len() - 1) as u32)
    }

    /// Whether no further version can have a number.
    pub fn is_full(&self) -> bool
        ensures full { IsTrue result ↔ (2 ^ 32 - 1 ≤ length self.now.versions) }
    {
        self.versions.len() >= u32::MAX as usize
    }

    /// Makes room for one more version.
    ///
    /// # Errors
    ///
    /// Memory was refused.
    pub fn reserve(&mut self) -> Result<(), OutOfMemory>
        ensures same { IsSame self.old self.new }
        ensures room { OnOk result (0 < self.new.spare) }
    {
        self.versions.reserve(1)?;
        self.changes.reserve(1)?;
        Ok(())
    }

    /// One more version, to which these changes of the current text lead. It takes no memory.
    pub fn push(&mut self, version: V, changes: Changes)
        requires room { 0 < self.old.spare }
        requires number { length self.old.versions < 2 ^ 32 - 1 }
        requires from { changes.old_len ≡ length (text_now V.units self.old.versions) }
        requires to { new_len changes ≡ length (V.units version) }
        ensures buffer { self.new.buffer ≡ self.old.buffer }
        ensures versions { self.new.versions ≡ self.old.versions ++ version ∷ [] }
        ensures changes { self.new.changes ≡ self.old.changes ++ changes ∷ [] }
        ensures spare { self.new.spare ≡ self.old.spare - 1 }
        ensures older { (v : ℕ) → v < length self.old.versions → slice_get self.new.versions v ≡ slice_get self.old.versions v }
    {
        self.versions.push_reserved(version);
        self.changes.push_reserved(changes);
    }

    /// All versions, by number.
    pub fn as_slice(&self) -> &[V]
        ensures { result.now ≡ self.now.versions }
    {
        self.versions.as_slice()
    }

    /// A version that is there.
    pub fn get(&self, version: VersionNo) -> &V
        requires { version < length self.now.versions }
        ensures { slice_get self.now.versions version ≡ Some result.now }
    {
        &self.versions[version.0 as usize]
    }

    /// The text of a version that is there.
    pub fn text_at(&self, version: VersionNo) -> &DocText
        requires { version < length self.now.versions }
        ensures { result.now ≡ text_at V.units self.now.versions version }
    {
        let found = self.get(version);
        found.text()
    }

    /// The snapshot of a version that is there.
    ///
    /// # Errors
    ///
    /// A further holder was refused, which counts as want of memory.
    pub fn snapshot(&self, version: VersionNo) -> Result<Snapshot, OutOfMemory>
        requires { version < length self.now.versions }
        ensures { IfOk result (λ s. s ≡ record { buffer = self.now.buffer; version = version; text = text_at V.units self.now.versions version }) }
    {
        Ok(Snapshot {
            buffer: self.buffer,
            version,
            text: self.text_at(version).share()?,
        })
    }

    fn between(&self, from: u32, to: u32) -> &[Changes]
        requires order { from ≤ to }
        requires there { to < length self.now.versions }
        ensures changes { result.now ≡ slice_range self.now.changes from to }
        ensures linked { AreLinked result.now }
        ensures before { (p : ℕ) → p ≤ length (text_at V.units self.now.versions from) → p ≤ len_before p result.now }
        ensures after { (p : ℕ) → p ≤ length (text_at V.units self.now.versions to) → p ≤ len_after p result.now }
    {
        part(self.changes.as_slice(), from as usize, to as usize)
    }

    fn step(&self, from: u32) -> &Changes
        requires { from + 1 < length self.now.versions }
        ensures { slice_get self.now.changes from ≡ Some result.now }
    {
        &self.changes[from as usize]
    }

    /// The change lists that lead from one version to another that isn't older.
    pub fn changes_between(&self, from: VersionNo, to: VersionNo) -> &[Changes]
        requires order { from ≤ to }
        requires there { to < length self.now.versions }
        ensures changes { result.now ≡ slice_range self.now.changes from to }
        ensures linked { AreLinked result.now }
        ensures before { (p : ℕ) → p ≤ length (text_at V.units self.now.versions from) → p ≤ len_before p result.now }
        ensures after { (p : ℕ) → p ≤ length (text_at V.units self.now.versions to) → p ≤ len_after p result.now }
    {
        self.between(from.0, to.0)
    }

    /// The change list that leads from a version, which isn't the current one, to the next.
    pub fn changes_from(&self, version: VersionNo) -> &Changes
        requires { version + 1 < length self.now.versions }
        ensures { slice_get self.now.changes version ≡ Some result.now }
    {
        self.step(version.0)
    }
}
