//! A version of an elision buffer that was planned and not yet made.
ghost use Rattle.std.specs.Prelude.{◌≡◌, IfOk};
ghost use Rattle.ed_elide.specs.Records.{IsOfRecord};

use crate::hidden::Hidden;
use ed_base::{BufferNo, Changes, OutOfMemory, VersionList, VersionNo};
use ed_members::Members;
use ed_version::Snapshot;
use std::marker::Model;

/// What a commit will add to an elision buffer: the version that comes next, and what leads to it.
#[derive(Drop)]
pub struct NextRecord {
    pub(crate) source: BufferNo,
    pub(crate) hidden: Hidden,
    pub(crate) version: VersionNo,
    pub(crate) members: Members,
    pub(crate) sources: VersionList,
    pub(crate) changes: Changes,
    pub(crate) snapshot: Snapshot,
}

impl Model for NextRecord {
    ghost use Rattle.ed_elide.specs.Records.{IsOfRecord, Next};

    ghost Value = { Next };

    ghost view = { λ n. record {
      source = n.source;
      hidden = n.hidden;
      version = n.version;
      members = n.members;
      sources = n.sources;
      changes = n.changes;
      snapshot = n.snapshot;
    } };

    ghost invariant = { λ n. IsOfRecord (record { source = n.source; hidden = n.hidden; version = n.version; members = n.members; sources = n.sources; changes = n.changes; snapshot = n.snapshot }) };
}

impl NextRecord {
    /// What leads from the current version to the next.
    pub fn changes(&self) -> &Changes
        ensures { result.now ≡ self.now.changes }
    {
        &self.changes
    }

    /// The buffer that the next version shows.
    pub fn source(&self) -> BufferNo
        ensures { result ≡ self.now.source }
    {
        self.source
    }

    /// The hidden places of the next version.
    pub fn hidden(&self) -> &Hidden
        ensures { result.now ≡ self.now.hidden }
    {
        &self.hidden
    }

    /// The members of the next version.
    pub fn members(&self) -> &Members
        ensures members { result.now ≡ self.now.members }
        ensures record_is { IsOfRecord self.now }
    {
        &self.members
    }

    /// The version of the source that the next version names.
    pub fn sources(&self) -> &VersionList
        ensures { result.now ≡ self.now.sources }
    {
        &self.sources
    }

    /// The snapshot of the next version.
    ///
    /// # Errors
    ///
    /// A further holder was refused, which counts as want of memory.
    pub fn snapshot(&self) -> Result<Snapshot, OutOfMemory>
        ensures { IfOk result (λ s. s ≡ self.now.snapshot) }
    {
        self.snapshot.share()
    }
}
