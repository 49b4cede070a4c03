//! A version of a projection that was planned and not yet made.
ghost use Rattle.std.specs.Prelude.{◌≡◌, IfOk};

use ed_base::{Changes, OutOfMemory, VersionList};
use ed_members::Members;
use ed_version::Snapshot;
use std::marker::Model;

/// What a commit will add to a projection: the version that comes next, and what leads to it.
#[derive(Drop)]
pub struct NextRecord {
    pub(crate) members: Members,
    pub(crate) sources: VersionList,
    pub(crate) changes: Changes,
    pub(crate) snapshot: Snapshot,
}

impl Model for NextRecord {
    ghost use Rattle.ed_project.specs.Records.{Next, HasLiterals};

    ghost Value = { Next };

    ghost view = { λ n. record { members = n.members; sources = n.sources; changes = n.changes; snapshot = n.snapshot } };

    ghost invariant = { λ n. HasLiterals n.members n.snapshot.text };
}

impl NextRecord {
    /// What leads from the current version to the next.
    pub fn changes(&self) -> &Changes
        ensures { result.now ≡ self.now.changes }
    {
        &self.changes
    }

    /// The members of the next version.
    pub fn members(&self) -> &Members
        ensures { result.now ≡ self.now.members }
    {
        &self.members
    }

    /// The versions of the sources that the next version names.
    pub fn sources(&self) -> &VersionList
        ensures { result.now ≡ self.now.sources }
    {
        &self.sources
    }

    /// The snapshot of the next version.
    ///
    /// # Errors
    ///
    /// A further holder was refused, which counts as want of memory.
    pub fn snapshot(&self) -> Result<Snapshot, OutOfMemory>
        ensures { IfOk result (λ s. s ≡ self.now.snapshot) }
    {
        self.snapshot.share()
    }
}
