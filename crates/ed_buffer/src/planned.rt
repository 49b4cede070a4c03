//! A step that was planned and not yet made.
ghost use Rattle.std.specs.Prelude.{◌≡◌, IfOk, option_map};
ghost use Rattle.std.specs.Option.{is_some};
ghost use Rattle.ed_base.specs.ChangeList.{step};
ghost use Rattle.ed_layers.specs.SourceStep.{kept_from};
ghost use Rattle.ed_buffer.specs.Planning.{way_at};

use ed_base::{BufferNo, Changes, OutOfMemory, PointMode, VersionNo};
use ed_pieces::Trails;
use ed_track::back_point;
use ed_version::Snapshot;
use std::marker::Model;

/// What a commit will add to a base buffer: the version that comes next, and what leads to it.
#[derive(Drop)]
pub struct BaseStep {
    pub(crate) changes: Changes,
    pub(crate) trails: Trails,
    pub(crate) snapshot: Snapshot,
    pub(crate) reiterated: VersionNo,
}

impl Model for BaseStep {
    ghost use Rattle.ed_buffer.specs.Planning.{NextVersion};

    ghost Value = { NextVersion };

    ghost view = { λ s. record { changes = s.changes; trails = s.trails; snapshot = s.snapshot; reiterated = s.reiterated } };
}

/// Whether the unit at this new place was kept: then the points before and behind it go to two
/// places of the old text.
fn is_kept(changes: &Changes, at: u32) -> bool
    ensures { result ≡ is_some (kept_from (step changes.now) at) }
{
    let _normal = changes.as_slice();
    if at >= changes.new_len() {
        return false;
    }
    let before = back_point(PointMode::Positive, at, changes);
    let behind = back_point(PointMode::Positive, at + 1, changes);
    before != behind
}

impl BaseStep {
    /// What leads from the current version to the next.
    pub fn changes(&self) -> &Changes
        ensures { result.now ≡ self.now.changes }
    {
        &self.changes
    }

    /// The ways by which the units that it puts in came.
    pub fn trails(&self) -> &Trails
        ensures { result.now ≡ self.now.trails }
    {
        &self.trails
    }

    /// The way of the unit at this new place: none exactly where the unit was kept, and an empty way
    /// where it is of the edit's own. It looks the place up by bisection.
    pub fn trail(&self, at: u32) -> Option<&[(BufferNo, u32)]>
        ensures { option_map (λ t. t.now) result ≡ way_at self.now at }
    {
        if is_kept(&self.changes, at) {
            return None;
        }
        Some(self.trails.at(at))
    }

    /// The snapshot of the next version.
    ///
    /// # Errors
    ///
    /// A further holder was refused, which counts as want of memory.
    pub fn snapshot(&self) -> Result<Snapshot, OutOfMemory>
        ensures { IfOk result (λ s. s ≡ self.now.snapshot) }
    {
        self.snapshot.share()
    }
}
