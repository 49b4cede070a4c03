//! Versions of buffers that were planned and not yet made.
ghost use Rattle.std.specs.Prelude.{◌≡◌, All, IfOk, IfSome, None, is_some, true};
ghost use Rattle.ed_layers.specs.CarrierStep.{record_trails};
ghost use Rattle.ed_layers.specs.Order.{overlap_fault};
ghost use Rattle.ed_layers.specs.Records.{is_carrier, is_elision, members_len, members_of};
ghost use Rattle.ed_members.specs.Moving.{EndsInNew};
ghost use Rattle.ed_members.specs.Steps.{steps_seen};
ghost use Rattle.ed_pieces.specs.Trails.{trails_in};
ghost use Rattle.ed_held.specs.Moves.{changes_of, record_of, snapshot_of};

use ed_base::{BufferNo, Changes, OutOfMemory};
use ed_buffer::BaseStep;
use ed_elide as elide;
use ed_members::{Members, SourceStep};
use ed_pieces::Trails;
use ed_project::NextRecord;
use ed_version::Snapshot;
use std::alloc::Global;

/// A version that was planned.
#[derive(Drop)]
pub enum Planned {
    Base(BaseStep),
    Projection(NextRecord),
    Elision(elide::NextRecord),
}

/// A version that was planned, the buffer that it will be a version of, and the ways by which the
/// units that it puts in were sent to that buffer.
#[derive(Drop)]
pub struct Move {
    pub buffer: BufferNo,
    pub planned: Planned,
    pub trails: Trails,
}

impl Planned {
    /// What leads to the version.
    pub fn changes(&self) -> &Changes
        ensures { result.now ≡ changes_of self.now }
    {
        match self {
            Planned::Base(step) => step.changes(),
            Planned::Projection(next) => next.changes(),
            Planned::Elision(next) => next.changes(),
        }
    }

    /// The snapshot of the version.
    ///
    /// # Errors
    ///
    /// A further holder was refused, which counts as want of memory.
    pub fn snapshot(&self) -> Result<Snapshot, OutOfMemory>
        ensures { IfOk result (λ s. s ≡ snapshot_of self.now) }
    {
        match self {
            Planned::Base(step) => step.snapshot(),
            Planned::Projection(next) => next.snapshot(),
            Planned::Elision(next) => next.snapshot(),
        }
    }

    /// The members of the version. That of a base has none.
    pub fn members(&self) -> Option<&Members>
        ensures carrier { is_some result ≡ is_carrier (record_of self.now) }
        ensures members { IfSome result (λ m. m.now ≡ members_of (record_of self.now)) }
    {
        match self {
            Planned::Base(_) => None,
            Planned::Projection(next) => Some(next.members()),
            Planned::Elision(next) => Some(next.members()),
        }
    }

    /// The ways of the units of the version, which is one of the carrier `me`, after these steps of
    /// its sources, one step a source: the way of a unit of a source that came last through the
    /// carrier, without that pair.
    ///
    /// # Errors
    ///
    /// Memory was refused.
    pub fn trails(
        &self,
        alloc: Global,
        me: BufferNo,
        steps: &[SourceStep],
    ) -> Result<Trails, OutOfMemory>
        requires carrier { is_carrier (record_of self.now) ≡ true }
        requires within { All (EndsInNew (steps_seen steps.now)) (members_of (record_of self.now)) }
        ensures trails { IfOk result (λ ts. trails_in ts (members_len (members_of (record_of self.now))) ≡ record_trails me (is_elision (record_of self.now)) (steps_seen steps.now) (record_of self.now)) }
        ensures apart { overlap_fault (members_of (record_of self.now)) ≡ None }
    {
        match self {
            Planned::Base(_) => unreachable!(),
            Planned::Projection(next) => {
                let members = next.members();
                // The members are counted for what is known of their order.
                let _count = members.count();
                members.trails(alloc, me, false, steps)
            }
            Planned::Elision(next) => {
                let members = next.members();
                // The members are counted for what is known of their order.
                let _count = members.count();
                members.trails(alloc, me, true, steps)
            }
        }
    }
}
