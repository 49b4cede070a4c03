//! Buffers that go along with their sources.
ghost use Rattle.std.specs.Prelude.{◌≡◌, ◌-◌, ◌^◌, ◌<◌, length};
ghost use Rattle.ed_members.specs.Steps.{steps_seen};
ghost use Rattle.ed_project.specs.Records.{shown_now};
ghost use Rattle.ed_held.specs.Advancing.{Advances, CanAdvance, CanGoOn};
ghost use Rattle.ed_held.specs.OfProjections.{GoesAlong};
ghost use Rattle.ed_held.specs.Seen.{known, last_of};

use crate::elides;
use crate::held::Held;
use crate::moves::Planned;
use ed_base::{OutOfMemory, Steps};
use ed_members::SourceStep;
use ed_project::{NextRecord, Projection, ProjectionFault};
use ed_version::Snapshot;
use std::alloc::Global;
use std::marker::Brand;
use std::sync::ledger::{Blank, Ledger};

/// Plans the next version of a projection, with a counter that is opened for it.
fn counted<L: Ledger>(
    alloc: Global,
    projection: &mut Projection,
    sources: &[Snapshot],
    steps: &[SourceStep],
    blank: Blank,
) -> Result<NextRecord, ProjectionFault>
    requires name { blank.name ≡ L.name }
    requires parts { blank.parts ≡ L.parts }
    requires some { 0 < blank.parts }
    requires can { CanAdvance projection.old.buffer (steps_seen steps.now) sources.now (shown_now projection.old).members }
    requires number { length projection.old.versions < 2 ^ 32 - 1 }
    ensures { GoesAlong (steps_seen steps.now) sources.now projection.old projection.new result }
{
    let mut count = Steps::<L>::begin(blank);
    projection.advance(alloc, sources, steps, &mut count)
}

/// Plans the next version of a projection.
fn advanced(
    alloc: Global,
    projection: &mut Projection,
    sources: &[Snapshot],
    steps: &[SourceStep],
) -> Result<NextRecord, ProjectionFault>
    requires can { CanAdvance projection.old.buffer (steps_seen steps.now) sources.now (shown_now projection.old).members }
    ensures { GoesAlong (steps_seen steps.now) sources.now projection.old projection.new result }
{
    if projection.is_full() {
        return Err(ProjectionFault::OutOfMemory);
    }
    counted::<Brand>(alloc, projection, sources, steps, Blank::new(1))
}

/// Plans the next version of a buffer that stands on others, over these snapshots of its sources,
/// which have stepped so.
///
/// # Errors
///
/// The text would have more than 2^22 units, or memory was refused.
pub fn planned(
    alloc: Global,
    held: &mut Held,
    sources: &[Snapshot],
    steps: &[SourceStep],
) -> Result<Planned, ProjectionFault>
    requires { CanGoOn (known held.old).number (steps_seen steps.now) sources.now (last_of (known held.old).buffer) }
    ensures { Advances (steps_seen steps.now) sources.now held.old held.new result }
{
    match held {
        Held::Base(_) => unreachable!(),
        Held::Projection { projection, .. } => {
            // It has a version.
            let _now = projection.now();
            match advanced(alloc, projection, sources, steps) {
                Ok(next) => Ok(Planned::Projection(next)),
                Err(fault) => Err(fault),
            }
        }
        Held::Elision { elision, .. } => {
            // It has a version.
            let _now = elision.now();
            match elides::advanced(alloc, elision, sources, steps) {
                Ok(next) => Ok(Planned::Elision(next)),
                Err(OutOfMemory) => Err(ProjectionFault::OutOfMemory),
            }
        }
    }
}
