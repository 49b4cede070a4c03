//! Projections that show other members.
ghost use Rattle.std.specs.Prelude.{◌≡◌, ◌+◌, ◌<◌, ◌≤◌, ◌^◌, All, length, true, false, IfOk};
ghost use Rattle.ed_layers.specs.Records.{is_carrier, is_elision, members_len};
ghost use Rattle.ed_project.specs.Records.{shown_now};
ghost use Rattle.ed_project.specs.Texts.{HasSource, no_steps};
ghost use Rattle.ed_stock.specs.Making.{spans_replaced};
ghost use Rattle.ed_held.specs.OfProjections.{Respans};
ghost use Rattle.ed_held.specs.Respanning.{CanRespan, HasRespanned, IsPart, held_members};
ghost use Rattle.ed_held.specs.Seen.{known, last_of};

use crate::held::Held;
use crate::moves::Planned;
use ed_base::{Member, OutOfMemory};
use ed_members::Members;
use ed_project::{NextRecord, Projection};
use ed_version::Snapshot;
use std::alloc::Global;

/// The members of a projection, with `removed` of them from `first` on replaced.
///
/// # Errors
///
/// Memory was refused.
pub fn members_with(
    alloc: Global,
    held: &Held,
    first: u32,
    removed: u32,
    members: Vec<Member>,
) -> Result<Vec<Member>, OutOfMemory>
    requires carrier { is_carrier (last_of (known held.now).buffer) ≡ true }
    requires plain { is_elision (last_of (known held.now).buffer) ≡ false }
    requires part { first + removed ≤ length (held_members held.now) }
    ensures { IfOk result (λ v. v.items ≡ spans_replaced (held_members held.now) first removed members.items) }
{
    match held {
        Held::Base(_) => unreachable!(),
        Held::Projection { projection, .. } => {
            projection
                .members(projection.now())
                .joined(alloc, first, removed, members)
        }
        Held::Elision { elision, .. } => {
            // It has a version.
            let _now = elision.now();
            unreachable!()
        }
    }
}

/// Plans the version of a projection that shows these members.
fn respanned(
    alloc: Global,
    projection: &mut Projection,
    members: Members,
    first: u32,
    removed: u32,
    sources: &[Snapshot],
) -> Result<NextRecord, OutOfMemory>
    requires part { IsPart (shown_now projection.old).members first removed members }
    requires there { All (HasSource no_steps sources.now) members }
    requires fits { members_len members ≤ 2 ^ 22 }
    ensures { Respans sources.now projection.old projection.new first removed members result }
{
    if projection.is_full() {
        return Err(OutOfMemory);
    }
    projection.set_spans(alloc, members, first, removed, sources)
}

/// Plans the version of a projection that shows these members, which are the current ones but for
/// `removed` of them from `first` on, over these snapshots of their sources.
///
/// # Errors
///
/// Memory was refused.
pub fn respan(
    alloc: Global,
    held: &mut Held,
    members: Members,
    first: u32,
    removed: u32,
    sources: &[Snapshot],
) -> Result<Planned, OutOfMemory>
    requires part { CanRespan held.old first removed members }
    requires there { All (HasSource no_steps sources.now) members }
    requires fits { members_len members ≤ 2 ^ 22 }
    ensures { HasRespanned sources.now held.old held.new first removed members result }
{
    match held {
        Held::Base(_) => unreachable!(),
        Held::Projection { projection, .. } => {
            // It has a version.
            let _now = projection.now();
            match respanned(alloc, projection, members, first, removed, sources) {
                Ok(next) => Ok(Planned::Projection(next)),
                Err(fault) => Err(fault),
            }
        }
        Held::Elision { elision, .. } => {
            // It has a version.
            let _now = elision.now();
            unreachable!()
        }
    }
}
