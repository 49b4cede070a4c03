//! Elision buffers that go along with their source, or hide other places.
ghost use Rattle.std.specs.Prelude.{◌≡◌, ◌-◌, ◌<◌, ◌≤◌, ◌^◌, length, Some};
ghost use Rattle.std.specs.Option.{option_copied};
ghost use Rattle.ed_base.specs.ChangeList.{new_len};
ghost use Rattle.ed_elide.specs.Records.{record_of, shown_now};
ghost use Rattle.ed_members.specs.Steps.{step_seen, steps_seen};
ghost use Rattle.ed_project.specs.Texts.{found_text, no_steps, versions_of};
ghost use Rattle.ed_held.specs.Advancing.{CanGoOn, next_of};
ghost use Rattle.ed_held.specs.OfElisions.{GoesHidden, found_snapshot, found_step};
ghost use Rattle.ed_held.specs.Rehiding.{CanRehide, HasRehidden, with_flags};

use crate::held::Held;
use crate::moves::Planned;
use ed_base::{BufferNo, OutOfMemory, Steps};
use ed_elide::{Elision, Hidden, NextRecord};
use ed_members::SourceStep;
use ed_version::Snapshot;
use std::alloc::Global;
use std::marker::Brand;
use std::sync::ledger::{Blank, Ledger};

/// The snapshot of the buffer, if it is among these.
fn snapshot_in(snapshots: &[Snapshot], buffer: BufferNo) -> Option<&Snapshot>
    ensures { option_copied result ≡ found_snapshot snapshots.now buffer }
{
    for snapshot in snapshots {
        if snapshot.buffer == buffer {
            return Some(snapshot);
        }
    }
    None
}

/// The step of the buffer, if it stepped.
fn step_in(steps: &[SourceStep], source: BufferNo) -> Option<&SourceStep>
    ensures { option_copied result ≡ found_step steps.now source }
{
    for step in steps {
        if step.source == source {
            return Some(step);
        }
    }
    None
}

/// Plans the version of an elision buffer that follows this step of its source, with a counter that
/// is opened for it.
fn counted<L: Ledger>(
    alloc: Global,
    elision: &mut Elision,
    source: &Snapshot,
    sources: &[Snapshot],
    step: &SourceStep,
    steps: &[SourceStep],
    blank: Blank,
) -> Result<NextRecord, OutOfMemory>
    requires name { blank.name ≡ L.name }
    requires parts { blank.parts ≡ L.parts }
    requires some { 0 < blank.parts }
    requires found { found_snapshot sources.now elision.old.source ≡ Some source.now }
    requires stepped { found_step steps.now elision.old.source ≡ Some step.now }
    requires can { CanGoOn elision.old.buffer (steps_seen steps.now) sources.now (record_of elision.old.source (shown_now elision.old)) }
    requires number { length elision.old.versions < 2 ^ 32 - 1 }
    ensures { GoesHidden (steps_seen steps.now) sources.now elision.old elision.new (next_of elision.old.buffer (steps_seen steps.now) (versions_of sources.now) (record_of elision.old.source (shown_now elision.old))) result }
{
    let mut count = Steps::<L>::begin(blank);
    elision.advance(alloc, source, step, &mut count)
}

/// Plans the version of an elision buffer that goes along with its source. Where the source rests,
/// the same places are hidden.
pub(crate) fn advanced(
    alloc: Global,
    elision: &mut Elision,
    sources: &[Snapshot],
    steps: &[SourceStep],
) -> Result<NextRecord, OutOfMemory>
    requires can { CanGoOn elision.old.buffer (steps_seen steps.now) sources.now (record_of elision.old.source (shown_now elision.old)) }
    ensures { GoesHidden (steps_seen steps.now) sources.now elision.old elision.new (next_of elision.old.buffer (steps_seen steps.now) (versions_of sources.now) (record_of elision.old.source (shown_now elision.old))) result }
{
    if elision.is_full() {
        return Err(OutOfMemory);
    }
    let Some(source) = snapshot_in(sources, elision.source()) else {
        unreachable!()
    };
    match step_in(steps, elision.source()) {
        Some(step) => {
            counted::<Brand>(alloc, elision, source, sources, step, steps, Blank::new(1))
        }
        None => {
            let hidden = elision.hidden(elision.now()).copied(alloc)?;
            elision.set_hidden(alloc, hidden, source)
        }
    }
}

/// Plans the version of an elision buffer that hides these places of its source, which rests.
fn rehidden(
    alloc: Global,
    elision: &mut Elision,
    hidden: Hidden,
    sources: &[Snapshot],
) -> Result<NextRecord, OutOfMemory>
    requires size { length hidden ≡ length (shown_now elision.old).hidden }
    requires can { CanGoOn elision.old.buffer no_steps sources.now (record_of elision.old.source (shown_now elision.old)) }
    ensures { GoesHidden no_steps sources.now elision.old elision.new (with_flags hidden (next_of elision.old.buffer no_steps (versions_of sources.now) (record_of elision.old.source (shown_now elision.old)))) result }
{
    if elision.is_full() {
        return Err(OutOfMemory);
    }
    let Some(source) = snapshot_in(sources, elision.source()) else {
        unreachable!()
    };
    elision.set_hidden(alloc, hidden, source)
}

/// Plans the version of an elision buffer that hides these places of its source, over a snapshot of
/// the source, which rests.
///
/// # Errors
///
/// Memory was refused.
pub fn rehide(
    alloc: Global,
    held: &mut Held,
    hidden: Hidden,
    sources: &[Snapshot],
) -> Result<Planned, OutOfMemory>
    requires { CanRehide sources.now held.old hidden }
    ensures { HasRehidden sources.now held.old held.new hidden result }
{
    match held {
        Held::Base(_) => unreachable!(),
        Held::Projection { projection, .. } => {
            // It has a version.
            let _now = projection.now();
            unreachable!()
        }
        Held::Elision { elision, .. } => {
            // It has a version.
            let _now = elision.now();
            match rehidden(alloc, elision, hidden, sources) {
                Ok(next) => Ok(Planned::Elision(next)),
                Err(fault) => Err(fault),
            }
        }
    }
}
