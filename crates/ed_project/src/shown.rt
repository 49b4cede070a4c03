//! What a version of a projection shows, and what comes next.
ghost use Rattle.std.specs.Prelude.{◌≡◌, ◌+◌, ◌-◌, ◌<◌, ◌≤◌, ◌^◌, length, All, IfOk};
ghost use Rattle.ed_base.specs.ChangeList.{change_list, new_len, step};
ghost use Rattle.ed_layers.specs.Bounds.{members_after};
ghost use Rattle.ed_layers.specs.CarrierStep.{all_stay, carrier_step, stay_around};
ghost use Rattle.ed_layers.specs.Records.{members_len, projection};
ghost use Rattle.ed_members.specs.Faults.{replaced};
ghost use Rattle.ed_members.specs.Moving.{EndsInOld, OwnInside, OwnInOrder};
ghost use Rattle.ed_members.specs.Steps.{steps_seen};
ghost use Rattle.ed_project.specs.Planning.{Answers, EndsWithin, IsNext, added_in, too_long};
ghost use Rattle.ed_project.specs.Records.{IsShown};
ghost use Rattle.ed_project.specs.Texts.{HasSource, no_steps, text_in, text_over, versions_of};

use crate::fault::ProjectionFault;
use crate::runs::{kept_runs, runs_around};
use crate::texts::{Staying, text_of, versions_of};
use ed_base::{BufferNo, Changes, OutOfMemory, VersionList};
use ed_kept::changes_between;
use ed_members::{Members, SourceStep};
use ed_text::{DocText, MOST_UNITS, Text};
use ed_version::{HasText, Snapshot};
use std::alloc::Global;

/// What a projection shows at one version: its members, the version of each source, and the text that
/// they make, in UTF-16 units.
#[derive(Drop)]
pub struct Shown {
    pub members: Members,
    pub sources: VersionList,
    pub text: DocText,
}

impl HasText for Shown {
    ghost units = { λ s. s.text };

    fn text(&self) -> &DocText
        ensures { result.now ≡ self.now.text }
    {
        &self.text
    }
}

/// What is shown after these steps of the sources, and what leads to it.
///
/// # Errors
///
/// The text would have more than 2^22 units, or memory was refused.
pub fn advanced(
    alloc: Global,
    old: &Shown,
    me: BufferNo,
    sources: &[Snapshot],
    steps: &[SourceStep],
) -> Result<(Shown, Changes), ProjectionFault>
    requires within { All (EndsInOld (steps_seen steps.now)) old.now.members }
    requires inside { OwnInside me (steps_seen steps.now) old.now.members }
    requires order { OwnInOrder me (steps_seen steps.now) old.now.members }
    requires there { All (HasSource (steps_seen steps.now) sources.now) old.now.members }
    requires whole { IsShown old.now }
    ensures fault { Answers (too_long (members_len (members_after me (steps_seen steps.now) old.now.members))) result }
    ensures members { IfOk result (λ r. r.0.members ≡ members_after me (steps_seen steps.now) old.now.members) }
    ensures sources { IfOk result (λ r. r.0.sources ≡ versions_of sources.now) }
    ensures text { IfOk result (λ r. r.0.text ≡ text_over (text_in sources.now) r.0.members) }
    ensures whole { IfOk result (λ r. IsShown r.0) }
    ensures next { IfOk result (λ r. IsNext all_stay (steps_seen steps.now) old.now r.0 r.1) }
    ensures within { EndsWithin (steps_seen steps.now) (members_after me (steps_seen steps.now) old.now.members) result }
{
    let old_len = old.text.len();
    let members = old.members.advance(alloc, me, steps)?;
    if members.len() > MOST_UNITS {
        return Err(ProjectionFault::Units {
            count: u64::from(members.len()),
        });
    }
    let text = text_of(alloc, &members, sources, Some(old), Staying::all())?;
    let runs = kept_runs(alloc, &old.members, &members, steps)?;
    let changes = changes_between(alloc, &runs, old_len, &text)?;
    let shown = Shown {
        members,
        sources: versions_of(alloc, sources)?,
        text,
    };
    Ok((shown, changes))
}

/// What is shown with `removed` members from `first` on replaced, so that these are the members, and
/// what leads to it.
///
/// # Errors
///
/// Memory was refused.
pub fn respanned(
    alloc: Global,
    old: &Shown,
    members: Members,
    first: u32,
    removed: u32,
    sources: &[Snapshot],
) -> Result<(Shown, Changes), OutOfMemory>
    requires part { first + removed ≤ length old.now.members }
    requires others { members ≡ replaced old.now.members first removed (added_in first removed old.now.members members) }
    requires there { All (HasSource no_steps sources.now) members }
    requires fits { members_len members ≤ 2 ^ 22 }
    requires whole { IsShown old.now }
    ensures members { IfOk result (λ r. r.0.members ≡ members) }
    ensures sources { IfOk result (λ r. r.0.sources ≡ versions_of sources.now) }
    ensures text { IfOk result (λ r. r.0.text ≡ text_over (text_in sources.now) members) }
    ensures whole { IfOk result (λ r. IsShown r.0) }
    ensures next { IfOk result (λ r. IsNext (stay_around first removed (length (added_in first removed old.now.members members))) no_steps old.now r.0 r.1) }
{
    let behind = old.members.count() - (first + removed);
    let staying = Staying {
        first,
        removed,
        added: members.count() - (first + behind),
    };
    let text = text_of(alloc, &members, sources, Some(old), staying)?;
    let runs = runs_around(&old.members, &members, first, behind);
    let changes = changes_between(alloc, &runs, old.text.len(), &text)?;
    let shown = Shown {
        members,
        sources: versions_of(alloc, sources)?,
        text,
    };
    Ok((shown, changes))
}
