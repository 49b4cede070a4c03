//! The text of members over the texts of their sources.
ghost use Rattle.std.specs.Prelude.{◌≡◌, ◌+◌, ◌-◌, ◌<◌, ◌≤◌, ◌^◌, length, All, IfOk, MatchOption};
ghost use Rattle.std.specs.Option.{option_copied};
ghost use Rattle.ed_base.specs.declared.piece.Member.{Member};
ghost use Rattle.ed_layers.specs.CarrierStep.{stay_around};
ghost use Rattle.ed_layers.specs.Records.{member_len, members_len};
ghost use Rattle.ed_project.specs.Records.{HasLiterals, IsShown};
ghost use Rattle.ed_project.specs.Texts.{HasSource, LiteralsStay, StaysAt, found_text, member_text, no_steps, text_in, text_over, versions_of};

use crate::shown::Shown;
use ed_base::{BufferNo, Member, OutOfMemory, Unit, VersionList};
use ed_members::Members;
use ed_text::{DocText, Text};
use ed_version::Snapshot;
use std::alloc::Global;

/// The text of the buffer among snapshots, if it is there.
pub fn found(snapshots: &[Snapshot], buffer: BufferNo) -> Option<&DocText>
    ensures { option_copied result ≡ found_text snapshots.now buffer }
{
    for snapshot in snapshots {
        if snapshot.buffer == buffer {
            return Some(&snapshot.text);
        }
    }
    None
}

/// Which members stay: those before `first`, and those behind the `added` that stand in place of
/// `removed`.
#[derive(Clone, Copy)]
pub struct Staying {
    pub first: u32,
    pub removed: u32,
    pub added: u32,
}

impl Staying {
    /// All members stay.
    pub fn all() -> Staying
        ensures { result ≡ record { first = 0; removed = 0; added = 0 } }
    {
        Staying {
            first: 0,
            removed: 0,
            added: 0,
        }
    }

    /// The old index of the member with this new one, if it stays.
    fn old_index(self, index: u32) -> Option<u32>
        requires { index - self.added + self.removed < 2 ^ 32 }
        ensures { result ≡ stay_around self.first self.removed self.added index }
    {
        if index < self.first {
            return Some(index);
        }
        if index - self.first < self.added {
            return None;
        }
        Some(index - self.added + self.removed)
    }
}

/// The text of a literal: the part of the old text where it lay, if it stays, so that both share it.
///
/// # Errors
///
/// Memory was refused.
fn literal(
    alloc: Global,
    units: &[Unit],
    old: Option<&Shown>,
    before: Option<u32>,
) -> Result<DocText, OutOfMemory>
    requires fits { length units.now ≤ 2 ^ 22 }
    requires shown { MatchOption (option_copied old) (Unit {0}) IsShown }
    requires stays { MatchOption (option_copied old) (Unit {0}) (λ o. StaysAt before o.members (Member.Literal units.now)) }
    ensures { IfOk result (λ t. t ≡ units.now) }
{
    match old {
        None => DocText::from_units(alloc, units),
        Some(old) => match before {
            None => DocText::from_units(alloc, units),
            Some(i) => old.text.slice(alloc, old.members.place(i)),
        },
    }
}

/// The text of a member, which had the index `before` in the old version, if it stays.
///
/// # Errors
///
/// Memory was refused.
fn part(
    alloc: Global,
    member: &Member,
    snapshots: &[Snapshot],
    old: Option<&Shown>,
    before: Option<u32>,
) -> Result<DocText, OutOfMemory>
    requires there { HasSource no_steps snapshots.now member.now }
    requires fits { member_len member.now ≤ 2 ^ 22 }
    requires shown { MatchOption (option_copied old) (Unit {0}) IsShown }
    requires stays { MatchOption (option_copied old) (Unit {0}) (λ o. StaysAt before o.members member.now) }
    ensures text { IfOk result (λ t. t ≡ member_text (text_in snapshots.now) member.now) }
    ensures len { IfOk result (λ t. length t ≡ member_len member.now) }
{
    match member {
        Member::Literal(units) => literal(alloc, units.as_slice(), old, before),
        Member::Tracked { source, bounds, .. } => match found(snapshots, *source) {
            None => unreachable!(),
            Some(text) => text.slice(alloc, *bounds),
        },
    }
}

/// The text of the members over these snapshots of their sources. Where an old version is given, the
/// text shares with it what the literals that stay show.
///
/// # Errors
///
/// Memory was refused.
pub fn text_of(
    alloc: Global,
    members: &Members,
    snapshots: &[Snapshot],
    old: Option<&Shown>,
    staying: Staying,
) -> Result<DocText, OutOfMemory>
    requires there { All (HasSource no_steps snapshots.now) members.now }
    requires fits { members_len members.now ≤ 2 ^ 22 }
    requires shown { MatchOption (option_copied old) (Unit {0}) IsShown }
    requires stays { MatchOption (option_copied old) (Unit {0}) (λ o. LiteralsStay (stay_around staying.first staying.removed staying.added) o.members members.now) }
    requires few { length members.now < 2 ^ 32 → length members.now - staying.added + staying.removed < 2 ^ 32 }
    ensures text { IfOk result (λ t. t ≡ text_over (text_in snapshots.now) members.now) }
    ensures len { IfOk result (λ t. length t ≡ members_len members.now) }
    ensures literals { IfOk result (λ t. HasLiterals members.now t) }
{
    let mut parts = Vec::new(alloc);
    for i in 0..members.count() {
        let before = staying.old_index(i);
        parts.push(part(alloc, members.get(i), snapshots, old, before)?)?;
    }
    let text = DocText::concat(alloc, &parts)?;
    Ok(text)
}

/// The versions that the snapshots are of.
///
/// # Errors
///
/// Memory was refused.
pub fn versions_of(alloc: Global, snapshots: &[Snapshot]) -> Result<VersionList, OutOfMemory>
    ensures { IfOk result (λ list. list ≡ versions_of snapshots.now) }
{
    let mut versions = Vec::with_capacity(alloc, snapshots.len())?;
    for snapshot in snapshots {
        versions.push((snapshot.buffer, snapshot.version))?;
    }
    VersionList::of(alloc, versions)
}
