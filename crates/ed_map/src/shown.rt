//! What a member shows of a part of its carrier's text.
ghost use Rattle.std.specs.Prelude.{◌≡◌, ◌+◌, ◌-◌, ◌<◌, ◌≤◌, ◌^◌, length, take};
ghost use Rattle.ed_base.specs.Spans.{end_of};
ghost use Rattle.ed_layers.specs.Records.{members_len, version_in};
ghost use Rattle.ed_map.specs.Shown.{shown, tracked};
ghost use Rattle.ed_map.specs.Layers.{EndsShort};

use ed_base::{BufferNo, Member, Span, VersionList, VersionNo};
use ed_members::Members;

/// A part of the text of a source, at the version that a carrier names.
#[derive(Clone, Copy)]
pub struct Shown {
    pub source: BufferNo,
    pub version: VersionNo,
    pub part: Span,
}

/// The version at which a buffer stands in the list, if it does.
pub fn version_of(sources: &VersionList, source: BufferNo) -> Option<VersionNo>
    ensures { result ≡ version_in sources.now source }
{
    for entry in sources.as_slice() {
        let (buffer, version) = *entry;
        if buffer == source {
            return Some(version);
        }
    }
    None
}

/// The first member that ends behind the place, or else how many there are, by bisection over where
/// they stand.
pub fn first_member_behind(members: &Members, at: u32) -> u32
    requires { members_len members.now < 2 ^ 32 }
    ensures within { result ≤ length members.now }
    ensures before { members_len (take result members.now) ≤ at }
    ensures behind { result < length members.now → at < members_len (take (result + 1) members.now) }
{
    let mut low = 0u32;
    let mut high = members.count();
    while low < high {
        let middle = low + (high - low) / 2;
        let place = members.place(middle);
        if place.start + place.len <= at {
            low = middle + 1;
        } else {
            high = middle;
        }
    }
    low
}

/// What a member that stands at a place shows of a part of its carrier's text, if it shows a unit
/// of it.
pub fn shown_by(sources: &VersionList, member: &Member, at: u32, part: Span) -> Option<Shown>
    requires part { end_of part < 2 ^ 32 }
    requires bounds { EndsShort member.now }
    ensures { result ≡ shown sources.now member.now (part.start - at) (end_of part - at) }
{
    match member {
        Member::Literal(_) => None,
        Member::Tracked { source, bounds, .. } => {
            let from = part.start.saturating_sub(at);
            let to = (part.start + part.len).saturating_sub(at).min(bounds.len);
            if to <= from {
                return None;
            }
            let version = version_of(sources, *source)?;
            Some(Shown {
                source: *source,
                version,
                part: Span {
                    start: bounds.start + from,
                    len: to - from,
                },
            })
        }
    }
}

/// All that a tracked member shows, if its carrier names a version of the source.
pub fn tracked(sources: &VersionList, member: &Member) -> Option<Shown>
    ensures { result ≡ tracked sources.now member.now }
{
    match member {
        Member::Literal(_) => None,
        Member::Tracked { source, bounds, .. } => {
            let version = version_of(sources, *source)?;
            Some(Shown {
                source: *source,
                version,
                part: *bounds,
            })
        }
    }
}
