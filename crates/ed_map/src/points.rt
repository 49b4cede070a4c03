//! Points mapped down and up, each by a unit beside it.
ghost use Rattle.std.specs.Prelude.{◌≡◌, ◌+◌, ◌-◌, ◌<◌, ◌^◌, if◌then◌else◌, IfSome, IsSome};
ghost use Rattle.ed_base.specs.Spans.{end_of, holds_place};
ghost use Rattle.ed_layers.specs.Mapping.{beside, down_point, unit_by, up_point};
ghost use Rattle.ed_map.specs.Down.{place_within};
ghost use Rattle.ed_map.specs.Shown.{ReachesTo};
ghost use Rattle.ed_map.specs.Up.{first_within};

use crate::layers::{Layers, Placed};
use crate::lower::lower_version;
use crate::shown::{first_member_behind, shown_by};
use ed_base::{Affinity, BufferNo, Span, VersionNo};

/// The unit on the side that a point prefers, or on the other where the text has none there: its
/// place, and whether it stands before the point.
fn unit_by(side: Affinity, len: u32, p: u32) -> Option<(u32, bool)>
    ensures { result ≡ unit_by side len p }
{
    match side {
        Affinity::Predecessor if 0 < p => Some((p - 1, true)),
        Affinity::Predecessor if 0 < len => Some((0, false)),
        Affinity::Predecessor => None,
        Affinity::Successor if p < len => Some((p, false)),
        Affinity::Successor if 0 < p => Some((p - 1, true)),
        Affinity::Successor => None,
    }
}

/// One past a unit that stands before the point, or the place of one that stands after it.
fn beside(before: bool, unit: u32) -> u32
    requires { unit + 1 < 2 ^ 32 }
    ensures { result ≡ beside before unit }
{
    if before { unit + 1 } else { unit }
}

/// The place in a lower buffer of the unit at a place.
fn place_of<L: Layers>(layers: &L, to: BufferNo, b: BufferNo, v: VersionNo, k: u32) -> Option<u32>
    requires { ReachesTo (L.record_at layers.now) b v (k + 1) }
    ensures place { result ≡ place_within (L.record_at layers.now) 9 to b v k }
    ensures short { IfSome result (λ q. q < 2 ^ 22) }
{
    let placed = layers.placed(b, v);
    if b == to {
        return Some(k);
    }
    match placed {
        Placed::Base { .. } => None,
        Placed::Carrier { members, sources } => {
            let index = first_member_behind(members, k);
            let at = members.place(index).start;
            let unit = Span { start: k, len: 1 };
            let inner = shown_by(sources, members.get(index), at, unit)?;
            place_of(layers, to, inner.source, inner.version, inner.part.start)
        }
    }
}

/// The place of a unit counted from where a part begins, if it lies in it.
fn place_in(part: Span, unit: u32) -> Option<u32>
    requires { end_of part < 2 ^ 32 }
    ensures place { result ≡ (if holds_place part unit then Some (unit - part.start) else None) }
    ensures inside { IfSome result (λ k. k < part.len) }
{
    if part.start <= unit && unit < part.start + part.len {
        Some(unit - part.start)
    } else {
        None
    }
}

/// Where a part of a version's text first shows a unit of a lower buffer, counted from where the
/// part begins. Members that show no unit of the part aren't looked at.
fn first_of<L: Layers>(
    layers: &L,
    of: BufferNo,
    unit: u32,
    b: BufferNo,
    v: VersionNo,
    part: Span,
) -> Option<u32>
    requires { ReachesTo (L.record_at layers.now) b v (end_of part) }
    ensures first { result ≡ first_within (L.record_at layers.now) 9 of unit b v part.start (end_of part) }
    ensures inside { IfSome result (λ k. k < part.len) }
{
    let placed = layers.placed(b, v);
    if b == of {
        return place_in(part, unit);
    }
    match placed {
        Placed::Base { .. } => None,
        Placed::Carrier { members, sources } => {
            let end = part.start + part.len;
            for index in first_member_behind(members, part.start)..members.count() {
                let at = members.place(index).start;
                if end <= at {
                    return None;
                }
                if let Some(inner) = shown_by(sources, members.get(index), at, part) {
                    let found = first_of(layers, of, unit, inner.source, inner.version, inner.part);
                    if let Some(k) = found {
                        return Some(at.max(part.start) - part.start + k);
                    }
                }
            }
            None
        }
    }
}

/// Where a point of a version's text lies in a lower buffer, at the version of it that is reached,
/// in UTF-16 units: one past the place of the unit before it, or the place of the unit after it. The
/// side says which unit, and where the text has none there the other serves. None where that unit
/// has no place in the buffer, as a unit of a literal, or the text is empty. It takes no memory.
///
/// It is `MapDownToBuffer` of the editor SDK's `IBufferGraph`, by `PositionAffinity`. It looks at one
/// member of each carrier on the way.
pub fn down_point<L: Layers>(
    layers: &L,
    top: BufferNo,
    v: VersionNo,
    p: u32,
    side: Affinity,
    to: BufferNo,
) -> Option<u32>
    requires { ReachesTo (L.record_at layers.now) top v p }
    ensures { result ≡ down_point (L.record_at layers.now) top v p side to }
{
    let len = layers.placed(top, v).len();
    let (unit, before) = unit_by(side, len, p)?;
    let place = place_of(layers, to, top, v, unit)?;
    Some(beside(before, place))
}

/// Where a point of a lower buffer lies in a version's text, in UTF-16 units: by the unit on its
/// side in the version of the buffer that is reached, or the other where that text has none there,
/// and the first place at which the top shows it. None where the top doesn't show it, the buffer
/// isn't reached or its text is empty. It takes no memory.
///
/// It is `MapUpToBuffer` of the editor SDK's `IBufferGraph`, by `PositionAffinity`.
pub fn up_point<L: Layers>(
    layers: &L,
    top: BufferNo,
    v: VersionNo,
    p: u32,
    side: Affinity,
    of: BufferNo,
) -> Option<u32>
    requires { IsSome (L.record_at layers.now top v) }
    ensures { result ≡ up_point (L.record_at layers.now) top v p side of }
{
    let whole = Span {
        start: 0,
        len: layers.placed(top, v).len(),
    };
    let version = lower_version(layers, top, v, of)?;
    let len = layers.placed(of, version).len();
    let (unit, before) = unit_by(side, len, p)?;
    let first = first_of(layers, of, unit, top, v, whole)?;
    Some(beside(before, first))
}
