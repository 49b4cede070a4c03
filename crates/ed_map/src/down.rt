//! Spans mapped down.
ghost use Rattle.std.specs.Prelude.{◌≡◌, ◌++◌, IfOk, OnOk};
ghost use Rattle.ed_base.specs.Spans.{end_of};
ghost use Rattle.ed_layers.specs.Mapping.{down_span};
ghost use Rattle.ed_map.specs.Down.{down_within};
ghost use Rattle.ed_map.specs.Layers.{AreLayers, OneVersion};
ghost use Rattle.ed_map.specs.Shown.{ReachesTo};

use crate::layers::{Layers, Placed};
use crate::shown::{first_member_behind, shown_by};
use ed_base::{BufferNo, OutOfMemory, Span, SpanList, VersionNo};
use ed_spans::join;
use std::alloc::Global;

/// Puts the images of a part of a version's text behind the others, in the order of its units.
/// Members that show no unit of the part aren't looked at.
///
/// # Errors
///
/// Memory was refused.
fn put_images<L: Layers>(
    layers: &L,
    to: BufferNo,
    b: BufferNo,
    v: VersionNo,
    part: Span,
    images: &mut Vec<Span>,
) -> Result<(), OutOfMemory>
    requires { ReachesTo (L.record_at layers.now) b v (end_of part) }
    ensures layers { AreLayers (L.record_at layers.now) (L.rank layers.now) }
    ensures one { OneVersion (L.record_at layers.now) }
    ensures images { OnOk result (images.new.items ≡ images.old.items ++ down_within (L.record_at layers.now) 9 to b v part.start (end_of part)) }
{
    let placed = layers.placed(b, v);
    if b == to {
        images.push(part)?;
        return Ok(());
    }
    match placed {
        Placed::Base { .. } => Ok(()),
        Placed::Carrier { members, sources } => {
            let end = part.start + part.len;
            for index in first_member_behind(members, part.start)..members.count() {
                let at = members.place(index).start;
                if end <= at {
                    return Ok(());
                }
                if let Some(inner) = shown_by(sources, members.get(index), at, part) {
                    put_images(layers, to, inner.source, inner.version, inner.part, images)?;
                }
            }
            Ok(())
        }
    }
}

/// Where the units of a span of a version's text lie in a lower buffer, at the version of it that is
/// reached: the maximal runs of these places, by rising place, in UTF-16 units. There are none where
/// the span is empty or the buffer isn't reached; the top itself is reached.
///
/// It is `MapDownToBuffer` of the editor SDK's `IBufferGraph`. Of each carrier it looks only at
/// members that show a unit of the span, and it takes O(k log k) for k stretches found.
///
/// # Errors
///
/// Memory was refused.
pub fn down_span<L: Layers>(
    alloc: Global,
    layers: &L,
    top: BufferNo,
    v: VersionNo,
    span: Span,
    to: BufferNo,
) -> Result<SpanList, OutOfMemory>
    requires { ReachesTo (L.record_at layers.now) top v (end_of span) }
    ensures { IfOk result (λ spans. spans ≡ down_span (L.record_at layers.now) top v span to) }
{
    let mut images = Vec::new(alloc);
    put_images(layers, to, top, v, span, &mut images)?;
    let joined = join(alloc, &images)?;
    SpanList::of(alloc, joined)
}
