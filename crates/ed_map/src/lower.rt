//! Versions that a version reaches.
ghost use Rattle.std.specs.Prelude.{◌≡◌, IfSome, IsSome};
ghost use Rattle.ed_layers.specs.Mapping.{lower_version};

use crate::layers::{Layers, Placed};
use ed_base::{BufferNo, VersionNo};

/// The version of a buffer that a version reaches: the first that is found along the sources, none
/// exactly where the buffer isn't reached. A version reaches itself. It takes no memory.
pub fn lower_version<L: Layers>(
    layers: &L,
    top: BufferNo,
    v: VersionNo,
    of: BufferNo,
) -> Option<VersionNo>
    requires { IsSome (L.record_at layers.now top v) }
    ensures version { result ≡ lower_version (L.record_at layers.now) top v of }
    ensures there { IfSome result (λ w. IsSome (L.record_at layers.now of w)) }
{
    let placed = layers.placed(top, v);
    if top == of {
        return Some(v);
    }
    match placed {
        Placed::Base { .. } => None,
        Placed::Carrier { sources, .. } => {
            for entry in sources.as_slice() {
                let (source, version) = *entry;
                if let Some(found) = lower_version(layers, source, version, of) {
                    return Some(found);
                }
            }
            None
        }
    }
}
