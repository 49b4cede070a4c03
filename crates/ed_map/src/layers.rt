//! What a mapping asks of the buffers.
ghost use Rattle.std.specs.Prelude.{◌≡◌, ℕ, Option, IfSome, IsSome};
ghost use Rattle.ed_layers.specs.Records.{Record};
ghost use Rattle.ed_map.specs.Layers.{AreLayers, OneVersion, record_len};

use ed_base::{BufferNo, VersionList, VersionNo};
use ed_members::Members;

/// What a version of a buffer is: a base's text, of which the length in UTF-16 units is told, or the
/// members of a projection or of an elision buffer, with the version of each source.
#[derive(Clone, Copy)]
pub enum Placed<'a> {
    Base {
        len: u32,
    },
    Carrier {
        members: &'a Members,
        sources: &'a VersionList,
    },
}

/// Buffers over buffers, with all their versions, as `IBufferGraph` of the editor SDK has them.
pub trait Layers {
    ghost use Rattle.ed_map.specs.Placing.{IsPlaced};

    // The record of each version that is there, by buffer and version.
    ghost record_at: { Self → ℕ → ℕ → Option Record };

    // A number for each version, at most 8 and greater than that of each version that it names.
    ghost rank: { Self → ℕ → ℕ → ℕ };

    /// What this version of this buffer is. The members of an elision buffer are its shown runs. It
    /// takes no memory.
    ///
    /// That the versions are in layers, and that a version reaches each buffer at one version by
    /// whatever path, is a promise of whoever implements this.
    fn placed(&self, b: BufferNo, v: VersionNo) -> Placed<'_>
        requires { IsSome (record_at self.now b v) }
        ensures placed { IfSome (record_at self.now b v) (λ r. IsPlaced r result) }
        ensures layers { AreLayers (record_at self.now) (rank self.now) }
        ensures one { OneVersion (record_at self.now) };
}

impl Placed<'_> {
    ghost use Rattle.ed_map.specs.Placing.{IsPlaced};

    /// The length of the version's text, in units.
    pub fn len(&self) -> u32
        ensures { (r : Record) → IsPlaced r self.now → result ≡ record_len r }
    {
        match self {
            Placed::Base { len } => *len,
            Placed::Carrier { members, .. } => members.len(),
        }
    }
}
