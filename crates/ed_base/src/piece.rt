//! Members of projections, and pieces of an edit on their way down.
ghost use Rattle.std.specs.Prelude.{◌≡◌, List, ◌∷◌, [], ◌++◌, IfOk};

use crate::edit::Span;
use crate::memory::OutOfMemory;
use crate::mode::SpanMode;
use crate::numbers::BufferNo;
use crate::shared::SharedList;
use crate::units::{Unit, Units};
use std::alloc::Global;

/// A member of a projection: a text of its own, whose units all versions share, or a span of a source
/// that follows it.
#[derive(Drop)]
pub enum Member {
    Literal(SharedList<Unit>),
    Tracked {
        source: BufferNo,
        bounds: Span,
        mode: SpanMode,
    },
}

/// The carriers and members through which a text came, the highest carrier first: each carrier
/// with the index of its member.
pub type Trail = SharedList<(BufferNo, u32)>;

impl SharedList<(BufferNo, u32)> {
    /// The trail with one more pair, which stands last.
    ///
    /// # Errors
    ///
    /// Memory was refused.
    pub fn lengthened(
        &self,
        alloc: Global,
        carrier: BufferNo,
        member: u32,
    ) -> Result<Trail, OutOfMemory>
        ensures { IfOk result (λ t. t ≡ self.now ++ (carrier, member) ∷ []) }
    {
        let mut pairs = Vec::new(alloc);
        pairs.extend_from_slice(self.as_slice())?;
        pairs.push((carrier, member))?;
        SharedList::of(alloc, pairs)
    }
}

/// Where a piece stands among those that meet at one gap: at the left of the carriers' texts, by
/// itself, or at their right.
#[derive(Clone, Copy, Debug, PartialEq, Eq)]
pub enum Side {
    L,
    M,
    R,
}

/// A part of an edit that has arrived at a buffer: the replace, and how it came there.
#[derive(Drop)]
pub struct Piece {
    pub start: u32,
    pub len: u32,
    pub text: Units,
    pub trail: Trail,
    pub side: Side,
}
