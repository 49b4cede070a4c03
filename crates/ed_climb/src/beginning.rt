//! The first versions of a group.

use ed_base::BufferNo;
use ed_graph::Graph;
use ed_held::Move;
use ed_members::SourceStep;

/// The first versions of a group, planned: those of the buffers that a command changes by itself.
#[derive(Drop)]
pub struct FirstMoves {
    /// Who will stand on whom.
    pub graph: Graph,
    /// The versions, in the order in which they will be told.
    pub moves: Vec<Move>,
    /// The step of each, as the buffers above see it.
    pub steps: Vec<SourceStep>,
    /// The buffer whose members are set once more, if one's are.
    pub turned: Option<BufferNo>,
}
