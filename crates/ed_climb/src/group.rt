//! A group of versions that was planned and not yet made.
ghost use Rattle.std.specs.Prelude.{◌≡◌};

use crate::counts::Counts;
use ed_base::{BufferNo, VersionList};
use ed_graph::Graph;
use ed_held::Move;
use std::marker::Model;

/// What a commit will do to the stock: the versions that it makes, in the order of the graph.
#[derive(Drop)]
pub struct Group {
    pub(crate) moves: Vec<Move>,
    pub(crate) turned: Option<BufferNo>,
    pub(crate) graph: Graph,
    pub(crate) counts: Counts,
    pub(crate) versions: VersionList,
}

impl Model for Group {
    ghost use Rattle.ed_climb.specs.Group.{Plan};

    ghost Value = { Plan };

    ghost view = { λ g. record { moves = g.moves.items; turned = g.turned; graph = g.graph; counts = g.counts; versions = g.versions } };
}

impl Group {
    /// The versions that the commit will make and tell, in the order of the graph.
    pub fn versions(&self) -> &VersionList
        ensures { result.now ≡ self.now.versions }
    {
        &self.versions
    }
}
