//! The stock as a value.
ghost use Rattle.std.specs.Prelude.{◌≡◌, ◌<◌, length};
ghost use Rattle.ed_stock.specs.Stock.{empty_stock};
ghost use Rattle.ed_held.specs.Seen.{stock};

use ed_climb::Counts;
use ed_graph::Graph;
use ed_held::Held;
use std::alloc::Global;
use std::marker::Model;

/// All buffers, by number, and the graph that they make, after `IBufferGraph` of the editor SDK.
/// Contracts see the records of all versions; texts are kept beside them.
#[derive(Drop)]
pub struct Stock {
    pub(crate) buffers: Vec<Held>,
    pub(crate) graph: Graph,
    pub(crate) counts: Counts,
}

impl Model for Stock {
    ghost use Rattle.std.specs.Prelude.{List, map};
    ghost use Rattle.ed_held.specs.declared.held.Held.{Held};
    ghost use Rattle.ed_held.specs.Seen.{known};
    ghost use Rattle.ed_climb.specs.Kept.{IsKept};

    ghost Value = { List Held };

    ghost view = { λ s. s.buffers.items };

    ghost invariant = { λ s. IsKept (map known s.buffers.items) s.graph s.counts };
}

impl Stock {
    /// A stock without buffers. It takes no memory.
    pub fn new(alloc: Global) -> Stock
        ensures { stock result ≡ empty_stock }
    {
        Stock {
            buffers: Vec::new(alloc),
            graph: Graph::new(),
            counts: Counts {
                inserted: 0,
                versions: 0,
                placements: 0,
            },
        }
    }
}
