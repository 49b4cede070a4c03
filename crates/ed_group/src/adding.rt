//! New buffers.
ghost use Rattle.std.specs.Prelude.{◌≡◌, ◌+◌, ◌<◌, ◌≤◌, ◌^◌, ◌++◌, ◌∷◌, [], All, length, map, None, IfOk, OnOk, OnErr};
ghost use Rattle.ed_stock.specs.Stock.{count};
ghost use Rattle.ed_group.specs.Answers.{LiesIn, base_fault, projection_fault, with_base, with_projection};
ghost use Rattle.ed_climb.specs.Refusals.{Refuses};
ghost use Rattle.ed_climb.specs.Kept.{IsKept};
ghost use Rattle.ed_risen.specs.Laws.{RecordsStay};
ghost use Rattle.ed_climb.specs.Limited.{new_limit};
ghost use Rattle.ed_held.specs.Seen.{known, stock};

use crate::listing::{lengths, newest_all, sources_in, tracked};
use crate::placing::{joined, placed};
use crate::stock::Stock;
use ed_base::{BufferNo, Member, Name, OutOfMemory, Refusal, Unit};
use ed_buffer::Base;
use ed_climb::{Counts, PlanFault, new_limit};
use ed_graph::Graph;
use ed_held::Held;
use ed_project::Projection;
use std::alloc::Global;

/// The numbers with a new buffer that opens with so many units, and has so many tracked members.
pub fn with_buffer(counts: &Counts, units: u64, tracked: u64) -> Counts
    requires units { counts.now.inserted + units < 2 ^ 64 }
    requires versions { counts.now.versions + 1 < 2 ^ 64 }
    requires tracked { counts.now.placements + tracked < 2 ^ 64 }
    ensures { result ≡ record { inserted = counts.now.inserted + units; versions = counts.now.versions + 1; placements = counts.now.placements + tracked } }
{
    Counts {
        inserted: counts.inserted + units,
        versions: counts.versions + 1,
        placements: counts.placements + tracked,
    }
}

impl Stock {
    /// Puts a buffer behind the others, and what is kept beside them then.
    pub(crate) fn put(
        &mut self,
        held: Held,
        graph: Graph,
        counts: Counts,
    ) -> Result<(), OutOfMemory>
        requires kept { IsKept (map known self.old ++ known held ∷ []) graph counts }
        ensures ok { OnOk result (self.new ≡ self.old ++ held ∷ []) }
        ensures err { OnErr result (self.new ≡ self.old) }
    {
        self.buffers.push(held)?;
        self.graph = graph;
        self.counts = counts;
        Ok(())
    }

    /// Adds a base buffer, which has this text, and gives its number.
    ///
    /// # Errors
    ///
    /// A limit is passed, or memory was refused.
    pub fn add_base(&mut self, alloc: Global, text: &[Unit]) -> Result<BufferNo, PlanFault>
        ensures fault { Refuses (base_fault (stock self.old) text.now) result }
        ensures number { IfOk result (λ b. b ≡ count (stock self.old)) }
        ensures ok { OnOk result (stock self.new ≡ with_base (stock self.old) text.now) }
        ensures err { OnErr result (stock self.new ≡ stock self.old) }
        ensures stay { RecordsStay (stock self.old) (stock self.new) }
    {
        let units = text.len() as u64;
        let counts = with_buffer(&self.counts, units, 0);
        let buffers = u64::from(self.graph.count());
        if let Some(refusal) = new_limit(buffers + 1, units, &counts, 0) {
            return Err(PlanFault::Refused(refusal));
        }
        let (graph, buffer) = self.graph.add(alloc)?;
        let base = Base::new(alloc, buffer, text)?;
        self.put(Held::Base(base), graph, counts)?;
        Ok(buffer)
    }

    /// Adds a projection of these members, over the current versions of their sources, and gives
    /// its number. The resolver, if one is named, is the rule by which changes of it are shared among
    /// the sources.
    ///
    /// # Errors
    ///
    /// Members don't cover their sources or conflict, buffers would be stacked too high, a limit is
    /// passed, or memory was refused.
    pub fn add_projection(
        &mut self,
        alloc: Global,
        members: Vec<Member>,
        resolver: Option<Name>,
    ) -> Result<BufferNo, PlanFault>
        requires inside { All (LiesIn (stock self.old)) members.items }
        ensures fault { Refuses (projection_fault (stock self.old) members.items) result }
        ensures number { IfOk result (λ b. b ≡ count (stock self.old)) }
        ensures ok { OnOk result (stock self.new ≡ with_projection (stock self.old) members.items resolver) }
        ensures err { OnErr result (stock self.new ≡ stock self.old) }
        ensures stay { RecordsStay (stock self.old) (stock self.new) }
    {
        let sources = sources_in(alloc, &members)?;
        let snapshots = newest_all(alloc, &self.buffers, &sources)?;
        let lengths = lengths(alloc, &snapshots)?;
        let follow = tracked(&members);
        let members = joined(alloc, members, &lengths)?;
        let (graph, buffer) = placed(alloc, &self.graph, &sources)?;
        let counts = with_buffer(&self.counts, 0, follow);
        let buffers = u64::from(self.graph.count());
        let units = u64::from(members.len());
        let most = u64::from(members.count());
        if let Some(refusal) = new_limit(buffers + 1, units, &counts, most) {
            return Err(PlanFault::Refused(refusal));
        }
        let projection = Projection::new(alloc, buffer, members, &snapshots, resolver)?;
        self.put(
            Held::Projection {
                projection,
                turns: 0,
            },
            graph,
            counts,
        )?;
        Ok(buffer)
    }
}
