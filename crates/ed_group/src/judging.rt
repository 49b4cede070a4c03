//! Projections and elision buffers that aren't made.
ghost use Rattle.std.specs.Prelude.{◌+◌, ◌<◌, [], ◌∷◌, All};
ghost use Rattle.ed_climb.specs.Refusals.{Refuses};
ghost use Rattle.ed_group.specs.Answers.{LiesIn};
ghost use Rattle.ed_group.specs.Judging.{standing_fault};
ghost use Rattle.ed_held.specs.Seen.{stock};
ghost use Rattle.ed_stock.specs.Linking.{depth};
ghost use Rattle.ed_stock.specs.Stock.{count};

use crate::listing::{lengths, newest_all, sources_in};
use crate::placing::{joined, placed};
use crate::stock::Stock;
use ed_base::{BufferNo, Member};
use ed_climb::PlanFault;
use std::alloc::Global;

impl Stock {
    /// Whether a new projection could have these members, but for limits. Nothing is made.
    ///
    /// # Errors
    ///
    /// Members don't cover their sources or conflict, buffers would be stacked too high, or memory
    /// was refused.
    pub fn judge_projection(&self, alloc: Global, members: Vec<Member>) -> Result<(), PlanFault>
        requires inside { All (LiesIn (stock self.now)) members.items }
        ensures { Refuses (standing_fault (stock self.now) members.items) result }
    {
        let sources = sources_in(alloc, &members)?;
        let snapshots = newest_all(alloc, &self.buffers, &sources)?;
        let lengths = lengths(alloc, &snapshots)?;
        joined(alloc, members, &lengths)?;
        placed(alloc, &self.graph, &sources)?;
        Ok(())
    }

    /// Whether a new elision buffer could stand over this buffer, but for limits. Nothing is made.
    ///
    /// # Errors
    ///
    /// Buffers would be stacked too high, or memory was refused.
    pub fn judge_elision(&self, alloc: Global, source: BufferNo) -> Result<(), PlanFault>
        requires there { source < count (stock self.now) }
        ensures { Refuses (depth (stock self.now) (count (stock self.now) + 1) (count (stock self.now)) (source ∷ [])) result }
    {
        placed(alloc, &self.graph, &[source])?;
        Ok(())
    }
}
