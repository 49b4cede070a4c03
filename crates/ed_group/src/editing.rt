//! Edits of any buffers, planned.
ghost use Rattle.std.specs.Prelude.{◌≡◌, ℕ, ◌+◌, ◌<◌, ◌≤◌, ◌^◌, false, All, IfOk, length, map};
ghost use Rattle.ed_callbacks.specs.HookLists.{hook_table};
ghost use Rattle.ed_layers.specs.Records.{is_carrier};
ghost use Rattle.ed_stock.specs.Stock.{count, record_now, text_now};
ghost use Rattle.ed_stock.specs.Versions.{versions_made};
ghost use Rattle.ed_climb.specs.Group.{IsPlanned, outcome};
ghost use Rattle.ed_climb.specs.Kept.{IsKept};
ghost use Rattle.ed_climb.specs.Refusals.{Refuses};
ghost use Rattle.ed_descent.specs.Edits.{own_units, units_of_carriers};
ghost use Rattle.ed_held.specs.Seen.{known, stock};
ghost use Rattle.ed_landing.specs.EditedStock.{edits_fault, edits_landed};

use crate::stock::Stock;
use ed_callbacks::Hooks;
use ed_climb::{Counts, Group, PlanFault, group_from};
use ed_graph::Graph;
use ed_held::Held;
use ed_landing::{BufferEdit, begun};
use std::alloc::Global;

/// Plans the group that these edits lead to, where this is kept beside the buffers.
fn planned(
    alloc: Global,
    hooks: &Hooks,
    buffers: &mut [Held],
    graph: &Graph,
    counts: &Counts,
    edits: &[BufferEdit],
) -> Result<Group, PlanFault>
    requires kept { IsKept (map known buffers.old) graph.now counts.now }
    requires there { All (λ e. e.buffer < count (stock buffers.old)) edits.now }
    requires from { All (λ e. e.changes.old_len ≡ length (text_now (stock buffers.old) e.buffer)) edits.now }
    requires carriers { units_of_carriers (stock buffers.old) edits.now ≤ 2 ^ 22 }
    requires bases { (b : ℕ) → is_carrier (record_now (stock buffers.old) b) ≡ false → own_units edits.now b + units_of_carriers (stock buffers.old) edits.now ≤ 2 ^ 27 }
    ensures same { map known buffers.new ≡ map known buffers.old }
    ensures fault { Refuses (edits_fault (hook_table hooks.now) (stock buffers.old) edits.now) result }
    ensures planned { IfOk result (IsPlanned buffers.new) }
    ensures outcome { IfOk result (λ g. outcome (stock buffers.old) g ≡ (edits_landed (hook_table hooks.now) (stock buffers.old) edits.now).stock) }
    ensures versions { IfOk result (λ g. g.versions ≡ versions_made (edits_landed (hook_table hooks.now) (stock buffers.old) edits.now)) }
{
    let first = begun(alloc, hooks, buffers, graph, edits)?;
    group_from(alloc, buffers, counts, first)
}

impl Stock {
    /// Plans edits of any buffers as one group. What is done to a projection or an elision buffer is
    /// sent down to the bases through all that stands between; each base that is reached gets one
    /// version, by number, and then each buffer that stands over one with a new version, in the order
    /// of the graph.
    /// Changes that do nothing make no version. Contracts see the stock as it was, also after a
    /// fault: only room is reserved.
    ///
    /// The edits of projections and elision buffers together put in at most 2^22 units, and with those
    /// of any one base at most 2^27.
    ///
    /// # Errors
    ///
    /// A projection or an elision buffer can't send on what arrives there, in the reverse of the
    /// graph's order; or else a read-only region denies a change, of the first base; or else a limit
    /// is passed; or memory was refused.
    pub fn plan(
        &mut self,
        alloc: Global,
        hooks: &Hooks,
        edits: &[BufferEdit],
    ) -> Result<Group, PlanFault>
        requires there { All (λ e. e.buffer < count (stock self.old)) edits.now }
        requires from { All (λ e. e.changes.old_len ≡ length (text_now (stock self.old) e.buffer)) edits.now }
        requires carriers { units_of_carriers (stock self.old) edits.now ≤ 2 ^ 22 }
        requires bases { (b : ℕ) → is_carrier (record_now (stock self.old) b) ≡ false → own_units edits.now b + units_of_carriers (stock self.old) edits.now ≤ 2 ^ 27 }
        ensures same { stock self.new ≡ stock self.old }
        ensures fault { Refuses (edits_fault (hook_table hooks.now) (stock self.old) edits.now) result }
        ensures planned { IfOk result (IsPlanned self.new) }
        ensures outcome { IfOk result (λ g. outcome (stock self.old) g ≡ (edits_landed (hook_table hooks.now) (stock self.old) edits.now).stock) }
        ensures versions { IfOk result (λ g. g.versions ≡ versions_made (edits_landed (hook_table hooks.now) (stock self.old) edits.now)) }
    {
        planned(
            alloc,
            hooks,
            &mut self.buffers,
            &self.graph,
            &self.counts,
            edits,
        )
    }
}
