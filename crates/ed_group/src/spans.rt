//! Members of projections that are replaced, planned.
ghost use Rattle.std.specs.Prelude.{◌≡◌, ◌+◌, ◌<◌, ◌≤◌, true, false, length, map, slice_get, All, Err, IfOk, MatchResult, Some};
ghost use Rattle.ed_layers.specs.Records.{is_carrier, is_elision};
ghost use Rattle.ed_stock.specs.Making.{spans_set};
ghost use Rattle.ed_stock.specs.Stock.{count, record_now};
ghost use Rattle.ed_stock.specs.Versions.{versions_made};
ghost use Rattle.ed_group.specs.Answers.{LiesIn, members_now, spans_fault};
ghost use Rattle.ed_climb.specs.Refusals.{Refuses};
ghost use Rattle.ed_climb.specs.Begins.{LeadsTo};
ghost use Rattle.ed_climb.specs.declared.counts.Counts.{Counts};
ghost use Rattle.ed_climb.specs.Group.{IsPlanned, outcome};
ghost use Rattle.ed_held.specs.Making.{CanTurn};
ghost use Rattle.ed_climb.specs.Kept.{IsKept};
ghost use Rattle.ed_held.specs.declared.held.Held.{Held};
ghost use Rattle.ed_held.specs.Seen.{known, stock};

use crate::spanning::begun;
use crate::stock::Stock;
use ed_base::{BufferNo, Member};
use ed_climb::{FirstMoves, Group, PlanFault, add, group_from};
use ed_graph::Graph;
use ed_held::Held;
use ed_pieces::Trails;
use std::alloc::Global;

/// Whether members of one of these buffers can be set once more.
pub fn may_turn(buffers: &[Held], buffer: BufferNo) -> bool
    requires { buffer < length buffers.now }
    ensures { (h : Held) → slice_get buffers.now buffer ≡ Some h → result ≡ true → CanTurn h }
{
    buffers[buffer.0 as usize].can_turn()
}

/// The beginning of a group to which replaced members of a projection lead: its own version.
///
/// # Errors
///
/// Members don't cover their sources or conflict, a source stands on the projection, buffers would be
/// stacked too high, the text would have more than 2^22 units, or memory was refused.
fn replaced(
    alloc: Global,
    buffers: &mut [Held],
    graph: &Graph,
    buffer: BufferNo,
    first: u32,
    removed: u32,
    added: Vec<Member>,
) -> Result<FirstMoves, PlanFault>
    requires kept { (counts : Counts) × IsKept (map known buffers.old) graph.now counts }
    requires there { buffer < count (stock buffers.old) }
    requires carrier { is_carrier (record_now (stock buffers.old) buffer) ≡ true }
    requires plain { is_elision (record_now (stock buffers.old) buffer) ≡ false }
    requires part { first + removed ≤ length (members_now (stock buffers.old) buffer) }
    requires inside { All (LiesIn (stock buffers.old)) added.items }
    ensures same { map known buffers.new ≡ map known buffers.old }
    ensures fault { MatchResult result (λ f. Unit {0}) (λ e. Refuses {X = Unit {0}} (spans_fault (stock buffers.old) buffer first removed added.items) (Err e)) }
    ensures leads { IfOk result (LeadsTo buffers.new (spans_fault (stock buffers.old) buffer first removed added.items) (spans_set (stock buffers.old) buffer first removed added.items)) }
{
    if !may_turn(buffers, buffer) {
        return Err(PlanFault::OutOfMemory);
    }
    // The order is looked at for what is known of the graph's form.
    let _order = graph.order();
    let (graph, next) = begun(alloc, buffers, graph, buffer, first, removed, added)?;
    let mut moves = Vec::new(alloc);
    let mut steps = Vec::new(alloc);
    add(buffer, next, Trails::empty(), &mut moves, &mut steps)?;
    Ok(FirstMoves {
        graph,
        moves,
        steps,
        turned: Some(buffer),
    })
}

impl Stock {
    /// Plans that `removed` members of a projection from `first` on are replaced by these, with the
    /// version of each buffer that stands over it: the projection's own comes first, then the others
    /// in the order of the graph. The projection makes a version also where nothing differs. Contracts
    /// see the stock as it was, also after a fault: only room is reserved.
    ///
    /// # Errors
    ///
    /// Members don't cover their sources or conflict, a source stands on the projection, buffers would
    /// be stacked too high, a limit is passed, or memory was refused.
    pub fn plan_spans(
        &mut self,
        alloc: Global,
        b: BufferNo,
        first: u32,
        removed: u32,
        members: Vec<Member>,
    ) -> Result<Group, PlanFault>
        requires there { b < count (stock self.old) }
        requires carrier { is_carrier (record_now (stock self.old) b) ≡ true }
        requires plain { is_elision (record_now (stock self.old) b) ≡ false }
        requires part { first + removed ≤ length (members_now (stock self.old) b) }
        requires inside { All (LiesIn (stock self.old)) members.items }
        ensures same { stock self.new ≡ stock self.old }
        ensures fault { Refuses (spans_fault (stock self.old) b first removed members.items) result }
        ensures planned { IfOk result (IsPlanned self.new) }
        ensures outcome { IfOk result (λ g. outcome (stock self.old) g ≡ (spans_set (stock self.old) b first removed members.items).stock) }
        ensures versions { IfOk result (λ g. g.versions ≡ versions_made (spans_set (stock self.old) b first removed members.items)) }
    {
        let first = replaced(
            alloc,
            &mut self.buffers,
            &self.graph,
            b,
            first,
            removed,
            members,
        )?;
        group_from(alloc, &mut self.buffers, &self.counts, first)
    }
}
