//! The group of versions that were planned.
ghost use Rattle.std.specs.Prelude.{◌≡◌, ℕ, List, None, IfOk, map};
ghost use Rattle.ed_base.specs.Numbers.{first_some};
ghost use Rattle.ed_stock.specs.Limits.{stock_limits};
ghost use Rattle.ed_stock.specs.Versions.{versions_made};
ghost use Rattle.ed_climb.specs.Refusals.{Refuses};
ghost use Rattle.ed_climb.specs.Begins.{CanBegin, landed_from};
ghost use Rattle.ed_climb.specs.Counted.{counts_after, told};
ghost use Rattle.ed_climb.specs.Refusals.{carried_fault};
ghost use Rattle.ed_climb.specs.Group.{IsPlanned, outcome};
ghost use Rattle.ed_climb.specs.Kept.{IsKept};
ghost use Rattle.ed_climb.specs.Limited.{limit_of};
ghost use Rattle.ed_held.specs.Seen.{known, stock};

use crate::adding_up::{counts_after, versions_of};
use crate::beginning::FirstMoves;
use crate::climbing::climb;
use crate::counts::Counts;
use crate::fault::PlanFault;
use crate::group::Group;
use crate::limits::limit;
use crate::members::members_over;
use ed_base::{BufferNo, Refusal, Which};
use ed_graph::Graph;
use ed_held::{Held, Move};
use ed_project::ProjectionFault;
use std::alloc::Global;

/// The group of these versions, where the numbers of the stock don't pass their limits with them, and
/// no buffer has too many members, which is judged before.
///
/// # Errors
///
/// A limit is passed, or memory was refused.
fn group_of(
    alloc: Global,
    counts: &Counts,
    graph: Graph,
    moves: Vec<Move>,
    turned: Option<BufferNo>,
    members: Option<Refusal>,
) -> Result<Group, PlanFault>
    ensures fault { Refuses (limit_of None (counts_after counts.now moves.items) members) result }
    ensures moves { IfOk result (λ g. g.moves ≡ moves.items) }
    ensures turned { IfOk result (λ g. g.turned ≡ turned) }
    ensures graph { IfOk result (λ g. g.graph ≡ graph) }
    ensures counts { IfOk result (λ g. g.counts ≡ counts_after counts.now moves.items) }
    ensures versions { IfOk result (λ g. g.versions ≡ map told moves.items) }
{
    let counts = counts_after(counts, &moves)?;
    if let Some(refusal) = limit(None, &counts, members) {
        return Err(PlanFault::Refused(refusal));
    }
    let versions = versions_of(alloc, &moves)?;
    Ok(Group {
        moves,
        turned,
        graph,
        counts,
        versions,
    })
}

/// The fault of a projection or an elision buffer on the way as it is told.
fn carried(fault: ProjectionFault) -> PlanFault
    ensures { result ≡ carried_fault fault }
{
    match fault {
        ProjectionFault::Units { count } => PlanFault::Refused(Refusal::Limit {
            which: Which::Units,
            count,
        }),
        ProjectionFault::OutOfMemory => PlanFault::OutOfMemory,
    }
}

/// The group that begins with these versions: in the order of the graph, one of each buffer follows
/// that stands over a buffer with a new version.
///
/// # Errors
///
/// A limit is passed, or memory was refused.
pub fn group_from(
    alloc: Global,
    buffers: &mut [Held],
    counts: &Counts,
    first: FirstMoves,
) -> Result<Group, PlanFault>
    requires kept { (graph : List (List ℕ)) × IsKept (map known buffers.old) graph counts.now }
    requires begun { CanBegin buffers.old first }
    ensures same { map known buffers.new ≡ map known buffers.old }
    ensures fault { Refuses (first_some (stock_limits (landed_from (stock buffers.old) first).stock)) result }
    ensures planned { IfOk result (IsPlanned buffers.new) }
    ensures outcome { IfOk result (λ g. outcome (stock buffers.old) g ≡ (landed_from (stock buffers.old) first).stock) }
    ensures versions { IfOk result (λ g. g.versions ≡ versions_made (landed_from (stock buffers.old) first)) }
{
    let FirstMoves {
        graph,
        mut moves,
        mut steps,
        turned,
    } = first;
    if let Err(fault) = climb(alloc, buffers, graph.order(), &mut moves, &mut steps) {
        return Err(carried(fault));
    }
    let members = members_over(buffers, &moves, graph.order());
    group_of(alloc, counts, graph, moves, turned, members)
}
