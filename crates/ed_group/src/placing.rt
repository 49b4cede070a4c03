//! The members and the links of a projection, judged.
ghost use Rattle.std.specs.Prelude.{◌≡◌, ◌+◌, ◌<◌, ◌^◌, ◌++◌, ◌∷◌, [], All, length, IfOk, MatchOption};
ghost use Rattle.ed_graph.specs.Standing.{IsLevelled, linked};
ghost use Rattle.ed_members.specs.Faults.{first_fault, len_in, refusal_of};
ghost use Rattle.ed_climb.specs.Refusals.{Refuses};
ghost use Rattle.ed_group.specs.Placed.{too_deep};
ghost use Rattle.ed_climb.specs.declared.fault.PlanFault.{PlanFault};

use ed_base::{BufferNo, Member, Refusal};
use ed_climb::PlanFault;
use ed_graph::{Graph, LinkFault};
use ed_members::{MemberFault, Members};
use std::alloc::Global;

/// Why members can't stand together, as it is told.
fn told(fault: MemberFault) -> PlanFault
    ensures { MatchOption (refusal_of fault) (result ≡ PlanFault.OutOfMemory) (λ r. result ≡ PlanFault.Refused r) }
{
    match fault {
        MemberFault::Mode { index } => PlanFault::Refused(Refusal::Mode { index }),
        MemberFault::Overlap { index, other } => {
            PlanFault::Refused(Refusal::Overlap { index, other })
        }
        MemberFault::OutOfMemory => PlanFault::OutOfMemory,
    }
}

/// These members, over sources of these lengths.
///
/// # Errors
///
/// Members don't cover their sources or conflict, or memory was refused.
pub fn joined(
    alloc: Global,
    list: Vec<Member>,
    lengths: &[(BufferNo, u32)],
) -> Result<Members, PlanFault>
    ensures fault { Refuses (first_fault (len_in lengths.now) list.items) result }
    ensures members { IfOk result (λ m. m ≡ list.items) }
    ensures few { IfOk result (λ m. length m < 2 ^ 32) }
{
    match Members::of(alloc, list, lengths) {
        Ok(members) => Ok(members),
        Err(fault) => Err(told(fault)),
    }
}

/// The graph with one buffer more, which stands on these sources, and that buffer's number.
///
/// # Errors
///
/// Buffers would be stacked too high, or memory was refused.
pub fn placed(
    alloc: Global,
    graph: &Graph,
    sources: &[BufferNo],
) -> Result<(Graph, BufferNo), PlanFault>
    requires few { length graph.now + 1 < 2 ^ 32 }
    requires there { All (λ s. s < length graph.now) sources.now }
    ensures fault { Refuses (too_deep (linked (graph.now ++ [] ∷ []) (length graph.now) sources.now)) result }
    ensures graph { IfOk result (λ r. r.0 ≡ linked (graph.now ++ [] ∷ []) (length graph.now) sources.now) }
    ensures levelled { IfOk result (λ r. IsLevelled r.0) }
    ensures number { IfOk result (λ r. r.1 ≡ length graph.now) }
{
    let (grown, buffer) = graph.add(alloc)?;
    match grown.link(alloc, buffer, sources) {
        Ok(linked) => {
            let _order = linked.order();
            Ok((linked, buffer))
        }
        Err(LinkFault::Depth { height }) => Err(PlanFault::Refused(Refusal::Depth { height })),
        // Nothing stands on a buffer that is new.
        Err(LinkFault::Cycle { .. }) => Err(PlanFault::OutOfMemory),
        Err(LinkFault::OutOfMemory) => Err(PlanFault::OutOfMemory),
    }
}
