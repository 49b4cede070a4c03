//! Members of a projection that are replaced.
ghost use Rattle.std.specs.Prelude.{◌≡◌, ◌+◌, ◌-◌, ◌<◌, ◌≤◌, ◌^◌, true, false, All, length, map, slice_get, Some, Err, IfOk, MatchOption, MatchResult};
ghost use Rattle.ed_graph.specs.Standing.{IsLevelled, linked};
ghost use Rattle.ed_layers.specs.Records.{is_carrier, is_elision, members_len};
ghost use Rattle.ed_project.specs.Texts.{HasSource, no_steps};
ghost use Rattle.ed_stock.specs.Making.{spans_replaced};
ghost use Rattle.ed_stock.specs.Stock.{record_now};
ghost use Rattle.ed_group.specs.Answers.{LiesIn, members_now, spans_fault};
ghost use Rattle.ed_climb.specs.Refusals.{Refuses};
ghost use Rattle.ed_group.specs.Begun.{HasBegunSpans};
ghost use Rattle.ed_climb.specs.Kept.{IsKept};
ghost use Rattle.ed_held.specs.Seen.{known, stock};
ghost use Rattle.ed_climb.specs.declared.counts.Counts.{Counts};
ghost use Rattle.ed_held.specs.declared.held.Held.{Held};
ghost use Rattle.ed_held.specs.Respanning.{CanRespan, held_members};
ghost use Rattle.ed_group.specs.Spanning.{HasReshown, refusal_of, standing_fault};
ghost use Rattle.ed_climb.specs.declared.fault.PlanFault.{PlanFault};

use crate::listing::{lengths, newest_all, sources_in};
use crate::placing::joined;
use ed_base::{BufferNo, Member, OutOfMemory, Refusal};
use ed_climb::{PlanFault, units_limit};
use ed_graph::{Graph, LinkFault};
use ed_held::{Held, Planned, members_with, respan};
use ed_members::Members;
use ed_version::Snapshot;
use std::alloc::Global;

/// Why a buffer can't stand on sources, as it is told.
fn told(fault: &LinkFault) -> PlanFault
    ensures { MatchOption (refusal_of fault.now) (result ≡ PlanFault.OutOfMemory) (λ r. result ≡ PlanFault.Refused r) }
{
    match fault {
        LinkFault::Cycle { via } => PlanFault::Refused(Refusal::Cycle { via: *via }),
        LinkFault::Depth { height } => PlanFault::Refused(Refusal::Depth { height: *height }),
        LinkFault::OutOfMemory => PlanFault::OutOfMemory,
    }
}

/// The graph in which the buffer stands on these sources.
///
/// # Errors
///
/// A source stands on the buffer, or else buffers would be stacked too high, or memory was refused.
fn relinked(
    alloc: Global,
    graph: &Graph,
    buffer: BufferNo,
    sources: &[BufferNo],
) -> Result<Graph, PlanFault>
    requires there { buffer < length graph.now }
    requires sources_there { All (λ s. s < length graph.now) sources.now }
    ensures fault { Refuses (standing_fault graph.now buffer sources.now) result }
    ensures graph { IfOk result (λ g. g ≡ linked graph.now buffer sources.now) }
    ensures levelled { IfOk result IsLevelled }
{
    match graph.link(alloc, buffer, sources) {
        Ok(linked) => {
            let _order = linked.order();
            Ok(linked)
        }
        Err(fault) => Err(told(&fault)),
    }
}

/// Plans the version of one of these buffers, which is a projection, that shows these members.
///
/// # Errors
///
/// Memory was refused.
fn reshown(
    alloc: Global,
    buffers: &mut [Held],
    buffer: BufferNo,
    members: Members,
    first: u32,
    removed: u32,
    sources: &[Snapshot],
) -> Result<Planned, OutOfMemory>
    requires there { buffer < length buffers.old }
    requires part { (h : Held) → slice_get buffers.old buffer ≡ Some h → CanRespan h first removed members }
    requires sources_there { All (HasSource no_steps sources.now) members }
    requires fits { members_len members ≤ 2 ^ 22 }
    ensures same { map known buffers.new ≡ map known buffers.old }
    ensures reshown { (h : Held) → slice_get buffers.old buffer ≡ Some h → HasReshown sources.now buffers.old buffers.new buffer h first removed members result }
{
    let held = &mut buffers[buffer.0 as usize];
    respan(alloc, held, members, first, removed, sources)
}

/// The version with which the group begins that replaces members of a projection, and the graph with
/// its sources as they are then.
///
/// # Errors
///
/// Members don't cover their sources or conflict, a source stands on the projection, buffers would be
/// stacked too high, the text would have more than 2^22 units, or memory was refused.
pub fn begun(
    alloc: Global,
    buffers: &mut [Held],
    graph: &Graph,
    buffer: BufferNo,
    first: u32,
    removed: u32,
    added: Vec<Member>,
) -> Result<(Graph, Planned), PlanFault>
    requires kept { (counts : Counts) × IsKept (map known buffers.old) graph.now counts }
    requires there { buffer < length buffers.old }
    requires carrier { is_carrier (record_now (stock buffers.old) buffer) ≡ true }
    requires plain { is_elision (record_now (stock buffers.old) buffer) ≡ false }
    requires part { first + removed ≤ length (members_now (stock buffers.old) buffer) }
    requires inside { All (LiesIn (stock buffers.old)) added.items }
    ensures same { map known buffers.new ≡ map known buffers.old }
    ensures fault { MatchResult result (λ r. Unit {0}) (λ e. Refuses {X = Unit {0}} (spans_fault (stock buffers.old) buffer first removed added.items) (Err e)) }
    ensures begun { IfOk result (HasBegunSpans buffers.old buffers.new graph.now buffer first removed added.items) }
{
    let _order = graph.order();
    let all = &buffers[..];
    let list = members_with(alloc, &all[buffer.0 as usize], first, removed, added)?;
    let sources = sources_in(alloc, &list)?;
    let snapshots = newest_all(alloc, all, &sources)?;
    let lengths = lengths(alloc, &snapshots)?;
    let members = joined(alloc, list, &lengths)?;
    let linked = relinked(alloc, graph, buffer, &sources)?;
    if let Some(refusal) = units_limit(u64::from(members.len())) {
        return Err(PlanFault::Refused(refusal));
    }
    let next = reshown(alloc, buffers, buffer, members, first, removed, &snapshots)?;
    Ok((linked, next))
}
