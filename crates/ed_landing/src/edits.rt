//! Edits of any buffers, as the first versions of a group.
ghost use Rattle.std.specs.Prelude.{◌≡◌, ℕ, ◌+◌, ◌<◌, ◌≤◌, ◌^◌, false, All, Err, IfOk, MatchResult, length, map};
ghost use Rattle.ed_callbacks.specs.HookLists.{hook_table};
ghost use Rattle.ed_climb.specs.Begins.{LeadsTo};
ghost use Rattle.ed_climb.specs.Kept.{IsKept};
ghost use Rattle.ed_climb.specs.Refusals.{Refuses};
ghost use Rattle.ed_climb.specs.declared.counts.Counts.{Counts};
ghost use Rattle.ed_descent.specs.Edits.{own_units, units_of_carriers};
ghost use Rattle.ed_held.specs.Seen.{known, stock};
ghost use Rattle.ed_landing.specs.EditedStock.{edits_fault, edits_landed, told};
ghost use Rattle.ed_layers.specs.Records.{is_carrier};
ghost use Rattle.ed_stock.specs.Stock.{count, record_now, text_now};

use crate::landings::land_all;
use ed_callbacks::Hooks;
use ed_climb::{FirstMoves, PlanFault};
use ed_descent::{BufferEdit, DescentFault, sent_down};
use ed_graph::Graph;
use ed_held::Held;
use std::alloc::Global;

/// Why edits can't be sent down, as it is told.
fn told(fault: DescentFault) -> PlanFault
    ensures { result ≡ told fault }
{
    match fault {
        DescentFault::Refused(refusal) => PlanFault::Refused(refusal),
        DescentFault::OutOfMemory => PlanFault::OutOfMemory,
    }
}

/// The first versions of the group that these edits lead to: those of the bases that they reach. An
/// edit of a projection or an elision buffer is sent down to the bases.
///
/// # Errors
///
/// A projection or an elision buffer can't send on what arrives there, in the reverse of the graph's
/// order; or else a region denies a change, of the first base; or else the text of a base would have
/// more than 2^22 units; or memory was refused.
pub fn begun(
    alloc: Global,
    hooks: &Hooks,
    buffers: &mut [Held],
    graph: &Graph,
    edits: &[BufferEdit],
) -> Result<FirstMoves, PlanFault>
    requires kept { (counts : Counts) × IsKept (map known buffers.old) graph.now counts }
    requires there { All (λ e. e.buffer < count (stock buffers.old)) edits.now }
    requires from { All (λ e. e.changes.old_len ≡ length (text_now (stock buffers.old) e.buffer)) edits.now }
    requires carriers { units_of_carriers (stock buffers.old) edits.now ≤ 2 ^ 22 }
    requires bases { (b : ℕ) → is_carrier (record_now (stock buffers.old) b) ≡ false → own_units edits.now b + units_of_carriers (stock buffers.old) edits.now ≤ 2 ^ 27 }
    ensures same { map known buffers.new ≡ map known buffers.old }
    ensures fault { MatchResult result (λ f. Unit {0}) (λ e. Refuses {X = Unit {0}} (edits_fault (hook_table hooks.now) (stock buffers.old) edits.now) (Err e)) }
    ensures leads { IfOk result (LeadsTo buffers.new (edits_fault (hook_table hooks.now) (stock buffers.old) edits.now) (edits_landed (hook_table hooks.now) (stock buffers.old) edits.now)) }
{
    // The order is looked at for what is known of the graph's form.
    let order = graph.order();
    let boxes = match sent_down(alloc, hooks, &buffers[..], order, edits) {
        Ok(boxes) => boxes,
        Err(fault) => return Err(told(fault)),
    };
    let (moves, steps) = land_all(alloc, hooks, buffers, &boxes)?;
    Ok(FirstMoves {
        graph: graph.share()?,
        moves,
        steps,
        turned: None,
    })
}
