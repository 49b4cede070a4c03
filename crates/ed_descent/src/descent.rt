//! Edits on their way down.
ghost use Rattle.std.specs.Prelude.{◌≡◌, ℕ, ◌+◌, ◌<◌, ◌≤◌, ◌^◌, All, [], false, length, slice_index_or, sum_by, IfOk};
ghost use Rattle.ed_callbacks.specs.HookLists.{hook_table};
ghost use Rattle.ed_descent.specs.Edits.{own_units, pieces_of_edits, units_of_carriers};
ghost use Rattle.ed_descent.specs.InBoxes.{boxes_of};
ghost use Rattle.ed_descent.specs.Refusals.{Refuses};
ghost use Rattle.ed_descent.specs.Sends.{CanSend};
ghost use Rattle.ed_held.specs.Seen.{stock};
ghost use Rattle.ed_layers.specs.Records.{is_carrier};
ghost use Rattle.ed_pieces.specs.Arrivals.{AllWithin};
ghost use Rattle.ed_stock.specs.Landing.{down_fault, pieces_at, sent_down};
ghost use Rattle.ed_stock.specs.Stock.{count, graph_order, record_now, text_now};

use crate::boxes::edit_boxes;
use crate::edit::BufferEdit;
use crate::fault::DescentFault;
use crate::passing::pass;
use ed_base::{BufferNo, Piece};
use ed_callbacks::Hooks;
use ed_held::Held;
use std::alloc::Global;

/// The pieces that edits bring to each buffer, by number, once each carrier has sent on what arrived
/// there: those of bases are what lands there.
///
/// # Errors
///
/// The first part that a carrier can't send on answers, in the reverse of the graph's order: it
/// deletes a unit of a literal, or no member takes it. Want of memory may come in place of any answer.
pub fn sent_down(
    alloc: Global,
    hooks: &Hooks,
    buffers: &[Held],
    order: &[BufferNo],
    edits: &[BufferEdit],
) -> Result<Vec<Vec<Piece>>, DescentFault>
    requires ready { CanSend buffers.now }
    requires order { order.now ≡ graph_order (stock buffers.now) }
    requires there { All (λ e. e.buffer < count (stock buffers.now)) edits.now }
    requires from { All (λ e. e.changes.old_len ≡ length (text_now (stock buffers.now) e.buffer)) edits.now }
    requires carriers { units_of_carriers (stock buffers.now) edits.now ≤ 2 ^ 22 }
    ensures fault { Refuses (down_fault (hook_table hooks.now) (stock buffers.now) (pieces_of_edits edits.now)) result }
    ensures count { IfOk result (λ v. length v.items ≡ count (stock buffers.now)) }
    ensures pieces { IfOk result (λ v. (b : ℕ) → b < count (stock buffers.now) → slice_index_or (boxes_of v.items) b [] ≡ pieces_at (sent_down (hook_table hooks.now) (stock buffers.now) (pieces_of_edits edits.now)) b) }
    ensures inside { IfOk result (λ v. (b : ℕ) → b < count (stock buffers.now) → AllWithin (length (text_now (stock buffers.now) b)) (slice_index_or (boxes_of v.items) b [])) }
    ensures put_in { IfOk result (λ v. (b : ℕ) → b < count (stock buffers.now) → is_carrier (record_now (stock buffers.now) b) ≡ false → sum_by (λ p. length p.text) (slice_index_or (boxes_of v.items) b []) ≤ own_units edits.now b + units_of_carriers (stock buffers.now) edits.now) }
{
    let mut boxes = edit_boxes(alloc, buffers.len(), edits)?;
    let mut left = order.len();
    while left > 0 {
        left -= 1;
        if let Err(fault) = pass(alloc, hooks, buffers, order[left], &mut boxes) {
            return Err(fault);
        }
    }
    Ok(boxes)
}
