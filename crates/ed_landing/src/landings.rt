//! All bases on which pieces land.
ghost use Rattle.std.specs.Prelude.{◌≡◌, ℕ, [], ◌+◌, ◌<◌, ◌≤◌, ◌^◌, List, length, map, true, Err, IfOk, MatchResult, OnOk, Some, slice_get, slice_index_or};
ghost use Rattle.ed_base.specs.declared.Piece.{Piece};
ghost use Rattle.ed_buffer.specs.Planning.{put_in};
ghost use Rattle.ed_callbacks.specs.HookLists.{hook_table};
ghost use Rattle.ed_members.specs.Steps.{step_seen};
ghost use Rattle.ed_held.specs.declared.held.Held.{Held};
ghost use Rattle.ed_held.specs.Landing.{CanLand};
ghost use Rattle.ed_held.specs.Moves.{move_seen};
ghost use Rattle.ed_held.specs.Seen.{known, stock};
ghost use Rattle.ed_landing.specs.Bases.{after_fault, is_met};
ghost use Rattle.ed_landing.specs.Landings.{AllLanded, GoesOn, HaveArrived, SoFar, StandOn, landing_fault};
ghost use Rattle.ed_climb.specs.Refusals.{Refuses};
ghost use Rattle.ed_descent.specs.InBoxes.{boxes_of};

use crate::bases::{is_met, land};
use ed_base::{BufferNo, Piece, Refusal, Which};
use ed_buffer::BaseFault;
use ed_callbacks::Hooks;
use ed_climb::PlanFault;
use ed_held::{Held, Move};
use ed_members::SourceStep;
use std::alloc::Global;

/// What a fault of a base comes to: a text that would be too long is told when all have been looked
/// at, the first one.
fn after(buffer: BufferNo, fault: BaseFault, long: Option<u64>) -> Result<Option<u64>, PlanFault>
    ensures { result ≡ after_fault buffer long fault }
{
    match fault {
        BaseFault::ReadOnly { region } => {
            Err(PlanFault::Refused(Refusal::ReadOnly { buffer, region }))
        }
        BaseFault::Units { count } => Ok(Some(long.unwrap_or(count))),
        BaseFault::OutOfMemory => Err(PlanFault::OutOfMemory),
    }
}

/// Looks at the next buffer: where it is a base that pieces have reached, its version is planned as
/// one more first move, unless its text would be too long. Gives how long the first one is of which
/// that is so.
///
/// # Errors
///
/// A region denies a change, or memory was refused.
fn visit(
    alloc: Global,
    hooks: &Hooks,
    buffers: &mut [Held],
    buffer: BufferNo,
    pieces: &[Piece],
    long: Option<u64>,
    moves: &mut Vec<Move>,
    steps: &mut Vec<SourceStep>,
) -> Result<Option<u64>, PlanFault>
    requires there { buffer < length buffers.old }
    requires can { (h : Held) → slice_get buffers.old buffer ≡ Some h → is_met h pieces.now ≡ true → CanLand h pieces.now }
    requires put_in { (h : Held) → slice_get buffers.old buffer ≡ Some h → is_met h pieces.now ≡ true → put_in pieces.now ≤ 2 ^ 27 }
    requires seen { map (λ s. (s.source, step_seen s)) steps.old.items ≡ map move_seen moves.old.items }
    ensures same { map known buffers.new ≡ map known buffers.old }
    ensures seen { OnOk result (map (λ s. (s.source, step_seen s)) steps.new.items ≡ map move_seen moves.new.items) }
    ensures on { (hs : List Held) (graph : List (List ℕ)) (pending : List (ℕ × Piece)) (boxes : List (List Piece)) → StandOn hs graph → HaveArrived (stock hs) pending boxes → slice_index_or boxes buffer [] ≡ pieces.now → SoFar (hook_table hooks.now) hs graph pending buffer buffers.old moves.old.items long → GoesOn (hook_table hooks.now) hs graph pending (buffer + 1) buffers.new moves.new.items result }
{
    if !is_met(buffers, buffer, pieces) {
        return Ok(long);
    }
    match land(alloc, hooks, buffers, buffer, pieces, moves, steps) {
        Ok(()) => Ok(long),
        Err(fault) => after(buffer, fault, long),
    }
}

/// Plans the version of each base that pieces have reached, by number, as first moves, with the steps
/// of these bases as the buffers above see them.
///
/// # Errors
///
/// A region denies a change of a base, the first one; or else a text would have more than 2^22 units,
/// the first one that would; or memory was refused.
pub fn land_all(
    alloc: Global,
    hooks: &Hooks,
    buffers: &mut [Held],
    boxes: &[Vec<Piece>],
) -> Result<(Vec<Move>, Vec<SourceStep>), PlanFault>
    requires each { length boxes.now ≡ length buffers.old }
    requires few { length boxes.now < 2 ^ 32 }
    requires arrived { (graph : List (List ℕ)) × (pending : List (ℕ × Piece)) × StandOn buffers.old graph × HaveArrived (stock buffers.old) pending (boxes_of boxes.now) }
    ensures same { map known buffers.new ≡ map known buffers.old }
    ensures seen { IfOk result (λ r. map (λ s. (s.source, step_seen s)) r.1.items ≡ map move_seen r.0.items) }
    ensures landed { (graph : List (List ℕ)) (pending : List (ℕ × Piece)) → StandOn buffers.old graph → HaveArrived (stock buffers.old) pending (boxes_of boxes.now) → MatchResult result (λ r. AllLanded (hook_table hooks.now) buffers.old graph pending buffers.new r.0.items) (λ e. Refuses {X = Unit {0}} (landing_fault (hook_table hooks.now) (stock buffers.old) pending) (Err e)) }
{
    let mut moves = Vec::new(alloc);
    let mut steps = Vec::new(alloc);
    let mut long = None;
    for index in 0..boxes.len() {
        let buffer = BufferNo(index as u32);
        let pieces = boxes[index].as_slice();
        long = visit(
            alloc, hooks, buffers, buffer, pieces, long, &mut moves, &mut steps,
        )?;
    }
    if let Some(count) = long {
        let which = Which::Units;
        return Err(PlanFault::Refused(Refusal::Limit { which, count }));
    }
    Ok((moves, steps))
}
