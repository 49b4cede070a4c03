//! The way of a group through the buffers above those that it changes.
ghost use Rattle.std.specs.Prelude.{◌≡◌, ℕ, List, ◌<◌, ◌++◌, ◌∷◌, [], true, length, map, Some, OnOk, slice_get};
ghost use Rattle.ed_members.specs.Steps.{step_seen};
ghost use Rattle.ed_stock.specs.Versions.{step_in};
ghost use Rattle.ed_held.specs.declared.held.Held.{Held};
ghost use Rattle.ed_climb.specs.Climbing.{CanRise, HasTurned, goes};
ghost use Rattle.ed_held.specs.Moves.{move_seen};
ghost use Rattle.ed_climb.specs.Route.{Climbs, HasClimbed, IsRoute, Route};
ghost use Rattle.ed_held.specs.Seen.{known};

use crate::rising::{is_over, rise};
use crate::sources::{move_of, step_by};
use ed_base::{BufferNo, OutOfMemory};
use ed_held::{Held, Move, Planned};
use ed_members::SourceStep;
use ed_pieces::Trails;
use ed_project::ProjectionFault;
use std::alloc::Global;

/// Whether a buffer that hasn't moved stands over one that has.
fn goes(buffers: &[Held], buffer: BufferNo, moves: &[Move]) -> bool
    requires { buffer < length buffers.now }
    ensures { (h : Held) → slice_get buffers.now buffer ≡ Some h → result ≡ goes moves.now buffer h }
{
    move_of(moves, buffer).is_none() && is_over(&buffers[buffer.0 as usize], moves)
}

/// Adds a version that was planned, whose units came these ways, and its step, as the members above
/// see it.
///
/// # Errors
///
/// Memory was refused.
pub fn add(
    buffer: BufferNo,
    planned: Planned,
    trails: Trails,
    moves: &mut Vec<Move>,
    steps: &mut Vec<SourceStep>,
) -> Result<(), OutOfMemory>
    requires { map (λ s. (s.source, step_seen s)) steps.old.items ≡ map move_seen moves.old.items }
    ensures seen { OnOk result (map (λ s. (s.source, step_seen s)) steps.new.items ≡ map move_seen moves.new.items) }
    ensures moves { OnOk result (moves.new.items ≡ moves.old.items ++ (record { buffer = buffer; planned = planned; trails = trails }) ∷ []) }
{
    steps.push(step_by(buffer, planned.changes(), &trails)?)?;
    moves.push(Move {
        buffer,
        planned,
        trails,
    })?;
    Ok(())
}

/// Plans the next version of a buffer that stands over one that has moved, and adds the move.
fn turn(
    alloc: Global,
    buffers: &mut [Held],
    buffer: BufferNo,
    moves: &mut Vec<Move>,
    steps: &mut Vec<SourceStep>,
) -> Result<(), ProjectionFault>
    requires there { buffer < length buffers.old }
    requires can { (h : Held) → slice_get buffers.old buffer ≡ Some h → goes moves.old.items buffer h ≡ true → CanRise buffers.old moves.old.items (step_in (map move_seen moves.old.items)) h }
    requires seen { map (λ s. (s.source, step_seen s)) steps.old.items ≡ map move_seen moves.old.items }
    ensures same { map known buffers.new ≡ map known buffers.old }
    ensures seen { OnOk result (map (λ s. (s.source, step_seen s)) steps.new.items ≡ map move_seen moves.new.items) }
    ensures turned { (h : Held) → slice_get buffers.old buffer ≡ Some h → HasTurned buffers.old buffers.new moves.old.items moves.new.items buffer h result }
{
    if !goes(buffers, buffer, moves) {
        return Ok(());
    }
    match rise(alloc, buffers, buffer, moves, steps) {
        Ok((next, trails)) => Ok(add(buffer, next, trails, moves, steps)?),
        Err(fault) => Err(fault),
    }
}

/// Plans, in this order, the next version of each buffer that stands over one that has moved.
///
/// # Errors
///
/// A text would have more than 2^22 units, or memory was refused.
pub fn climb(
    alloc: Global,
    buffers: &mut [Held],
    order: &[BufferNo],
    moves: &mut Vec<Move>,
    steps: &mut Vec<SourceStep>,
) -> Result<(), ProjectionFault>
    requires on_way { (w : Route) × (done : List ℕ) × IsRoute w order.now × Climbs w [] done buffers.old moves.old.items }
    requires seen { map (λ s. (s.source, step_seen s)) steps.old.items ≡ map move_seen moves.old.items }
    ensures same { map known buffers.new ≡ map known buffers.old }
    ensures climbed { (w : Route) (done : List ℕ) → IsRoute w order.now → Climbs w [] done buffers.old moves.old.items → HasClimbed w order.now buffers.new moves.new.items result }
{
    for buffer in order {
        if let Err(fault) = turn(alloc, buffers, *buffer, moves, steps) {
            return Err(fault);
        }
    }
    Ok(())
}
