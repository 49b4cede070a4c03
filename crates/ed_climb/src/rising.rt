//! Buffers that go along with their sources.
ghost use Rattle.std.specs.Prelude.{◌≡◌, ℕ, ◌<◌, length, map, Some, slice_get};
ghost use Rattle.ed_members.specs.Steps.{steps_seen};
ghost use Rattle.ed_held.specs.declared.held.Held.{Held};
ghost use Rattle.ed_held.specs.Seen.{known};
ghost use Rattle.ed_climb.specs.Climbing.{CanRise, HasRisen, HasRisenWith, is_over};

use crate::sources::{has_moved, snapshots};
use ed_base::BufferNo;
use ed_held::{Held, Move, Planned, planned};
use ed_members::SourceStep;
use ed_pieces::Trails;
use ed_project::ProjectionFault;
use std::alloc::Global;

/// Whether a source of the buffer has moved.
pub fn is_over(held: &Held, moves: &[Move]) -> bool
    ensures { result ≡ is_over moves.now held.now }
{
    has_moved(moves, held.sources())
}

/// Plans the next version of a buffer over others that have moved.
///
/// # Errors
///
/// The text would have more than 2^22 units, or memory was refused.
fn next(
    alloc: Global,
    buffers: &mut [Held],
    buffer: BufferNo,
    moves: &[Move],
    steps: &[SourceStep],
) -> Result<Planned, ProjectionFault>
    requires there { buffer < length buffers.old }
    requires can { (h : Held) → slice_get buffers.old buffer ≡ Some h → CanRise buffers.old moves.now (steps_seen steps.now) h }
    ensures same { map known buffers.new ≡ map known buffers.old }
    ensures risen { (h : Held) → slice_get buffers.old buffer ≡ Some h → HasRisen buffers.old buffers.new moves.now (steps_seen steps.now) buffer h result }
{
    let index = buffer.0 as usize;
    let all = &buffers[..];
    let sources = snapshots(alloc, all, moves, all[index].sources())?;
    planned(alloc, &mut buffers[index], &sources, steps)
}

/// Plans the next version of a buffer over others that have moved, with the ways by which the units
/// that it puts in were sent to it.
///
/// # Errors
///
/// The text would have more than 2^22 units, or memory was refused.
pub fn rise(
    alloc: Global,
    buffers: &mut [Held],
    buffer: BufferNo,
    moves: &[Move],
    steps: &[SourceStep],
) -> Result<(Planned, Trails), ProjectionFault>
    requires there { buffer < length buffers.old }
    requires can { (h : Held) → slice_get buffers.old buffer ≡ Some h → CanRise buffers.old moves.now (steps_seen steps.now) h }
    ensures same { map known buffers.new ≡ map known buffers.old }
    ensures risen { (h : Held) → slice_get buffers.old buffer ≡ Some h → HasRisenWith buffers.old buffers.new moves.now (steps_seen steps.now) buffer h result }
{
    let found = next(alloc, buffers, buffer, moves, steps)?;
    let trails = found.trails(alloc, buffer, steps)?;
    Ok((found, trails))
}
