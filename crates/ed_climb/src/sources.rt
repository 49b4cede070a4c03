//! The sources of a buffer on the way through a group.
ghost use Rattle.std.specs.Prelude.{◌≡◌, ℕ, ◌<◌, All, length, map, is_some, option_map, IfOk};
ghost use Rattle.std.specs.List.{list_any};
ghost use Rattle.ed_held.specs.Moves.{move_of, snapshot_after, snapshot_now};

use ed_base::{BufferNo, Changes, OutOfMemory, VersionNo};
use ed_held::{Held, Move};
use ed_members::SourceStep;
use ed_pieces::Trails;
use ed_version::Snapshot;
use std::alloc::Global;

/// The step of a source to which these changes lead, whose units came these ways.
///
/// # Errors
///
/// A further holder was refused, which counts as want of memory.
pub fn step_by(
    source: BufferNo,
    changes: &Changes,
    trails: &Trails,
) -> Result<SourceStep, OutOfMemory>
    ensures { IfOk result (λ s. s ≡ record { source = source; changes = changes.now; trails = trails.now }) }
{
    Ok(SourceStep {
        source,
        changes: changes.share()?,
        trails: trails.share()?,
    })
}

/// The move of a buffer, if it has one.
pub fn move_of(moves: &[Move], buffer: BufferNo) -> Option<&Move>
    ensures { option_map (λ m. m.now) result ≡ move_of moves.now buffer }
{
    moves.iter().find(|candidate| candidate.buffer == buffer)
}

/// Whether one of the sources has moved.
pub fn has_moved(moves: &[Move], sources: &[(BufferNo, VersionNo)]) -> bool
    ensures { result ≡ list_any (λ v. is_some (move_of moves.now v.0)) sources.now }
{
    for source in sources {
        if move_of(moves, source.0).is_some() {
            return true;
        }
    }
    false
}

/// The snapshot of a buffer at its current version.
pub fn newest(buffers: &[Held], buffer: BufferNo) -> Result<Snapshot, OutOfMemory>
    requires { buffer < length buffers.now }
    ensures { IfOk result (λ s. s ≡ snapshot_now buffers.now buffer) }
{
    let held = &buffers[buffer.0 as usize];
    held.snapshot(held.now())
}

/// The snapshot of a buffer once the moves are made.
fn snapshot(buffers: &[Held], moves: &[Move], buffer: BufferNo) -> Result<Snapshot, OutOfMemory>
    requires { buffer < length buffers.now }
    ensures { IfOk result (λ s. s ≡ snapshot_after buffers.now moves.now buffer) }
{
    match move_of(moves, buffer) {
        Some(found) => found.planned.snapshot(),
        None => newest(buffers, buffer),
    }
}

/// The snapshots of all these sources once the moves are made.
///
/// # Errors
///
/// Memory was refused.
pub fn snapshots(
    alloc: Global,
    buffers: &[Held],
    moves: &[Move],
    sources: &[(BufferNo, VersionNo)],
) -> Result<Vec<Snapshot>, OutOfMemory>
    requires { All (λ v. v.0 < length buffers.now) sources.now }
    ensures { IfOk result (λ v. v.items ≡ map (λ v. snapshot_after buffers.now moves.now v.0) sources.now) }
{
    let mut found = Vec::with_capacity(alloc, sources.len())?;
    for source in sources {
        found.push(snapshot(buffers, moves, source.0)?)?;
    }
    Ok(found)
}
