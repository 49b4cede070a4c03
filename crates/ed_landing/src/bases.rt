//! Bases on which pieces land.
ghost use Rattle.std.specs.Prelude.{◌≡◌, ◌⊎◌, ◌<◌, ◌≤◌, ◌^◌, ◌++◌, ◌∷◌, [], length, map, MatchResult, OnOk, Some, slice_get};
ghost use Rattle.ed_buffer.specs.declared.BaseFault.{BaseFault};
ghost use Rattle.ed_buffer.specs.Planning.{put_in};
ghost use Rattle.ed_callbacks.specs.HookLists.{hook_table};
ghost use Rattle.ed_members.specs.Steps.{step_seen};
ghost use Rattle.ed_held.specs.declared.held.Held.{Held};
ghost use Rattle.ed_held.specs.Landing.{CanLand};
ghost use Rattle.ed_held.specs.Moves.{move_seen};
ghost use Rattle.ed_held.specs.Seen.{known};
ghost use Rattle.ed_landing.specs.Bases.{HasLandedAmong, is_met, move_by};

use ed_base::{BufferNo, OutOfMemory, Piece};
use ed_buffer::{BaseFault, BaseStep};
use ed_callbacks::Hooks;
use ed_climb::add;
use ed_held::{Held, Move, Planned, landing};
use ed_members::SourceStep;
use std::alloc::Global;

/// Whether the buffer is a base, and there are pieces for it.
pub fn is_met(buffers: &[Held], buffer: BufferNo, pieces: &[Piece]) -> bool
    requires { buffer < length buffers.now }
    ensures { (h : Held) → slice_get buffers.now buffer ≡ Some h → result ≡ is_met h pieces.now }
{
    buffers[buffer.0 as usize].is_base() && !pieces.is_empty()
}

/// Adds the version of a base that was planned.
///
/// # Errors
///
/// Memory was refused.
fn add_step(
    buffer: BufferNo,
    step: BaseStep,
    moves: &mut Vec<Move>,
    steps: &mut Vec<SourceStep>,
) -> Result<(), OutOfMemory>
    requires { map (λ s. (s.source, step_seen s)) steps.old.items ≡ map move_seen moves.old.items }
    ensures seen { OnOk result (map (λ s. (s.source, step_seen s)) steps.new.items ≡ map move_seen moves.new.items) }
    ensures moves { OnOk result (moves.new.items ≡ moves.old.items ++ move_by buffer step ∷ []) }
{
    let trails = step.trails().share()?;
    add(buffer, Planned::Base(step), trails, moves, steps)
}

/// Plans the version of a base to which these pieces lead, as one more first move.
///
/// # Errors
///
/// A region denies a change, or else the text would have more than 2^22 units, or memory was refused.
pub fn land(
    alloc: Global,
    hooks: &Hooks,
    buffers: &mut [Held],
    buffer: BufferNo,
    pieces: &[Piece],
    moves: &mut Vec<Move>,
    steps: &mut Vec<SourceStep>,
) -> Result<(), BaseFault>
    requires there { buffer < length buffers.old }
    requires can { (h : Held) → slice_get buffers.old buffer ≡ Some h → CanLand h pieces.now }
    requires put_in { put_in pieces.now ≤ 2 ^ 27 }
    requires seen { map (λ s. (s.source, step_seen s)) steps.old.items ≡ map move_seen moves.old.items }
    ensures same { map known buffers.new ≡ map known buffers.old }
    ensures seen { MatchResult result (λ x. map (λ s. (s.source, step_seen s)) steps.new.items ≡ map move_seen moves.new.items) (λ e. (e ≡ BaseFault.OutOfMemory) ⊎ (map (λ s. (s.source, step_seen s)) steps.new.items ≡ map move_seen moves.new.items)) }
    ensures landed { (h : Held) → slice_get buffers.old buffer ≡ Some h → HasLandedAmong (hook_table hooks.now) buffers.old buffers.new moves.old.items moves.new.items buffer h pieces.now result }
{
    match landing(alloc, hooks, &mut buffers[buffer.0 as usize], pieces) {
        Ok(step) => Ok(add_step(buffer, step, moves, steps)?),
        Err(fault) => Err(fault),
    }
}
