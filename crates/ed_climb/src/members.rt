//! How many members buffers have once versions are made.
ghost use Rattle.std.specs.Prelude.{◌≡◌, ◌<◌, All, length, map};
ghost use Rattle.ed_base.specs.declared.refusal.Which.{Which};
ghost use Rattle.ed_climb.specs.Limited.{count_then};
ghost use Rattle.ed_held.specs.Moves.{record_of};
ghost use Rattle.ed_layers.specs.Records.{members_of};
ghost use Rattle.ed_stock.specs.Limits.{some_over};

use crate::limits::members_limit;
use crate::sources::move_of;
use ed_base::{BufferNo, Refusal};
use ed_held::{Held, Move, Planned};

/// How many members the version has.
fn members_in(planned: &Planned) -> u32
    ensures { result ≡ length (members_of (record_of planned.now)) }
{
    match planned.members() {
        Some(members) => members.count(),
        None => 0,
    }
}

/// How many members a buffer has once the moves are made.
fn count_then(buffers: &[Held], moves: &[Move], buffer: BufferNo) -> u32
    requires { buffer < length buffers.now }
    ensures { result ≡ count_then buffers.now moves.now buffer }
{
    match move_of(moves, buffer) {
        Some(found) => members_in(&found.planned),
        None => buffers[buffer.0 as usize].member_count(),
    }
}

/// The refusal of the first buffer, in this order, that has too many members once the moves are made.
pub fn members_over(buffers: &[Held], moves: &[Move], order: &[BufferNo]) -> Option<Refusal>
    requires { All (λ b. b < length buffers.now) order.now }
    ensures { result ≡ some_over Which.Members 1024 (map (count_then buffers.now moves.now) order.now) }
{
    for buffer in order {
        let refusal = members_limit(u64::from(count_then(buffers, moves, *buffer)));
        if refusal.is_some() {
            return refusal;
        }
    }
    None
}
