//! What one carrier sends on.
ghost use Rattle.std.specs.Prelude.{◌≡◌, ◌⊎◌, ◌<◌, ◌≤◌, ◌^◌, All, [], fold, length, map, sum_by, slice_get, slice_index_or, option_and_then, option_map, IfErr, IfOk, IsErrAnd, MatchOption, OnOk, Some};
ghost use Rattle.ed_base.specs.Hooks.{named};
ghost use Rattle.ed_callbacks.specs.HookLists.{hook_table, rules};
ghost use Rattle.ed_descent.specs.InBoxes.{boxes_of, with_piece};
ghost use Rattle.ed_descent.specs.Refusals.{Refuses};
ghost use Rattle.ed_descent.specs.Sends.{CanPass, CanSend, passing_fault, sent_on};
ghost use Rattle.ed_held.specs.declared.held.Held.{Held};
ghost use Rattle.ed_held.specs.Seen.{known, stock};
ghost use Rattle.ed_layers.specs.Pieces.{arrived};
ghost use Rattle.ed_layers.specs.Records.{members_len};
ghost use Rattle.ed_layers.specs.Sending.{sending_fault, sent};
ghost use Rattle.ed_pieces.specs.Arrivals.{AllWithin};
ghost use Rattle.ed_resolve.specs.Faults.{EndsShort, refusal_of};
ghost use Rattle.ed_resolve.specs.declared.fault.SendFault.{SendFault};

use crate::boxes::put_all;
use crate::fault::{DescentFault, told};
use ed_base::{BufferNo, Piece};
use ed_callbacks::{Hooks, Resolver};
use ed_held::Held;
use ed_members::Members;
use ed_pieces::Arrived;
use ed_resolve::{SendFault, send_down};
use std::alloc::Global;

/// What a carrier of these members sends on of these pieces, which have arrived at it.
fn send(
    alloc: Global,
    carrier: BufferNo,
    members: &Members,
    resolver: Option<&Resolver>,
    pieces: &[Piece],
) -> Result<Vec<(BufferNo, Piece)>, SendFault>
    requires few { length members.now ≤ 1024 }
    requires bounds { All EndsShort members.now }
    requires short { members_len members.now ≤ 2 ^ 22 }
    requires within { AllWithin (members_len members.now) pieces.now }
    requires put_in { sum_by (λ p. length p.text) pieces.now ≤ 2 ^ 22 }
    ensures sent { IfOk result (λ v. v.items ≡ sent carrier members.now (option_map (λ r. rules r.now) resolver.entry) (arrived pieces.now (members_len members.now))) }
    ensures fault { MatchOption (sending_fault carrier members.now (arrived pieces.now (members_len members.now))) (IfErr result (λ e. e ≡ SendFault.OutOfMemory)) (λ r. IsErrAnd result (λ e. (e ≡ SendFault.OutOfMemory) ⊎ (refusal_of carrier e ≡ Some r))) }
{
    let changes = Arrived::of(alloc, members.len(), pieces)?;
    send_down(alloc, carrier, members, &changes, resolver)
}

/// What a buffer sends on of these pieces, which have arrived at it: a base sends nothing.
fn sent_on(
    alloc: Global,
    hooks: &Hooks,
    buffers: &[Held],
    buffer: BufferNo,
    pieces: &[Piece],
) -> Result<Vec<(BufferNo, Piece)>, DescentFault>
    requires ready { CanSend buffers.now }
    requires there { buffer < length buffers.now }
    requires arrived { CanPass (stock buffers.now) buffer pieces.now }
    ensures fault { Refuses (passing_fault (stock buffers.now) buffer pieces.now) result }
    ensures sent { IfOk result (λ v. v.items ≡ sent_on (hook_table hooks.now) (stock buffers.now) buffer pieces.now) }
{
    let held = &buffers[buffer.0 as usize];
    let Some(members) = held.members() else {
        return Ok(Vec::new(alloc));
    };
    let resolver = match held.resolver() {
        Some(name) => hooks.resolver(name.as_str()),
        None => None,
    };
    match send(alloc, buffer, members, resolver, pieces) {
        Ok(sent) => Ok(sent),
        Err(fault) => Err(told(buffer, fault)),
    }
}

/// Sends on what has arrived at a buffer, into the boxes of its sources.
///
/// # Errors
///
/// The first part that can't be sent on answers. Want of memory may come in place of any answer.
pub fn pass(
    alloc: Global,
    hooks: &Hooks,
    buffers: &[Held],
    buffer: BufferNo,
    boxes: &mut Vec<Vec<Piece>>,
) -> Result<(), DescentFault>
    requires ready { CanSend buffers.now }
    requires there { buffer < length buffers.now }
    requires boxes { length boxes.old.items ≡ length buffers.now }
    requires arrived { CanPass (stock buffers.now) buffer (slice_index_or (boxes_of boxes.old.items) buffer []) }
    ensures fault { Refuses (passing_fault (stock buffers.now) buffer (slice_index_or (boxes_of boxes.old.items) buffer [])) result }
    ensures sent { OnOk result (boxes_of boxes.new.items ≡ fold with_piece (boxes_of boxes.old.items) (sent_on (hook_table hooks.now) (stock buffers.now) buffer (slice_index_or (boxes_of boxes.old.items) buffer []))) }
{
    let sent = sent_on(alloc, hooks, buffers, buffer, &boxes[buffer.0 as usize])?;
    put_all(boxes, sent)?;
    Ok(())
}
