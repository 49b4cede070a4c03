//! What a carrier sends on.
ghost use Rattle.std.specs.Prelude.{◌≡◌, ℕ, ◌+◌, ◌<◌, ◌≤◌, ◌^◌, All, nat_eq, ◌++◌, ◌∷◌, [], ◌⊎◌, List, flat_map, length, map, MatchOption, None, Some, OnOk, IfOk, IfErr, IsErrAnd, option_map, slice_range};
ghost use Rattle.ed_base.specs.declared.CutRule.{CutRule};
ghost use Rattle.ed_callbacks.specs.HookLists.{rules};
ghost use Rattle.ed_layers.specs.Records.{members_len};
ghost use Rattle.ed_layers.specs.Sending.{component_fault, component_sent, piece_of, sending_fault, sent, share_end, side_at, target_pieces, trail_runs, share};
ghost use Rattle.ed_pieces.specs.Arrivals.{units_put_in};
ghost use Rattle.ed_resolve.specs.Faults.{EndsShort, refusal_of};
ghost use Rattle.ed_pieces.specs.Runs.{AreRuns, text_of};
ghost use Rattle.ed_resolve.specs.Sends.{dealt, pieces_from, rule_in, to_source};

use crate::fault::SendFault;
use crate::target::{Target, targets_of};
use ed_base::{BufferNo, OutOfMemory, Piece, Side, Span, Trail, Units};
use ed_callbacks::Resolver;
use ed_members::Members;
use ed_pieces::{Arrived, Part, Run, cut_runs};
use std::alloc::Global;

/// L at the end of the bounds, R at their start, and M elsewhere and in empty bounds.
fn side_at(bounds: Span, at: u32) -> Side
    requires { bounds.start + bounds.len < 2 ^ 32 }
    ensures { result ≡ side_at bounds at }
{
    if bounds.len == 0 {
        return Side::M;
    }
    if at == bounds.start + bounds.len {
        return Side::L;
    }
    if at == bounds.start {
        return Side::R;
    }
    Side::M
}

/// A run of a target's share as a piece, which deletes so many units.
fn piece_of(
    alloc: Global,
    me: BufferNo,
    target: &Target,
    len: u32,
    run: Run,
) -> Result<Piece, OutOfMemory>
    requires { target.now.bounds.start + target.now.bounds.len < 2 ^ 32 }
    ensures { IfOk result (λ p. p ≡ piece_of me target.now len run) }
{
    let trail = run.trail().lengthened(alloc, me, target.member)?;
    Ok(Piece {
        start: target.part.start,
        len,
        text: run.into_units(),
        trail,
        side: side_at(target.bounds, target.part.start),
    })
}

/// Sends a target these runs: a piece for each, the first with so much of the range.
fn send_runs(
    alloc: Global,
    me: BufferNo,
    target: &Target,
    first_len: u32,
    runs: Vec<Run>,
    sent: &mut Vec<(BufferNo, Piece)>,
) -> Result<(), OutOfMemory>
    requires { target.now.bounds.start + target.now.bounds.len < 2 ^ 32 }
    ensures { OnOk result (sent.new.items ≡ sent.old.items ++ map (to_source target.now.source) (pieces_from me target.now first_len runs.items)) }
{
    let mut len = first_len;
    for run in runs {
        sent.push((target.source, piece_of(alloc, me, target, len, run)?))?;
        len = 0;
    }
    Ok(())
}

/// Sends a target its share: a piece for each run, the first with the target's part of the range,
/// and one piece where there is a part and no text.
fn send_share(
    alloc: Global,
    me: BufferNo,
    target: &Target,
    runs: Vec<Run>,
    sent: &mut Vec<(BufferNo, Piece)>,
) -> Result<(), OutOfMemory>
    requires { target.now.bounds.start + target.now.bounds.len < 2 ^ 32 }
    ensures { OnOk result (sent.new.items ≡ sent.old.items ++ map (to_source target.now.source) (target_pieces me target.now runs.items)) }
{
    let len = target.part.len;
    if runs.as_slice().is_empty() {
        if len > 0 {
            let nothing = Run::of(Trail::empty(), Units::new(alloc));
            sent.push((target.source, piece_of(alloc, me, target, len, nothing)?))?;
        }
        return Ok(());
    }
    send_runs(alloc, me, target, len, runs, sent)
}

/// Where the share of target `index` of `count` ends, of `len` units: one target gets all, of several
/// the last does where there is no resolver.
fn share_end(resolver: Option<&Resolver>, inserting: bool, len: u32, count: u32, index: u32) -> u32
    requires len { len ≤ 2 ^ 22 }
    requires index { index < count }
    requires count { count ≤ 1024 }
    ensures { result ≡ share_end (rule_in (option_map (λ r. rules r.now) resolver.entry) inserting) len count index }
{
    match resolver {
        Some(resolver) if count == 1 => len,
        Some(resolver) => resolver.cut(inserting, len, count, index),
        None if index + 1 == count => len,
        None => 0,
    }
}

/// How many units these runs have.
fn len_of(runs: &[Run]) -> u32
    requires { length (text_of runs.now) ≤ 2 ^ 22 }
    ensures { result ≡ length (text_of runs.now) }
{
    let mut len = 0u32;
    for run in runs {
        len += run.as_slice().len() as u32;
    }
    len
}

/// Sends a component to its targets, each its share.
fn send_part(
    alloc: Global,
    me: BufferNo,
    targets: &[Target],
    part: &Part,
    resolver: Option<&Resolver>,
    sent: &mut Vec<(BufferNo, Piece)>,
) -> Result<(), OutOfMemory>
    requires few { length targets.now ≤ 1024 }
    requires put_in { length part.now.text ≤ 2 ^ 22 }
    requires bounds { All (λ t. t.bounds.start + t.bounds.len < 2 ^ 32) targets.now }
    ensures { OnOk result (sent.new.items ≡ sent.old.items ++ dealt me (rule_in (option_map (λ r. rules r.now) resolver.entry) (nat_eq part.now.old_len 0)) part.now.text (length targets.now) targets.now) }
{
    let inserting = part.old_len() == 0;
    let len = len_of(part.runs());
    let count = targets.len() as u32;
    let mut start = 0u32;
    let mut index = 0u32;
    for target in targets {
        let end = share_end(resolver, inserting, len, count, index);
        let runs = cut_runs(alloc, part.runs(), start as usize, end as usize)?;
        send_share(alloc, me, target, runs, sent)?;
        start = end;
        index += 1;
    }
    Ok(())
}

/// Sends a component to the members that take it, each its share.
///
/// # Errors
///
/// `Literal` where it deletes a unit of a literal, else `NoPlace` where no member takes it. Want of
/// memory may come in place of any answer.
fn send_component(
    alloc: Global,
    me: BufferNo,
    members: &Members,
    part: &Part,
    resolver: Option<&Resolver>,
    sent: &mut Vec<(BufferNo, Piece)>,
) -> Result<(), SendFault>
    requires few { length members.now ≤ 1024 }
    requires put_in { length part.now.text ≤ 2 ^ 22 }
    requires range { part.now.start + part.now.old_len ≤ members_len members.now }
    requires short { members_len members.now < 2 ^ 32 }
    requires bounds { All EndsShort members.now }
    ensures sent { OnOk result (sent.new.items ≡ sent.old.items ++ component_sent me members.now (option_map (λ r. rules r.now) resolver.entry) part.now) }
    ensures fault { MatchOption (component_fault me members.now part.now) (IfErr result (λ e. e ≡ SendFault.OutOfMemory)) (λ r. IsErrAnd result (λ e. (e ≡ SendFault.OutOfMemory) ⊎ (refusal_of me e ≡ Some r))) }
{
    let targets = targets_of(alloc, members, part)?;
    send_part(alloc, me, &targets, part, resolver, sent)?;
    Ok(())
}

/// What the carrier `me` of these members sends to its sources of what arrives at it, by component,
/// target and run. A component of several targets is divided by the resolver; without one the last
/// target gets all.
///
/// # Errors
///
/// The first component that can't be sent answers: `Literal` where it deletes a unit of a literal,
/// else `NoPlace` where no member takes it. Want of memory may come in place of any answer.
pub fn send_down(
    alloc: Global,
    me: BufferNo,
    members: &Members,
    changes: &Arrived,
    resolver: Option<&Resolver>,
) -> Result<Vec<(BufferNo, Piece)>, SendFault>
    requires few { length members.now ≤ 1024 }
    requires len { changes.now.old_len ≡ members_len members.now }
    requires put_in { units_put_in changes.now.components ≤ 2 ^ 22 }
    requires bounds { All EndsShort members.now }
    ensures sent { IfOk result (λ v. v.items ≡ sent me members.now (option_map (λ r. rules r.now) resolver.entry) changes.now.components) }
    ensures fault { MatchOption (sending_fault me members.now changes.now.components) (IfErr result (λ e. e ≡ SendFault.OutOfMemory)) (λ r. IsErrAnd result (λ e. (e ≡ SendFault.OutOfMemory) ⊎ (refusal_of me e ≡ Some r))) }
{
    let mut sent = Vec::new(alloc);
    for part in changes.parts() {
        send_component(alloc, me, members, part, resolver, &mut sent)?;
    }
    Ok(sent)
}
