//! Members to which a component goes.
ghost use Rattle.std.specs.List.{cons_option};
ghost use Rattle.std.specs.Prelude.{◌≡◌, [], ◌++◌, OnOk, ◌+◌, ◌<◌, ◌≤◌, ◌^◌, ℕ, length, nat_eq, slice_get, Some, None, MatchOption, MatchResult, IfOk, IfErr, IsErrAnd, ◌⊎◌, All};
ghost use Rattle.ed_base.specs.declared.edit.Span.{Span};
ghost use Rattle.ed_base.specs.Spans.{end_of, shared, shares_unit, touches_gap};
ghost use Rattle.ed_layers.specs.Pieces.{Component};
ghost use Rattle.ed_layers.specs.Records.{members_len, placement};
ghost use Rattle.ed_layers.specs.Sending.{component_fault, deleted_literal, literal_part, target_at, targets};
ghost use Rattle.ed_resolve.specs.Faults.{EndsShort, HasLength, IsDeleted, range_in, refusal_of, shared_in};

use crate::fault::SendFault;
use ed_base::{BufferNo, Member, Span};
use ed_members::Members;
use ed_pieces::Part;
use std::alloc::Global;
use std::marker::Model;

/// A tracked member to which a component goes: its index, its source and bounds, and its part of
/// the component's range, in the source.
#[derive(Drop)]
pub struct Target {
    pub member: u32,
    pub source: BufferNo,
    pub bounds: Span,
    pub part: Span,
}

impl Model for Target {
    ghost use Rattle.ed_layers.specs.Sending.{Target as TargetSeen};

    ghost Value = { TargetSeen };

    ghost view = { λ t. record { member = t.member; source = t.source; bounds = t.bounds; part = t.part } };
}

/// What two spans share, if there is a unit in both.
fn shared(one: Span, other: Span) -> Option<Span>
    requires one { one.start + one.len < 2 ^ 32 }
    requires other { other.start + other.len < 2 ^ 32 }
    ensures { result ≡ shared_in one other }
{
    let start = one.start.max(other.start);
    let end = (one.start + one.len).min(other.start + other.len);
    if start < end {
        let len = end - start;
        return Some(Span { start, len });
    }
    None
}

/// What of the range of a component lies in a placement: under an insertion the gap, where the
/// placement has it, both ends included, and else the deleted units that it has.
fn range_in(place: Span, range: Span) -> Option<Span>
    requires place { place.start + place.len < 2 ^ 32 }
    requires range { range.start + range.len < 2 ^ 32 }
    ensures { result ≡ range_in place range }
{
    if range.len == 0 {
        if place.start <= range.start && range.start <= place.start + place.len {
            return Some(range);
        }
        return None;
    }
    shared(place, range)
}

/// The first member whose placement ends at the place or behind it.
fn first_reaching(members: &Members, at: u32) -> u32
    requires { members_len members.now < 2 ^ 32 }
    ensures within { result ≤ length members.now }
    ensures before { (i : ℕ) → i < result → end_of (placement members.now i) < at }
{
    let mut low = 0u32;
    let mut high = members.count();
    while low < high {
        let middle = low + (high - low) / 2;
        let place = members.place(middle);
        if place.start + place.len < at {
            low = middle + 1;
        } else {
            high = middle;
        }
    }
    low
}

/// The first member whose placement begins behind the place.
fn first_behind(members: &Members, at: u32) -> u32
    requires { members_len members.now < 2 ^ 32 }
    ensures within { result ≤ length members.now }
    ensures behind { (i : ℕ) → result ≤ i → i < length members.now → at < (placement members.now i).start }
{
    let mut low = 0u32;
    let mut high = members.count();
    while low < high {
        let middle = low + (high - low) / 2;
        let place = members.place(middle);
        if at < place.start {
            high = middle;
        } else {
            low = middle + 1;
        }
    }
    low
}

/// The target that a member is, if it is one.
///
/// # Errors
///
/// The part of a literal that the component deletes.
fn target_at(part: &Part, place: Span, index: u32, member: &Member) -> Result<Option<Target>, Span>
    requires range { part.now.start + part.now.old_len < 2 ^ 32 }
    requires place { place.start + place.len < 2 ^ 32 }
    requires bounds { EndsShort member.now }
    requires same { HasLength place member.now }
    ensures target { IfOk result (λ t. t ≡ target_at part.now place (index, member.now)) }
    ensures literal { MatchResult result (λ t. literal_part part.now place (index, member.now) ≡ None) (λ s. literal_part part.now place (index, member.now) ≡ Some s) }
{
    let range = Span {
        start: part.start(),
        len: part.old_len(),
    };
    match member {
        Member::Literal(_) => match shared(place, range) {
            Some(span) => Err(span),
            None => Ok(None),
        },
        Member::Tracked { source, bounds, .. } => match range_in(place, range) {
            Some(inside) => {
                let start = bounds.start + (inside.start - place.start);
                Ok(Some(Target {
                    member: index,
                    source: *source,
                    bounds: *bounds,
                    part: Span {
                        start,
                        len: inside.len,
                    },
                }))
            }
            None => Ok(None),
        },
    }
}

/// Puts the target that a member is behind the others, if it is one.
///
/// # Errors
///
/// `Literal` names the part of a literal that the component deletes. Else memory may be refused.
fn put_target(
    part: &Part,
    place: Span,
    index: u32,
    member: &Member,
    targets: &mut Vec<Target>,
) -> Result<(), SendFault>
    requires range { part.now.start + part.now.old_len < 2 ^ 32 }
    requires place { place.start + place.len < 2 ^ 32 }
    requires bounds { EndsShort member.now }
    requires same { HasLength place member.now }
    ensures target { OnOk result (targets.new.items ≡ targets.old.items ++ cons_option (target_at part.now place (index, member.now)) []) }
    ensures literal { MatchResult result (λ t. literal_part part.now place (index, member.now) ≡ None) (IsDeleted (literal_part part.now place (index, member.now))) }
{
    match target_at(part, place, index, member) {
        Ok(Some(target)) => {
            targets.push(target)?;
            Ok(())
        }
        Ok(None) => Ok(()),
        Err(span) => Err(SendFault::Literal { span }),
    }
}

/// The targets of a component among the members that it can reach, if it deletes no unit of a
/// literal.
///
/// # Errors
///
/// `Literal` names the first deleted part of a literal. Else memory may be refused.
fn reached(alloc: Global, members: &Members, part: &Part) -> Result<Vec<Target>, SendFault>
    requires range { part.now.start + part.now.old_len ≤ members_len members.now }
    requires short { members_len members.now < 2 ^ 32 }
    requires bounds { All EndsShort members.now }
    ensures targets { IfOk result (λ v. v.items ≡ targets members.now part.now) }
    ensures literal { MatchResult result (λ v. deleted_literal members.now part.now ≡ None) (IsDeleted (deleted_literal members.now part.now)) }
{
    let start = part.start();
    let end = start + part.old_len();
    let mut targets = Vec::new(alloc);
    for index in first_reaching(members, start)..first_behind(members, end) {
        let member = members.get(index);
        put_target(part, members.place(index), index, member, &mut targets)?;
    }
    Ok(targets)
}

/// The members to which a component goes, by index. Members that it can't reach aren't looked at.
///
/// # Errors
///
/// `Literal` names the first deleted part of a literal, exactly where there is one. Else `NoPlace`
/// exactly where no member takes the component. Want of memory may come in place of any answer.
pub fn targets_of(alloc: Global, members: &Members, part: &Part) -> Result<Vec<Target>, SendFault>
    requires range { part.now.start + part.now.old_len ≤ members_len members.now }
    requires short { members_len members.now < 2 ^ 32 }
    requires bounds { All EndsShort members.now }
    ensures targets { IfOk result (λ v. v.items ≡ targets members.now part.now) }
    ensures fault { (carrier : ℕ) → MatchOption (component_fault carrier members.now part.now) (IfErr result (λ e. e ≡ SendFault.OutOfMemory)) (λ r. IsErrAnd result (λ e. (e ≡ SendFault.OutOfMemory) ⊎ (refusal_of carrier e ≡ Some r))) }
{
    let targets = reached(alloc, members, part)?;
    if targets.is_empty() {
        return Err(SendFault::NoPlace { gap: part.start() });
    }
    Ok(targets)
}
