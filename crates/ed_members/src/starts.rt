//! Where members begin in the text of their projection.
ghost use Rattle.std.specs.Prelude.{◌≡◌, ◌<◌, ◌^◌, ◌↔◌, IfOk, IsTrue};
ghost use Rattle.ed_layers.specs.Records.{member_len, members_len};
ghost use Rattle.ed_members.specs.Starts.{starts_from};

use ed_base::{Member, OutOfMemory};
use std::alloc::Global;

/// How many units of the projection the member is.
pub fn len_of(member: &Member) -> u32
    requires { member_len member.now < 2 ^ 32 }
    ensures { result ≡ member_len member.now }
{
    match member {
        Member::Literal(units) => units.as_slice().len() as u32,
        Member::Tracked { bounds, .. } => bounds.len,
    }
}

/// Where each member begins, and the length of all together, in units.
///
/// # Errors
///
/// Memory was refused.
pub fn starts_of(alloc: Global, members: &[Member]) -> Result<(Vec<u32>, u32), OutOfMemory>
    requires { members_len members.now < 2 ^ 32 }
    ensures starts { IfOk result (λ r. r.0.items ≡ starts_from 0 members.now) }
    ensures len { IfOk result (λ r. r.1 ≡ members_len members.now) }
{
    let mut starts = Vec::new(alloc);
    let mut end = 0u32;
    for member in members {
        starts.push(end)?;
        end += len_of(member);
    }
    Ok((starts, end))
}

/// How many units the member is, however many those are.
fn wide_len(member: &Member) -> u64
    ensures { result ≡ member_len member.now }
{
    match member {
        Member::Literal(units) => units.as_slice().len() as u64,
        Member::Tracked { bounds, .. } => u64::from(bounds.len),
    }
}

/// Whether the members together are fewer than 2^32 units, as `Members` requires it.
pub fn are_short(members: &[Member]) -> bool
    ensures { IsTrue result ↔ (members_len members.now < 2 ^ 32) }
{
    let mut left = u64::from(u32::MAX);
    for member in members {
        let len = wide_len(member);
        if left < len {
            return false;
        }
        left -= len;
    }
    true
}
