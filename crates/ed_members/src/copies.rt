//! Copies of members, which share the units of literals.
ghost use Rattle.std.specs.Prelude.{◌≡◌, ◌++◌, IfOk, OnOk};

use ed_base::{Member, OutOfMemory};

/// A copy of the member. A literal's units are shared.
///
/// # Errors
///
/// A further holder was refused, which counts as want of memory.
pub fn copied(member: &Member) -> Result<Member, OutOfMemory>
    ensures { IfOk result (λ m. m ≡ member.now) }
{
    match member {
        Member::Literal(units) => Ok(Member::Literal(units.share()?)),
        Member::Tracked {
            source,
            bounds,
            mode,
        } => Ok(Member::Tracked {
            source: *source,
            bounds: *bounds,
            mode: *mode,
        }),
    }
}

/// Puts copies of the members at the end.
///
/// # Errors
///
/// Memory was refused.
pub fn put_copies(list: &mut Vec<Member>, members: &[Member]) -> Result<(), OutOfMemory>
    ensures { OnOk result (list.new.items ≡ list.old.items ++ members.now) }
{
    for member in members {
        list.push(copied(member)?)?;
    }
    Ok(())
}
