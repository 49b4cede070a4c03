//! Members by the names that a script gives.
ghost use Rattle.std.specs.Prelude.{◌≡◌, ◌<◌, ◌≤◌, length, map, None, All, IfOk, IfSome, option_map};
ghost use Rattle.ed_group.specs.Answers.{LiesIn};
ghost use Rattle.ed_machine.specs.State.{text_now};
ghost use Rattle.ed_core.specs.Asking.{HasSource, member_asked, members_asked, past_member, past_members};

use crate::state::Core;
use ed_base::{Member, OutOfMemory, Refusal, ScriptSpan, SharedUnits, Span, Units};
use std::alloc::Global;

/// A text of the same units, which its holders share.
fn copied(alloc: Global, units: &Units) -> Result<SharedUnits, OutOfMemory>
    ensures { IfOk result (λ u. u ≡ units.now) }
{
    let mut text = Vec::new(alloc);
    text.extend_from_slice(units.as_slice())?;
    SharedUnits::of(alloc, text)
}

impl Core {
    /// The member that a span asks for, where its buffer is there.
    fn member(&self, span: &ScriptSpan) -> Result<Option<Member>, OutOfMemory>
        ensures asked { IfOk result (λ m. m ≡ member_asked self.now span.now) }
        ensures there { IfOk result (λ m. IfSome m (HasSource self.now)) }
    {
        match span {
            ScriptSpan::Literal(units) => Ok(Some(Member::Literal(copied(self.alloc, units)?))),
            ScriptSpan::Tracked {
                buffer,
                start,
                len,
                mode,
            } => match self.number_of(buffer) {
                None => Ok(None),
                Some(source) => {
                    let (start, len, mode) = (*start, *len, *mode);
                    let bounds = Span { start, len };
                    Ok(Some(Member::Tracked {
                        source,
                        bounds,
                        mode,
                    }))
                }
            },
        }
    }

    /// The members that spans ask for, where all their buffers are there.
    pub(crate) fn members(&self, spans: &[ScriptSpan]) -> Result<Option<Vec<Member>>, OutOfMemory>
        ensures asked { IfOk result (λ o. option_map (λ v. v.items) o ≡ members_asked self.now spans.now) }
        ensures there { IfOk result (λ o. IfSome o (λ v. All (HasSource self.now) v.items)) }
    {
        let mut members = Vec::new(self.alloc);
        for span in spans {
            match self.member(span)? {
                None => return Ok(None),
                Some(member) => members.push(member)?,
            }
        }
        Ok(Some(members))
    }

    /// The refusal of a member that ends past the current text of its source.
    fn past_member(&self, member: &Member) -> Option<Refusal>
        requires { HasSource self.now member.now }
        ensures refusal { result ≡ past_member self.now member.now }
        ensures inside { result ≡ None → LiesIn self.now.stock member.now }
    {
        match member {
            Member::Literal(_) => None,
            Member::Tracked { source, bounds, .. } => {
                let end = u64::from(bounds.start) + u64::from(bounds.len);
                self.past_now(*source, end)
            }
        }
    }

    /// The refusal of members of which one ends past the current text of its source.
    pub(crate) fn past_members(&self, members: &[Member]) -> Option<Refusal>
        requires { All (HasSource self.now) members.now }
        ensures refusal { result ≡ past_members self.now members.now }
        ensures inside { result ≡ None → All (LiesIn self.now.stock) members.now }
    {
        for member in members {
            if let Some(refusal) = self.past_member(member) {
                return Some(refusal);
            }
        }
        None
    }
}
