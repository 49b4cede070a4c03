//! New buffers.
ghost use Rattle.std.specs.Prelude.{◌≡◌, ◌+◌, ◌<◌, ◌++◌, ◌∷◌, [], Option, None, Some, All, IfOk, OnOk, OnErr, false, is_some, position, take, unwrap_or};
ghost use Rattle.std.specs.Str.{bytes_eq};
ghost use Rattle.ed_base.specs.declared.Refusal.{Refusal as Reason};
ghost use Rattle.ed_base.specs.Hooks.{HookTable};
ghost use Rattle.ed_callbacks.specs.HookLists.{hook_table};
ghost use Rattle.ed_climb.specs.Refusals.{Refuses};
ghost use Rattle.ed_group.specs.Answers.{LiesIn};
ghost use Rattle.ed_group.specs.Judging.{standing_fault};
ghost use Rattle.ed_risen.specs.Laws.{RecordsStay};
ghost use Rattle.ed_spans.specs.SpanSets.{EndsWithin};
ghost use Rattle.ed_stock.specs.Linking.{depth};
ghost use Rattle.ed_machine.specs.Refusals.{len_now, no_hook};
ghost use Rattle.ed_machine.specs.State.{count, number_of};
ghost use Rattle.ed_machine.specs.Step.{told};
ghost use Rattle.ed_script.specs.declared.Command.{Command as Told};
ghost use Rattle.ed_core.specs.Deciding.{base_outcome, buffer_told, elision_outcome, projection_outcome};
ghost use Rattle.ed_core.specs.Doing.{Does};
ghost use Rattle.ed_core.specs.Within.{IsWithin};

use crate::eliding::past_ends;
use crate::landing::unplanned;
use crate::ruling::shared;
use crate::state::Core;
use ed_base::{
    BufferNo, Member, Name, OutOfMemory, PairList, Refusal, ScriptSpanList, Span, Unit, Units, What,
};
use ed_callbacks::Hooks;
use ed_entry::Reply;
use ed_group::PlanFault;
use indexmap::IndexSet;

/// Puts a name that isn't there behind the others.
fn add_name(names: &mut IndexSet<Name>, name: Name) -> Result<(), OutOfMemory>
    requires { is_some (position (bytes_eq name) names.old.keys) ≡ false }
    ensures ok { OnOk result (names.new.keys ≡ names.old.keys ++ name ∷ []) }
    ensures err { OnErr result (names.new.keys ≡ names.old.keys) }
{
    names.insert(name)?;
    Ok(())
}

/// Keeps all names if the buffer was added, and else as many as there were.
fn settle(
    names: &mut IndexSet<Name>,
    before: usize,
    added: Result<BufferNo, PlanFault>,
) -> Result<Reply, OutOfMemory>
    ensures reply { IfOk result (λ r. Some r ≡ buffer_told added) }
    ensures err { OnErr result (buffer_told added ≡ None) }
    ensures kept { OnOk added (names.new.keys ≡ names.old.keys) }
    ensures gone { OnErr added (names.new.keys ≡ take before names.old.keys) }
{
    match added {
        Ok(buffer) => Ok(Reply::Made { buffer }),
        Err(fault) => {
            names.truncate(before);
            unplanned(fault)
        }
    }
}

/// The refusal of a resolver that isn't there.
fn no_resolver(hooks: &Hooks, resolver: &Option<Name>) -> Option<Refusal>
    ensures { result ≡ no_hook (hook_table hooks.now).resolvers resolver.now }
{
    match resolver {
        Some(name) if !hooks.has_resolver(name.as_str()) => {
            let what = What::Hook;
            Some(Refusal::NoSuch { what })
        }
        _ => None,
    }
}

/// The refusal of what was judged, or else this one.
fn refused_or(judged: Result<(), PlanFault>, missing: Refusal) -> Result<Refusal, OutOfMemory>
    ensures { (fault : Option Reason) → Refuses fault judged → IfOk result (λ r. r ≡ unwrap_or fault missing) }
{
    match judged {
        Ok(()) => Ok(missing),
        Err(PlanFault::Refused(refusal)) => Ok(refusal),
        Err(PlanFault::OutOfMemory) => Err(OutOfMemory),
    }
}

impl Core {
    /// Adds a base under a name that isn't taken.
    fn add_base(&mut self, name: Name, text: &[Unit]) -> Result<Reply, OutOfMemory>
        requires { is_some (number_of self.old name) ≡ false }
        ensures reply { IfOk result (λ r. r ≡ (base_outcome self.old name text.now).reply) }
        ensures state { OnOk result (self.new ≡ (base_outcome self.old name text.now).state) }
        ensures err { OnErr result (self.new ≡ self.old) }
        ensures stay { RecordsStay self.old.stock self.new.stock }
        ensures within { IsWithin self.old }
    {
        let before = self.names.len();
        add_name(&mut self.names, name)?;
        let added = self.stock.add_base(self.alloc, text);
        settle(&mut self.names, before, added)
    }

    /// Adds a projection under a name that isn't taken. Its members lie inside their sources.
    fn add_projection(
        &mut self,
        name: Name,
        members: Vec<Member>,
        resolver: Option<Name>,
    ) -> Result<Reply, OutOfMemory>
        requires new { is_some (number_of self.old name) ≡ false }
        requires inside { All (LiesIn self.old.stock) members.items }
        ensures reply { IfOk result (λ r. r ≡ (projection_outcome self.old name members.items resolver).reply) }
        ensures state { OnOk result (self.new ≡ (projection_outcome self.old name members.items resolver).state) }
        ensures err { OnErr result (self.new ≡ self.old) }
        ensures stay { RecordsStay self.old.stock self.new.stock }
        ensures within { IsWithin self.old }
    {
        let before = self.names.len();
        add_name(&mut self.names, name)?;
        let added = self.stock.add_projection(self.alloc, members, resolver);
        settle(&mut self.names, before, added)
    }

    /// Adds an elision buffer under a name that isn't taken. What it hides ends within its source.
    fn add_elision(
        &mut self,
        name: Name,
        source: BufferNo,
        hide: &[Span],
        resolver: Option<Name>,
    ) -> Result<Reply, OutOfMemory>
        requires new { is_some (number_of self.old name) ≡ false }
        requires there { source < count self.old }
        requires within { All (EndsWithin (len_now self.old source)) hide.now }
        ensures reply { IfOk result (λ r. r ≡ (elision_outcome self.old name source hide.now resolver).reply) }
        ensures state { OnOk result (self.new ≡ (elision_outcome self.old name source hide.now resolver).state) }
        ensures err { OnErr result (self.new ≡ self.old) }
        ensures stay { RecordsStay self.old.stock self.new.stock }
        ensures within { IsWithin self.old }
    {
        let before = self.names.len();
        add_name(&mut self.names, name)?;
        let added = self.stock.add_elision(self.alloc, source, hide, resolver);
        settle(&mut self.names, before, added)
    }

    /// Makes a base of a text.
    pub(crate) fn make_buffer(&mut self, name: &Name, text: &Units) -> Result<Reply, OutOfMemory>
        ensures { (hooks : HookTable) → Does (told hooks self.old (Told.Buffer name.now text.now)) self.old self.new result }
    {
        if self.number_of(name).is_some() {
            return Ok(Reply::Refused(Refusal::NameTaken));
        }
        let kept = name.share()?;
        self.add_base(kept, text.as_slice())
    }

    /// Why a projection isn't made whose resolver isn't there: its members are judged first.
    fn unresolved(&self, members: Vec<Member>, missing: Refusal) -> Result<Refusal, OutOfMemory>
        requires inside { All (LiesIn self.now.stock) members.items }
        ensures { IfOk result (λ r. r ≡ unwrap_or (standing_fault self.now.stock members.items) missing) }
    {
        refused_or(self.stock.judge_projection(self.alloc, members), missing)
    }

    /// Makes a projection that shows these members.
    pub(crate) fn make_projection(
        &mut self,
        hooks: &Hooks,
        name: &Name,
        spans: &ScriptSpanList,
        resolver: &Option<Name>,
    ) -> Result<Reply, OutOfMemory>
        ensures { Does (told (hook_table hooks.now) self.old (Told.Projection name.now spans.now resolver.now)) self.old self.new result }
    {
        let Some(members) = self.members(spans.as_slice())? else {
            return Ok(Reply::Refused(Refusal::NoBuffer));
        };
        if self.number_of(name).is_some() {
            return Ok(Reply::Refused(Refusal::NameTaken));
        }
        if let Some(refusal) = self.past_members(members.as_slice()) {
            return Ok(Reply::Refused(refusal));
        }
        if let Some(missing) = no_resolver(hooks, resolver) {
            let refusal = self.unresolved(members, missing)?;
            return Ok(Reply::Refused(refusal));
        }
        let (kept, resolver) = (name.share()?, shared(resolver)?);
        self.add_projection(kept, members, resolver)
    }

    /// Why an elision buffer isn't made whose resolver isn't there: its height is judged first.
    fn unresolved_over(&self, source: BufferNo, missing: Refusal) -> Result<Refusal, OutOfMemory>
        requires there { source < count self.now }
        ensures { IfOk result (λ r. r ≡ unwrap_or (depth self.now.stock (count self.now + 1) (count self.now) (source ∷ [])) missing) }
    {
        refused_or(self.stock.judge_elision(self.alloc, source), missing)
    }

    /// Makes an elision buffer that hides these parts of the current text of its source.
    pub(crate) fn make_elision(
        &mut self,
        hooks: &Hooks,
        name: &Name,
        source: &Name,
        hide: &PairList,
        resolver: &Option<Name>,
    ) -> Result<Reply, OutOfMemory>
        ensures { Does (told (hook_table hooks.now) self.old (Told.Elision name.now source.now hide.now resolver.now)) self.old self.new result }
    {
        let Some(buffer) = self.number_of(source) else {
            return Ok(Reply::Refused(Refusal::NoBuffer));
        };
        if self.number_of(name).is_some() {
            return Ok(Reply::Refused(Refusal::NameTaken));
        }
        let hide = hide.as_slice();
        if let Some(refusal) = past_ends(hide, self.len_now(buffer)) {
            return Ok(Reply::Refused(refusal));
        }
        if let Some(missing) = no_resolver(hooks, resolver) {
            let refusal = self.unresolved_over(buffer, missing)?;
            return Ok(Reply::Refused(refusal));
        }
        let (kept, resolver) = (name.share()?, shared(resolver)?);
        self.add_elision(kept, buffer, hide, resolver)
    }
}
