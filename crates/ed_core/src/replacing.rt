//! Members of projections that are replaced.
ghost use Rattle.std.specs.Prelude.{◌≡◌, ◌+◌, ◌<◌, ◌≤◌, true, false, length, None, All, IfOk, OnOk, OnErr};
ghost use Rattle.ed_base.specs.Hooks.{HookTable};
ghost use Rattle.ed_group.specs.Answers.{LiesIn, members_now};
ghost use Rattle.ed_risen.specs.Laws.{RecordsStay};
ghost use Rattle.ed_layers.specs.Records.{is_carrier, is_elision};
ghost use Rattle.ed_machine.specs.State.{count, record_now};
ghost use Rattle.ed_machine.specs.Step.{told};
ghost use Rattle.ed_script.specs.declared.Command.{Command as Told};
ghost use Rattle.ed_core.specs.Asking.{HasSource, spans_refusal};
ghost use Rattle.ed_core.specs.Deciding.{spans_outcome};
ghost use Rattle.ed_core.specs.Doing.{Does};
ghost use Rattle.ed_core.specs.Within.{IsWithin};

use crate::landing::land;
use crate::state::Core;
use ed_base::{BufferNo, Member, Name, OutOfMemory, Refusal, ScriptSpanList, VersionNo};
use ed_entry::Reply;

impl Core {
    /// Why members of a buffer aren't replaced by these, but for what the stock forbids. `end` is the
    /// index behind the last member that is to go.
    fn spans_refusal(
        &self,
        buffer: BufferNo,
        at: &Option<VersionNo>,
        end: u64,
        members: &[Member],
    ) -> Option<Refusal>
        requires there { buffer < count self.now }
        requires sources { All (HasSource self.now) members.now }
        ensures refusal { result ≡ spans_refusal self.now buffer at.now end members.now }
        ensures carrier { result ≡ None → is_carrier (record_now self.now buffer) ≡ true }
        ensures plain { result ≡ None → is_elision (record_now self.now buffer) ≡ false }
        ensures part { result ≡ None → end ≤ length (members_now self.now.stock buffer) }
        ensures inside { result ≡ None → All (LiesIn self.now.stock) members.now }
    {
        if !self.stock.is_projection(buffer) {
            return Some(Refusal::WrongKind);
        }
        if let Some(refusal) = self.stale(buffer, at) {
            return Some(refusal);
        }
        let len = self.stock.member_count(buffer);
        if u64::from(len) < end {
            return Some(Refusal::OutOfRange { end, len });
        }
        self.past_members(members)
    }

    /// Replaces members of a projection by these, which lie inside their sources.
    fn set_spans(
        &mut self,
        buffer: BufferNo,
        first: u32,
        removed: u32,
        members: Vec<Member>,
    ) -> Result<Reply, OutOfMemory>
        requires there { buffer < count self.old }
        requires carrier { is_carrier (record_now self.old buffer) ≡ true }
        requires plain { is_elision (record_now self.old buffer) ≡ false }
        requires part { first + removed ≤ length (members_now self.old.stock buffer) }
        requires inside { All (LiesIn self.old.stock) members.items }
        ensures reply { IfOk result (λ r. r ≡ (spans_outcome self.old buffer first removed members.items).reply) }
        ensures state { OnOk result (self.new ≡ (spans_outcome self.old buffer first removed members.items).state) }
        ensures err { OnErr result (self.new ≡ self.old) }
        ensures stay { RecordsStay self.old.stock self.new.stock }
        ensures within { IsWithin self.old }
    {
        let planned = self
            .stock
            .plan_spans(self.alloc, buffer, first, removed, members);
        land(&mut self.stock, planned)
    }

    /// Replaces members of a projection.
    pub(crate) fn replace_spans(
        &mut self,
        name: &Name,
        first: u32,
        removed: u32,
        spans: &ScriptSpanList,
        at: &Option<VersionNo>,
    ) -> Result<Reply, OutOfMemory>
        ensures { (hooks : HookTable) → Does (told hooks self.old (Told.Spans name.now first removed spans.now at.now)) self.old self.new result }
    {
        let Some(buffer) = self.number_of(name) else {
            return Ok(Reply::Refused(Refusal::NoBuffer));
        };
        let Some(members) = self.members(spans.as_slice())? else {
            return Ok(Reply::Refused(Refusal::NoBuffer));
        };
        let end = u64::from(first) + u64::from(removed);
        if let Some(refusal) = self.spans_refusal(buffer, at, end, members.as_slice()) {
            return Ok(Reply::Refused(refusal));
        }
        self.set_spans(buffer, first, removed, members)
    }
}
