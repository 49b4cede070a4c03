//! Commands that only read, by the names that they give.
ghost use Rattle.std.specs.Prelude.{◌≡◌, IfOk};
ghost use Rattle.ed_base.specs.Hooks.{HookTable};
ghost use Rattle.ed_callbacks.specs.HookLists.{hook_table};
ghost use Rattle.ed_script.specs.declared.Command.{Command as Told};
ghost use Rattle.ed_core.specs.Reading.{read_answer};

use crate::state::Core;
use ed_base::{Name, OutOfMemory, PointMode, Refusal, Span, SpanHow, VersionNo};
use ed_callbacks::Hooks;
use ed_entry::Reply;

impl Core {
    /// The answer to `text`.
    #[tactic(auto, using(crate::proofs::Answering::text_read), unfolding(ed_machine::specs::Refusals::tests))]
    pub(crate) fn text_told(
        &self,
        name: &Name,
        at: &Option<VersionNo>,
    ) -> Result<Reply, OutOfMemory>
        ensures { (hooks : HookTable) → IfOk result (λ r. r ≡ read_answer hooks self.now (Told.Text name.now at.now)) }
    {
        match self.number_of(name) {
            None => Ok(Reply::Refused(Refusal::NoBuffer)),
            Some(buffer) => self.text(buffer, at),
        }
    }

    /// The answer to `lines`.
    #[tactic(auto, using(crate::proofs::Answering::lines_read), unfolding(ed_machine::specs::Refusals::tests))]
    pub(crate) fn lines_told(
        &self,
        name: &Name,
        at: &Option<VersionNo>,
    ) -> Result<Reply, OutOfMemory>
        ensures { (hooks : HookTable) → IfOk result (λ r. r ≡ read_answer hooks self.now (Told.Lines name.now at.now)) }
    {
        match self.number_of(name) {
            None => Ok(Reply::Refused(Refusal::NoBuffer)),
            Some(buffer) => self.lines(buffer, at),
        }
    }

    /// The answer to `changes`.
    #[tactic(auto, using(crate::proofs::Answering::changes_read), unfolding(ed_machine::specs::Refusals::tests))]
    pub(crate) fn changes_told(&self, name: &Name, from: VersionNo) -> Result<Reply, OutOfMemory>
        ensures { (hooks : HookTable) → IfOk result (λ r. r ≡ read_answer hooks self.now (Told.Changes name.now from)) }
    {
        match self.number_of(name) {
            None => Ok(Reply::Refused(Refusal::NoBuffer)),
            Some(buffer) => self.changes(buffer, from),
        }
    }

    /// The answer to `versions`.
    #[tactic(auto, using(crate::proofs::Answering::versions_read), unfolding(ed_machine::specs::Refusals::tests))]
    pub(crate) fn versions_told(&self, name: &Name) -> Result<Reply, OutOfMemory>
        ensures { (hooks : HookTable) → IfOk result (λ r. r ≡ read_answer hooks self.now (Told.Versions name.now)) }
    {
        match self.number_of(name) {
            None => Ok(Reply::Refused(Refusal::NoBuffer)),
            Some(buffer) => self.versions(buffer),
        }
    }

    /// The answer to `point`.
    #[tactic(auto, using(crate::proofs::Answering::point_read), unfolding(ed_machine::specs::Refusals::tests))]
    pub(crate) fn point_told(
        &self,
        name: &Name,
        pos: u32,
        mode: PointMode,
        at: &Option<VersionNo>,
        to: &Option<VersionNo>,
    ) -> Reply
        ensures { (hooks : HookTable) → result ≡ read_answer hooks self.now (Told.Point name.now pos mode at.now to.now) }
    {
        match self.number_of(name) {
            None => Reply::Refused(Refusal::NoBuffer),
            Some(buffer) => self.point(buffer, mode, pos, at, to),
        }
    }

    /// The answer to `span`.
    #[tactic(auto, using(crate::proofs::Answering::span_read), unfolding(ed_machine::specs::Refusals::tests))]
    pub(crate) fn span_told(
        &self,
        hooks: &Hooks,
        name: &Name,
        span: Span,
        how: &SpanHow,
        at: &Option<VersionNo>,
        to: &Option<VersionNo>,
    ) -> Reply
        ensures { result ≡ read_answer (hook_table hooks.now) self.now (Told.Span name.now span.start span.len how.now at.now to.now) }
    {
        match self.number_of(name) {
            None => Reply::Refused(Refusal::NoBuffer),
            Some(buffer) => self.span(hooks, buffer, how, span, at, to),
        }
    }

    /// The answer to `readonly`.
    #[tactic(auto, using(crate::proofs::Answering::asked_read), unfolding(ed_machine::specs::Refusals::tests))]
    pub(crate) fn readonly_told(&self, hooks: &Hooks, name: &Name, span: Span) -> Reply
        ensures { result ≡ read_answer (hook_table hooks.now) self.now (Told.Readonly name.now span.start span.len) }
    {
        match self.number_of(name) {
            None => Reply::Refused(Refusal::NoBuffer),
            Some(buffer) => self.denied_in(hooks, buffer, span),
        }
    }

    /// The answer to `nearest`.
    #[tactic(auto, using(crate::proofs::Answering::nearest_read), unfolding(ed_machine::specs::Refusals::tests))]
    pub(crate) fn nearest_told(&self, name: &Name, pos: u32) -> Reply
        ensures { (hooks : HookTable) → result ≡ read_answer hooks self.now (Told.Nearest name.now pos) }
    {
        match self.number_of(name) {
            None => Reply::Refused(Refusal::NoBuffer),
            Some(buffer) => self.nearest(buffer, pos),
        }
    }
}
