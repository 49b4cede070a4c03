//! Hidden places of elision buffers that are set to others.
ghost use Rattle.std.specs.Prelude.{◌≡◌, ◌<◌, ◌++◌, true, length, None, All, IfOk, OnOk, OnErr};
ghost use Rattle.ed_base.specs.Hooks.{HookTable};
ghost use Rattle.ed_layers.specs.Records.{is_elision};
ghost use Rattle.ed_machine.specs.Refusals.{ends_of, past};
ghost use Rattle.ed_machine.specs.State.{count, record_now};
ghost use Rattle.ed_machine.specs.Step.{told};
ghost use Rattle.ed_risen.specs.Laws.{RecordsStay};
ghost use Rattle.ed_script.specs.declared.Command.{Command as Told};
ghost use Rattle.ed_spans.specs.SpanSets.{EndsWithin};
ghost use Rattle.ed_stock.specs.Making.{flags_of};
ghost use Rattle.ed_core.specs.Asking.{elide_refusal};
ghost use Rattle.ed_core.specs.Deciding.{hidden_outcome};
ghost use Rattle.ed_core.specs.Doing.{Does};
ghost use Rattle.ed_core.specs.Within.{IsWithin};

use crate::landing::land;
use crate::state::Core;
use ed_base::{BufferNo, Name, OutOfMemory, PairList, Refusal, Span, VersionNo};
use ed_entry::Reply;

/// The refusal of spans of which one ends past a text of this length, by the first that does.
pub fn past_ends(spans: &[Span], len: u32) -> Option<Refusal>
    ensures refusal { result ≡ past (ends_of spans.now) len }
    ensures within { result ≡ None → All (EndsWithin len) spans.now }
{
    for span in spans {
        let end = u64::from(span.start) + u64::from(span.len);
        if u64::from(len) < end {
            return Some(Refusal::OutOfRange { end, len });
        }
    }
    None
}

impl Core {
    /// Why no other places are hidden by a buffer, but for what the stock forbids.
    fn elide_refusal(
        &self,
        buffer: BufferNo,
        at: &Option<VersionNo>,
        hide: &[Span],
        show: &[Span],
    ) -> Option<Refusal>
        requires { buffer < count self.now }
        ensures refusal { result ≡ elide_refusal self.now buffer at.now (ends_of hide.now ++ ends_of show.now) }
        ensures hides { result ≡ None → is_elision (record_now self.now buffer) ≡ true }
        ensures hide { result ≡ None → All (EndsWithin (length (flags_of (record_now self.now buffer)))) hide.now }
        ensures show { result ≡ None → All (EndsWithin (length (flags_of (record_now self.now buffer)))) show.now }
    {
        let Some(hidden) = self.stock.hidden(buffer) else {
            return Some(Refusal::WrongKind);
        };
        if let Some(refusal) = self.stale(buffer, at) {
            return Some(refusal);
        }
        let len = hidden.len();
        if let Some(refusal) = past_ends(hide, len) {
            return Some(refusal);
        }
        past_ends(show, len)
    }

    /// Hides and then shows these parts of the source of an elision buffer, which end within it.
    fn set_hidden(
        &mut self,
        buffer: BufferNo,
        hide: &[Span],
        show: &[Span],
    ) -> Result<Reply, OutOfMemory>
        requires there { buffer < count self.old }
        requires hides { is_elision (record_now self.old buffer) ≡ true }
        requires hide { All (EndsWithin (length (flags_of (record_now self.old buffer)))) hide.now }
        requires show { All (EndsWithin (length (flags_of (record_now self.old buffer)))) show.now }
        ensures reply { IfOk result (λ r. r ≡ (hidden_outcome self.old buffer hide.now show.now).reply) }
        ensures state { OnOk result (self.new ≡ (hidden_outcome self.old buffer hide.now show.now).state) }
        ensures err { OnErr result (self.new ≡ self.old) }
        ensures stay { RecordsStay self.old.stock self.new.stock }
        ensures within { IsWithin self.old }
    {
        let planned = self.stock.plan_hidden(self.alloc, buffer, hide, show);
        land(&mut self.stock, planned)
    }

    /// Hides parts of the current text of what an elision buffer shows, and then shows others.
    pub(crate) fn elide(
        &mut self,
        name: &Name,
        hide: &PairList,
        show: &PairList,
        at: &Option<VersionNo>,
    ) -> Result<Reply, OutOfMemory>
        ensures { (hooks : HookTable) → Does (told hooks self.old (Told.Elide name.now hide.now show.now at.now)) self.old self.new result }
    {
        let Some(buffer) = self.number_of(name) else {
            return Ok(Reply::Refused(Refusal::NoBuffer));
        };
        let (hide, show) = (hide.as_slice(), show.as_slice());
        if let Some(refusal) = self.elide_refusal(buffer, at, hide, show) {
            return Ok(Reply::Refused(refusal));
        }
        self.set_hidden(buffer, hide, show)
    }
}
