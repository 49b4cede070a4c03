//! Read-only regions of the buffers of the core.
ghost use Rattle.std.specs.Prelude.{◌≡◌, ◌+◌, ◌<◌, ◌≤◌, false, nat_eq, length, None, Some, Ok, Err, IfOk, OnOk, OnErr};
ghost use Rattle.std.specs.List.{list_any};
ghost use Rattle.ed_base.specs.Spans.{end_of};
ghost use Rattle.ed_layers.specs.Records.{is_carrier};
ghost use Rattle.ed_machine.specs.State.{count, record_now, text_now, buffer as buffer_of};
ghost use Rattle.ed_machine.specs.Step.{told, within_limits, weighed};
ghost use Rattle.ed_machine.specs.Refusals.{no_hook};
ghost use Rattle.ed_base.specs.Hooks.{HookTable};
ghost use Rattle.ed_callbacks.specs.HookLists.{hook_table};
ghost use Rattle.ed_risen.specs.Laws.{RecordsStay};
ghost use Rattle.ed_script.specs.declared.Command.{Command as Told};
ghost use Rattle.ed_readonly.specs.declared.RegionFault.{RegionFault as Fault};
ghost use Rattle.ed_core.specs.Doing.{Does};
ghost use Rattle.ed_core.specs.RegionOutcomes.{region_gone, region_made, region_refusal, region_told};

use crate::state::Core;
use ed_base::{
    BufferNo, EdgeMode, Name, OutOfMemory, Refusal, RegionNo, Span, SpanMode, What, Which,
};
use ed_callbacks::Hooks;
use ed_entry::Reply;
use ed_readonly::RegionFault;

/// The reply that an answer of the stock gives.
fn region_reply(added: Result<RegionNo, RegionFault>) -> Result<Reply, OutOfMemory>
    ensures reply { IfOk result (λ r. Some r ≡ region_told added) }
    ensures err { OnErr result (added ≡ Err Fault.OutOfMemory) }
{
    match added {
        Ok(region) => Ok(Reply::Region { region }),
        Err(RegionFault::Limit { count }) => {
            let which = Which::Regions;
            Ok(Reply::Refused(Refusal::Limit { which, count }))
        }
        Err(RegionFault::OutOfMemory) => Err(OutOfMemory),
    }
}

/// A further holder of a name that may be absent.
pub fn shared(name: &Option<Name>) -> Result<Option<Name>, OutOfMemory>
    ensures { IfOk result (λ n. n ≡ name.now) }
{
    match name {
        None => Ok(None),
        Some(name) => Ok(Some(name.share()?)),
    }
}

/// The refusal of a query that isn't there.
fn no_query(hooks: &Hooks, query: &Option<Name>) -> Option<Refusal>
    ensures { result ≡ no_hook (hook_table hooks.now).queries query.now }
{
    match query {
        Some(name) if !hooks.has_query(name.as_str()) => {
            let what = What::Hook;
            Some(Refusal::NoSuch { what })
        }
        _ => None,
    }
}

impl Core {
    /// Why a region isn't made.
    fn region_refusal(
        &self,
        hooks: &Hooks,
        buffer: BufferNo,
        span: Span,
        query: &Option<Name>,
    ) -> Option<Refusal>
        requires { buffer < count self.now }
        ensures refusal { result ≡ region_refusal (hook_table hooks.now) self.now buffer (span.start + span.len) query.now }
        ensures base { result ≡ None → is_carrier (record_now self.now buffer) ≡ false }
        ensures within { result ≡ None → end_of span ≤ length (text_now self.now buffer) }
    {
        if !self.is_base(buffer) {
            return Some(Refusal::WrongKind);
        }
        let end = u64::from(span.start) + u64::from(span.len);
        if let Some(refusal) = self.past_now(buffer, end) {
            return Some(refusal);
        }
        no_query(hooks, query)
    }

    /// Makes a read-only region of a base.
    pub(crate) fn add_region(
        &mut self,
        hooks: &Hooks,
        name: &Name,
        span: Span,
        edge: EdgeMode,
        mode: SpanMode,
        query: &Option<Name>,
    ) -> Result<Reply, OutOfMemory>
        ensures { Does (told (hook_table hooks.now) self.old (Told.Region name.now span.start span.len edge mode query.now)) self.old self.new result }
    {
        let Some(buffer) = self.number_of(name) else {
            return Ok(Reply::Refused(Refusal::NoBuffer));
        };
        if let Some(refusal) = self.region_refusal(hooks, buffer, span, query) {
            return Ok(Reply::Refused(refusal));
        }
        let kept = shared(query)?;
        self.make_region(buffer, span, mode, edge, kept)
    }

    /// Makes a region inside the current text of a base, if there may be one more.
    pub(crate) fn make_region(
        &mut self,
        buffer: BufferNo,
        span: Span,
        mode: SpanMode,
        edge: EdgeMode,
        query: Option<Name>,
    ) -> Result<Reply, OutOfMemory>
        requires there { buffer < count self.old }
        requires base { is_carrier (record_now self.old buffer) ≡ false }
        requires within { end_of span ≤ length (text_now self.old buffer) }
        ensures reply { IfOk result (λ r. r ≡ (within_limits self.old (weighed (region_made self.old buffer span mode edge query))).reply) }
        ensures state { OnOk result (self.new ≡ (within_limits self.old (weighed (region_made self.old buffer span mode edge query))).state) }
        ensures err { OnErr result (self.new ≡ self.old) }
        ensures stay { RecordsStay self.old.stock self.new.stock }
    {
        let added = self.stock.add_region(buffer, span, mode, edge, query);
        region_reply(added)
    }

    /// Removes a region of a base. Whether it was live.
    fn take_region(&mut self, buffer: BufferNo, region: RegionNo) -> bool
        requires there { buffer < count self.old }
        requires base { is_carrier (record_now self.old buffer) ≡ false }
        ensures live { result ≡ list_any (λ r. nat_eq r.number region) (buffer_of self.old buffer).regions }
        ensures state { self.new ≡ (region_gone self.old buffer region).state }
        ensures same { result ≡ false → self.new ≡ self.old }
        ensures whole { within_limits self.old (weighed (region_gone self.old buffer region)) ≡ region_gone self.old buffer region }
        ensures stay { RecordsStay self.old.stock self.new.stock }
    {
        self.stock.remove_region(buffer, region)
    }

    /// Removes a read-only region of a base.
    pub(crate) fn remove_region(&mut self, name: &Name, region: RegionNo) -> Reply
        ensures { (hooks : HookTable) → Does (told hooks self.old (Told.Unregion name.now region)) self.old self.new (Ok result) }
    {
        let Some(buffer) = self.number_of(name) else {
            return Reply::Refused(Refusal::NoBuffer);
        };
        if !self.is_base(buffer) {
            return Reply::Refused(Refusal::WrongKind);
        }
        if self.take_region(buffer, region) {
            return Reply::Removed;
        }
        let what = What::Region;
        Reply::Refused(Refusal::NoSuch { what })
    }
}
