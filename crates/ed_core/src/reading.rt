//! What is answered about the versions of a buffer.
ghost use Rattle.std.specs.Prelude.{◌≡◌, not, ◌<◌, ◌≤◌, length, None, IfOk};
ghost use Rattle.ed_base.specs.Spans.{end_of};
ghost use Rattle.ed_layers.specs.Records.{is_carrier};
ghost use Rattle.ed_machine.specs.State.{count, now, record_now, text_at, text_now};
ghost use Rattle.ed_machine.specs.Accepted.{version_or_now};
ghost use Rattle.ed_machine.specs.Refusals.{no_version, past_version, past_now};
ghost use Rattle.ed_core.specs.Reading.{text_answer, lines_answer, changes_answer, versions_answer, untracked, point_answer, span_answer, asked_answer, nearest_answer};
ghost use Rattle.ed_callbacks.specs.HookLists.{hook_table};

use crate::between::{custom_between, point_between, span_between};
use crate::state::Core;
use ed_base::{BufferNo, OutOfMemory, PointMode, Refusal, Span, SpanHow, VersionNo, What};
use ed_callbacks::Hooks;
use ed_entry::Reply;
use ed_lines::Lines;

impl Core {
    /// A version's number, by default the current one's.
    fn version_or_now(&self, buffer: BufferNo, at: &Option<VersionNo>) -> VersionNo
        requires { buffer < count self.now }
        ensures { result ≡ version_or_now self.now buffer at.now }
    {
        match at {
            None => self.stock.now(buffer),
            Some(version) => *version,
        }
    }

    /// The refusal of a version that isn't there.
    fn no_version(&self, buffer: BufferNo, at: &Option<VersionNo>) -> Option<Refusal>
        requires { buffer < count self.now }
        ensures refusal { result ≡ no_version self.now buffer at.now }
        ensures there { result ≡ None → version_or_now self.now buffer at.now ≤ now self.now buffer }
    {
        let now = self.stock.now(buffer);
        match at {
            Some(version) if now.0 < version.0 => {
                let what = What::Version;
                Some(Refusal::NoSuch { what })
            }
            _ => None,
        }
    }

    /// The refusal of a place past the text of a version that is there.
    fn past_version(&self, buffer: BufferNo, at: &Option<VersionNo>, end: u64) -> Option<Refusal>
        requires { buffer < count self.now }
        ensures refusal { result ≡ past_version self.now buffer at.now end }
        ensures within { result ≡ None → version_or_now self.now buffer at.now ≤ now self.now buffer → end ≤ length (text_at self.now buffer (version_or_now self.now buffer at.now)) }
    {
        let now = self.stock.now(buffer);
        let version = self.version_or_now(buffer, at);
        if now.0 < version.0 {
            return None;
        }
        let len = self.stock.text_len(buffer, version);
        if u64::from(len) < end {
            return Some(Refusal::OutOfRange { end, len });
        }
        None
    }

    /// Why nothing is tracked that ends at a place of one version to another.
    fn untracked(
        &self,
        buffer: BufferNo,
        at: &Option<VersionNo>,
        to: &Option<VersionNo>,
        end: u64,
    ) -> Option<Refusal>
        requires { buffer < count self.now }
        ensures refusal { result ≡ untracked self.now buffer at.now to.now end }
        ensures at_there { result ≡ None → version_or_now self.now buffer at.now ≤ now self.now buffer }
        ensures to_there { result ≡ None → version_or_now self.now buffer to.now ≤ now self.now buffer }
        ensures within { result ≡ None → end ≤ length (text_at self.now buffer (version_or_now self.now buffer at.now)) }
    {
        if let Some(refusal) = self.past_version(buffer, at, end) {
            return Some(refusal);
        }
        if let Some(refusal) = self.no_version(buffer, at) {
            return Some(refusal);
        }
        self.no_version(buffer, to)
    }

    /// The text of a version.
    pub(crate) fn text(
        &self,
        buffer: BufferNo,
        at: &Option<VersionNo>,
    ) -> Result<Reply, OutOfMemory>
        requires { buffer < count self.now }
        ensures { IfOk result (λ r. r ≡ text_answer self.now buffer at.now) }
    {
        if let Some(refusal) = self.no_version(buffer, at) {
            return Ok(Reply::Refused(refusal));
        }
        let version = self.version_or_now(buffer, at);
        let snapshot = self.stock.snapshot(buffer, version)?;
        Ok(Reply::Text { snapshot })
    }

    /// The lines of a version.
    pub(crate) fn lines(
        &self,
        buffer: BufferNo,
        at: &Option<VersionNo>,
    ) -> Result<Reply, OutOfMemory>
        requires { buffer < count self.now }
        ensures { IfOk result (λ r. r ≡ lines_answer self.now buffer at.now) }
    {
        if let Some(refusal) = self.no_version(buffer, at) {
            return Ok(Reply::Refused(refusal));
        }
        let version = self.version_or_now(buffer, at);
        let snapshot = self.stock.snapshot(buffer, version)?;
        let table = Lines::of(self.alloc, &snapshot.text)?;
        Ok(Reply::Lines {
            lines: table.list()?,
        })
    }

    /// What leads from a version to the next.
    pub(crate) fn changes(&self, buffer: BufferNo, from: VersionNo) -> Result<Reply, OutOfMemory>
        requires { buffer < count self.now }
        ensures { IfOk result (λ r. r ≡ changes_answer self.now buffer from) }
    {
        let now = self.stock.now(buffer);
        if now.0 <= from.0 {
            let what = What::Version;
            return Ok(Reply::Refused(Refusal::NoSuch { what }));
        }
        let changes = self.stock.changes(buffer, from)?;
        Ok(Reply::Changes { changes })
    }

    /// The number that each version repeats.
    pub(crate) fn versions(&self, buffer: BufferNo) -> Result<Reply, OutOfMemory>
        requires { buffer < count self.now }
        ensures { IfOk result (λ r. r ≡ versions_answer self.now buffer) }
    {
        let numbers = self.stock.reiterated_numbers(self.alloc, buffer)?;
        Ok(Reply::Versions { numbers })
    }

    /// Where a point of a version goes in another.
    pub(crate) fn point(
        &self,
        buffer: BufferNo,
        mode: PointMode,
        pos: u32,
        at: &Option<VersionNo>,
        to: &Option<VersionNo>,
    ) -> Reply
        requires { buffer < count self.now }
        ensures { result ≡ point_answer self.now buffer mode pos at.now to.now }
    {
        if let Some(refusal) = self.untracked(buffer, at, to, u64::from(pos)) {
            return Reply::Refused(refusal);
        }
        let from = self.version_or_now(buffer, at);
        let to = self.version_or_now(buffer, to);
        Reply::At {
            pos: point_between(&self.stock, buffer, mode, pos, from, to),
        }
    }

    /// Where a span of a version goes in another.
    pub(crate) fn span(
        &self,
        hooks: &Hooks,
        buffer: BufferNo,
        how: &SpanHow,
        span: Span,
        at: &Option<VersionNo>,
        to: &Option<VersionNo>,
    ) -> Reply
        requires { buffer < count self.now }
        ensures { result ≡ span_answer (hook_table hooks.now) self.now buffer how.now span at.now to.now }
    {
        let end = u64::from(span.start) + u64::from(span.len);
        if let Some(refusal) = self.untracked(buffer, at, to, end) {
            return Reply::Refused(refusal);
        }
        let from = self.version_or_now(buffer, at);
        let to = self.version_or_now(buffer, to);
        match how {
            SpanHow::Mode(mode) => Reply::Span {
                span: span_between(&self.stock, buffer, *mode, span, from, to),
            },
            SpanHow::Custom(name) => match hooks.custom(name.as_str()) {
                None => Reply::Refused(Refusal::NoSuch { what: What::Hook }),
                Some(custom) => Reply::Span {
                    span: custom_between(&self.stock, buffer, custom, span, from, to),
                },
            },
        }
    }

    /// Whether a buffer is a base.
    pub(crate) fn is_base(&self, buffer: BufferNo) -> bool
        requires { buffer < count self.now }
        ensures { result ≡ not (is_carrier (record_now self.now buffer)) }
    {
        self.stock.is_base(buffer)
    }

    /// The refusal of a place past the current text.
    pub(crate) fn past_now(&self, buffer: BufferNo, end: u64) -> Option<Refusal>
        requires { buffer < count self.now }
        ensures refusal { result ≡ past_now self.now buffer end }
        ensures within { result ≡ None → end ≤ length (text_now self.now buffer) }
    {
        let len = self.stock.text_len(buffer, self.stock.now(buffer));
        if u64::from(len) < end {
            return Some(Refusal::OutOfRange { end, len });
        }
        None
    }

    /// Who denies what is done at a span of the current text, asked without editing.
    pub(crate) fn denied_in(&self, hooks: &Hooks, buffer: BufferNo, span: Span) -> Reply
        requires { buffer < count self.now }
        ensures { result ≡ asked_answer (hook_table hooks.now) self.now buffer span }
    {
        if !self.stock.is_base(buffer) {
            return Reply::Refused(Refusal::WrongKind);
        }
        let end = u64::from(span.start) + u64::from(span.len);
        if let Some(refusal) = self.past_now(buffer, end) {
            return Reply::Refused(refusal);
        }
        match self.stock.denied_in(hooks, buffer, span) {
            None => Reply::Free,
            Some(region) => Reply::Denied { region },
        }
    }

    /// Where a place of the current text of what an elision buffer shows lies in the elision buffer.
    pub(crate) fn nearest(&self, buffer: BufferNo, pos: u32) -> Reply
        requires { buffer < count self.now }
        ensures { result ≡ nearest_answer self.now buffer pos }
    {
        let Some(hidden) = self.stock.hidden(buffer) else {
            return Reply::Refused(Refusal::WrongKind);
        };
        let len = hidden.len();
        if len < pos {
            let end = u64::from(pos);
            return Reply::Refused(Refusal::OutOfRange { end, len });
        }
        Reply::At {
            pos: hidden.nearest(pos),
        }
    }
}
