//! What every representation of a text promises.
ghost use Rattle.std.specs.Prelude.{◌≡◌, ℕ, ◌+◌, ◌<◌, ◌≤◌, ◌^◌, List, ◌++◌, length, flat_map, sum_by, slice_get, slice_range, IfOk, OnOk, OnErr};
ghost use Rattle.ed_base.specs.Spans.{end_of};
ghost use Rattle.ed_base.specs.ChangeList.{applied, new_len};

use ed_base::{Changes, OutOfMemory, Span, Unit, Units};
use std::alloc::Global;

/// How many units a text may have at most.
pub const MOST_UNITS: u32 = 1 << 22;

/// A text that never changes: a list of at most 2^22 UTF-16 units, as `ITextSnapshot` of the editor
/// SDK gives them. Places and lengths are in units, and so is a span.
///
/// The error of each call is want of memory. Nothing changes then.
pub trait Text: Sized + Drop {
    // The units of the text, from the first on.
    ghost units: { Self → List ℕ };

    /// The text of these units, which are copied.
    fn from_units(alloc: Global, content: &[Unit]) -> Result<Self, OutOfMemory>
        requires { length content.now ≤ 2 ^ 22 }
        ensures { IfOk result (λ t. units t ≡ content.now) };

    /// The text of these units, without a copy where the representation can do so.
    fn of(alloc: Global, content: Units) -> Result<Self, OutOfMemory>
        requires { length content ≤ 2 ^ 22 }
        ensures { IfOk result (λ t. units t ≡ content) };

    /// How many units the text has.
    fn len(&self) -> u32
        ensures value { result ≡ length (units self.now) }
        ensures most { length (units self.now) ≤ 2 ^ 22 };

    /// The unit at a place.
    fn unit(&self, at: u32) -> Unit
        requires { at < length (units self.now) }
        ensures { slice_get (units self.now) at ≡ Some result };

    /// The units at the beginning of a span, as they are stored in one piece: at least one, unless
    /// the span is empty. A reader takes a span run by run, and nothing is copied.
    fn run(&self, span: Span) -> &[Unit]
        requires { end_of span ≤ length (units self.now) }
        ensures some { 0 < span.len → 0 < length result.now }
        ensures inside { length result.now ≤ span.len }
        ensures units { result.now ≡ slice_range (units self.now) span.start (span.start + length result.now) };

    /// A further holder of the same text. Nothing is copied.
    fn share(&self) -> Result<Self, OutOfMemory>
        ensures { IfOk result (λ t. units t ≡ units self.now) };

    /// The text of the units in a span.
    fn slice(&self, alloc: Global, span: Span) -> Result<Self, OutOfMemory>
        requires { end_of span ≤ length (units self.now) }
        ensures { IfOk result (λ t. units t ≡ slice_range (units self.now) span.start (end_of span)) };

    /// The texts one after another.
    fn concat(alloc: Global, parts: &[Self]) -> Result<Self, OutOfMemory>
        requires { sum_by (λ t. length (units t)) parts.now ≤ 2 ^ 22 }
        ensures { IfOk result (λ t. units t ≡ flat_map units parts.now) };

    /// The text after the changes. They are changes of a text of this length, and the new text has
    /// at most 2^22 units.
    fn replace(&self, alloc: Global, changes: &Changes) -> Result<Self, OutOfMemory>
        requires old { changes.now.old_len ≡ length (units self.now) }
        requires new { new_len changes.now ≤ 2 ^ 22 }
        ensures text { IfOk result (λ t. units t ≡ applied changes.now (units self.now)) }
        ensures len { IfOk result (λ t. length (units t) ≡ new_len changes.now) };

    /// Puts the units in a span at the end of `into`. Where memory is refused, `into` is as it was.
    fn copy_out(&self, span: Span, into: &mut Units) -> Result<(), OutOfMemory>
        requires { end_of span ≤ length (units self.now) }
        ensures ok { OnOk result (into.new ≡ into.old ++ slice_range (units self.now) span.start (end_of span)) }
        ensures err { OnErr result (into.new ≡ into.old) };
}
