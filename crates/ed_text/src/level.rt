//! What each level of the tree promises.
ghost use Rattle.std.specs.Prelude.{IsTrue, [], ◌≡◌, ℕ, ◌+◌, ◌*◌, ◌<◌, ◌≤◌, ◌^◌, List, ◌++◌, length, flat_map, slice_get, slice_range, IfOk, OnOk, OnErr, vec_len};
ghost use Rattle.ed_base.specs.Spans.{end_of};
ghost use Rattle.ed_text.specs.Splices.{spliced};
ghost use Rattle.ed_text.specs.Balance.{AreHalfFull, IsBalanced};

use ed_base::{OutOfMemory, Span, Steps, Unit};
use std::alloc::Global;
use std::sync::ledger::Ledger;

/// A node of one level, leaf or inner.
pub trait Level: Sized + Drop {
    // the units below it, from the first on
    ghost units: { Self → List ℕ };

    // how many levels there are from here down
    ghost height: { ℕ };

    // eight times as many nodes as a splice without insertion makes at most
    ghost path: { ℕ };

    // how many units a node has at least, unless it is alone
    ghost least: { ℕ };

    /// How many units there are below it.
    fn len(&self) -> u32
        ensures value { result ≡ length (units self.now) }
        ensures most { length (units self.now) ≤ 2 ^ 23 };

    /// Whether it is at least half full.
    fn is_half_full(&self) -> bool
        ensures { IsTrue result → least ≤ length (units self.now) };

    /// A further holder of the same node.
    fn share(&self) -> Result<Self, OutOfMemory>
        ensures { IfOk result (λ t. units t ≡ units self.now) };

    /// The stored units from a place on, up to the end of their leaf.
    fn run(&self, at: u32) -> &[Unit]
        requires { at < length (units self.now) }
        ensures some { 0 < length result.now }
        ensures inside { at + length result.now ≤ length (units self.now) }
        ensures units { result.now ≡ slice_range (units self.now) at (at + length result.now) };

    /// Puts the nodes of these units at the end of a row.
    fn build<L: Ledger>(
        alloc: Global,
        content: &[Unit],
        into: &mut Vec<Self>,
        steps: &mut Steps<L>,
    ) -> Result<(), OutOfMemory>
        requires { length content.now ≤ 2 ^ 23 }
        ensures units { OnOk result (flat_map units into.new.items ≡ flat_map units into.old.items ++ content.now) }
        ensures few { OnOk result (8 * length into.new.items ≤ 8 * length into.old.items + 8 + length content.now) }
        ensures balanced { OnOk result (into.old.items ≡ [] → IsBalanced units least into.new.items) }
        ensures cost { 8 * steps.new ≤ 8 * steps.old + height * (8 + length content.now) };

    /// Puts the units of two nodes at the end of a row.
    fn join<L: Ledger>(
        alloc: Global,
        left: &Self,
        right: &Self,
        into: &mut Vec<Self>,
        steps: &mut Steps<L>,
    ) -> Result<(), OutOfMemory>
        requires { length (units left.now) + length (units right.now) ≤ 2 ^ 23 }
        ensures units { OnOk result (flat_map units into.new.items ≡ flat_map units into.old.items ++ (units left.now ++ units right.now)) }
        ensures few { OnOk result (length into.new.items ≤ length into.old.items + 2) }
        ensures balanced { OnOk result (into.old.items ≡ [] → IsBalanced units least into.new.items) }
        ensures half_full { OnOk result (AreHalfFull units least into.old.items → least ≤ length (units left.now) + length (units right.now) → AreHalfFull units least into.new.items) }
        ensures cost { steps.new ≤ steps.old + 2 * height };

    /// Puts the units with others in place of a span at the end of a row.
    fn splice<L: Ledger>(
        &self,
        alloc: Global,
        span: Span,
        insert: &[Unit],
        into: &mut Vec<Self>,
        steps: &mut Steps<L>,
    ) -> Result<(), OutOfMemory>
        requires inside { end_of span ≤ length (units self.now) }
        requires most { length (units self.now) + length insert.now ≤ 2 ^ 23 + span.len }
        ensures units { OnOk result (flat_map units into.new.items ≡ flat_map units into.old.items ++ spliced (units self.now) span.start (end_of span) insert.now) }
        ensures few { OnOk result (8 * length into.new.items ≤ 8 * length into.old.items + 32 + length insert.now) }
        ensures balanced { OnOk result (into.old.items ≡ [] → IsBalanced units least into.new.items) }
        ensures cost { 8 * steps.new ≤ 8 * steps.old + path + height * length insert.now };
}
