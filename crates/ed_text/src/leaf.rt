//! The lowest level: units.
ghost use Rattle.std.specs.Prelude.{IsTrue, [], ◌≡◌, ℕ, max, ◌+◌, ◌*◌, ◌<◌, ◌≤◌, ◌^◌, List, ◌++◌, length, flat_map, slice_get, slice_range, IfOk, OnOk, OnErr, vec_len};
ghost use Rattle.ed_base.specs.Spans.{end_of};
ghost use Rattle.ed_text.specs.Splices.{spliced};
ghost use Rattle.ed_text.specs.Balance.{AreHalfFull, IsBalanced};

use crate::level::Level;
use ed_base::{OutOfMemory, Span, Steps, Unit};
use std::alloc::Global;
use std::marker::Model;
use std::sync::Arc;
use std::sync::ledger::Ledger;

/// How many units a leaf has at most.
const LEAF_MOST: usize = 256;

/// Units in one block.
#[derive(Drop)]
pub struct Leaf {
    len: u32,
    block: Arc<Vec<Unit>>,
}

impl Model for Leaf {
    ghost use Rattle.std.specs.Prelude.{ℕ, ◌≡◌, ◌≤◌, List, length};

    ghost Value = { List ℕ };

    ghost view = { λ l. l.block.value.items };

    ghost invariant = { λ l. (l.len ≡ length l.block.value.items) × (length l.block.value.items ≤ 256) };
}

impl Leaf {
    /// The leaf of these units.
    fn of<L: Ledger>(
        alloc: Global,
        content: Vec<Unit>,
        steps: &mut Steps<L>,
    ) -> Result<Leaf, OutOfMemory>
        requires { length content.items ≤ 256 }
        ensures leaf { IfOk result (λ l. l ≡ content.items) }
        ensures cost { steps.new ≡ steps.old + 1 }
    {
        steps.tick();
        let len = content.len() as u32;
        Ok(Leaf {
            len,
            block: Arc::new(alloc, content)?,
        })
    }

    /// The units.
    fn as_slice(&self) -> &[Unit]
        ensures value { result.now ≡ self.now }
        ensures most { length self.now ≤ 256 }
    {
        self.block.as_slice()
    }
}

/// Puts leaves of these units at the end of a row.
fn push_leaves<L: Ledger>(
    alloc: Global,
    content: &[Unit],
    into: &mut Vec<Leaf>,
    steps: &mut Steps<L>,
) -> Result<(), OutOfMemory>
    ensures units { OnOk result (flat_map (λ l. l) into.new.items ≡ flat_map (λ l. l) into.old.items ++ content.now) }
    ensures few { OnOk result (128 * length into.new.items ≤ 128 * length into.old.items + max 128 (length content.now)) }
    ensures one { OnOk result (length content.now ≤ 256 → length into.new.items ≤ length into.old.items + 1) }
    ensures two { OnOk result (length content.now ≤ 512 → length into.new.items ≤ length into.old.items + 2) }
    ensures balanced { OnOk result (into.old.items ≡ [] → IsBalanced (λ l. l) 128 into.new.items) }
    ensures half_full { OnOk result (AreHalfFull (λ l. l) 128 into.old.items → 128 ≤ length content.now → AreHalfFull (λ l. l) 128 into.new.items) }
    ensures cost { 128 * steps.new ≤ 128 * steps.old + max 128 (length content.now) }
    ensures cost_one { length content.now ≤ 256 → steps.new ≤ steps.old + 1 }
    ensures cost_two { length content.now ≤ 512 → steps.new ≤ steps.old + 2 }
{
    if content.is_empty() {
        return Ok(());
    }
    if content.len() <= LEAF_MOST {
        let leaf = Leaf::of(alloc, Vec::from_slice(alloc, content)?, steps)?;
        into.push(leaf)?;
        return Ok(());
    }
    let half = content.len() / 2;
    push_leaves(alloc, &content[..half], into, steps)?;
    push_leaves(alloc, &content[half..], into, steps)?;
    Ok(())
}

impl Level for Leaf {
    ghost units = { λ l. l };

    ghost height = { 1 };

    ghost path = { 32 };

    ghost least = { 128 };

    fn len(&self) -> u32 {
        self.len
    }

    fn is_half_full(&self) -> bool {
        self.len as usize >= LEAF_MOST / 2
    }

    fn share(&self) -> Result<Leaf, OutOfMemory> {
        Ok(Leaf {
            len: self.len,
            block: self.block.clone()?,
        })
    }

    fn run(&self, at: u32) -> &[Unit] {
        &self.as_slice()[at as usize..]
    }

    fn build<L: Ledger>(
        alloc: Global,
        content: &[Unit],
        into: &mut Vec<Leaf>,
        steps: &mut Steps<L>,
    ) -> Result<(), OutOfMemory> {
        push_leaves(alloc, content, into, steps)
    }

    fn join<L: Ledger>(
        alloc: Global,
        left: &Leaf,
        right: &Leaf,
        into: &mut Vec<Leaf>,
        steps: &mut Steps<L>,
    ) -> Result<(), OutOfMemory> {
        let mut content = Vec::with_capacity(alloc, (left.len + right.len) as usize)?;
        content.extend_from_slice(left.as_slice())?;
        content.extend_from_slice(right.as_slice())?;
        push_content(alloc, content, into, steps)?;
        Ok(())
    }

    fn splice<L: Ledger>(
        &self,
        alloc: Global,
        span: Span,
        insert: &[Unit],
        into: &mut Vec<Leaf>,
        steps: &mut Steps<L>,
    ) -> Result<(), OutOfMemory> {
        let old = self.as_slice();
        let start = span.start as usize;
        let end = start + span.len as usize;
        let mut content = Vec::with_capacity(alloc, old.len() - span.len as usize + insert.len())?;
        content.extend_from_slice(&old[..start])?;
        content.extend_from_slice(insert)?;
        content.extend_from_slice(&old[end..])?;
        push_content(alloc, content, into, steps)
    }
}

/// Puts leaves of these units at the end of a row; where they fit into one, nothing is copied.
fn push_content<L: Ledger>(
    alloc: Global,
    content: Vec<Unit>,
    into: &mut Vec<Leaf>,
    steps: &mut Steps<L>,
) -> Result<(), OutOfMemory>
    ensures units { OnOk result (flat_map (λ l. l) into.new.items ≡ flat_map (λ l. l) into.old.items ++ content.items) }
    ensures few { OnOk result (128 * length into.new.items ≤ 128 * length into.old.items + max 128 (length content.items)) }
    ensures two { OnOk result (length content.items ≤ 512 → length into.new.items ≤ length into.old.items + 2) }
    ensures balanced { OnOk result (into.old.items ≡ [] → IsBalanced (λ l. l) 128 into.new.items) }
    ensures half_full { OnOk result (AreHalfFull (λ l. l) 128 into.old.items → 128 ≤ length content.items → AreHalfFull (λ l. l) 128 into.new.items) }
    ensures cost { 128 * steps.new ≤ 128 * steps.old + max 128 (length content.items) }
    ensures cost_two { length content.items ≤ 512 → steps.new ≤ steps.old + 2 }
{
    if content.is_empty() {
        return Ok(());
    }
    if content.len() > LEAF_MOST {
        push_leaves(alloc, content.as_slice(), into, steps)?;
        return Ok(());
    }
    let leaf = Leaf::of(alloc, content, steps)?;
    into.push(leaf)?;
    Ok(())
}
