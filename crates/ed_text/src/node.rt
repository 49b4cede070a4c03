//! The inner levels: nodes over nodes.
ghost use Rattle.std.specs.Prelude.{IsTrue, [], ◌≡◌, ℕ, max, ◌+◌, ◌*◌, ◌/◌, ◌<◌, ◌≤◌, ◌^◌, List, ◌++◌, length, flat_map, slice_get, slice_range, IfOk, OnOk, OnErr, vec_len};
ghost use Rattle.ed_base.specs.Spans.{end_of};
ghost use Rattle.ed_text.specs.Splices.{spliced};
ghost use Rattle.ed_text.specs.Balance.{AreHalfFull, IsBalanced};

use crate::level::Level;
use crate::row::{append_all, run_in, share_all, splice_row, total_len};
use ed_base::{OutOfMemory, Span, Steps, Unit};
use std::alloc::Global;
use std::marker::Model;
use std::sync::Arc;
use std::sync::ledger::Ledger;

/// How many children an inner node has at most.
const ROW_MOST: usize = 16;

/// Nodes of the level below, from the first on.
#[derive(Drop)]
pub struct Node<C: Level> {
    len: u32,
    row: Arc<Vec<C>>,
}

impl<C: Level> Model for Node<C> {
    ghost use Rattle.std.specs.Prelude.{ℕ, ◌≡◌, ◌<◌, ◌≤◌, ◌^◌, List, length, flat_map};
    ghost use Rattle.ed_text.specs.Balance.{IsBalanced};

    ghost Value = { List ℕ };

    ghost view = { λ n. flat_map C.units n.row.value.items };

    ghost invariant = { λ n. (n.len ≡ length (flat_map C.units n.row.value.items)) × (n.len ≤ 2 ^ 23) × (0 < length n.row.value.items) × (length n.row.value.items ≤ 16) × IsBalanced C.units C.least n.row.value.items };
}

impl<C: Level> Node<C> {
    /// The node of these children.
    fn of<L: Ledger>(
        alloc: Global,
        row: Vec<C>,
        steps: &mut Steps<L>,
    ) -> Result<Node<C>, OutOfMemory>
        requires some { 0 < length row.items }
        requires few { length row.items ≤ 16 }
        requires balanced { IsBalanced C.units C.least row.items }
        requires most { length (flat_map C.units row.items) ≤ 2 ^ 23 }
        ensures node { IfOk result (λ n. n ≡ flat_map C.units row.items) }
        ensures cost { steps.new ≡ steps.old + 1 }
    {
        steps.tick();
        let len = total_len(row.as_slice());
        Ok(Node {
            len,
            row: Arc::new(alloc, row)?,
        })
    }
}

/// Cuts a row in two split_in_half.
#[tactic(auto, using(crate::proofs::Rows::flat_cut, crate::proofs::Rows::length_cut))]
fn split_in_half<C: Level>(row: Vec<C>) -> Result<(Vec<C>, Vec<C>), OutOfMemory>
    ensures units { IfOk result (λ p. flat_map C.units p.0.items ++ flat_map C.units p.1.items ≡ flat_map C.units row.items) }
    ensures lens { IfOk result (λ p. length (flat_map C.units p.0.items) + length (flat_map C.units p.1.items) ≡ length (flat_map C.units row.items)) }
    ensures front { IfOk result (λ p. length p.0.items ≡ length row.items / 2) }
    ensures back { IfOk result (λ p. length p.0.items + length p.1.items ≡ length row.items) }
    ensures front_half_full { IfOk result (λ p. AreHalfFull C.units C.least row.items → AreHalfFull C.units C.least p.0.items) }
    ensures back_half_full { IfOk result (λ p. AreHalfFull C.units C.least row.items → AreHalfFull C.units C.least p.1.items) }
{
    let mut front = row;
    let back = front.split_off(front.len() / 2)?;
    Ok((front, back))
}

/// Puts nodes of these children at the end of a row.
fn push_nodes<C: Level, L: Ledger>(
    alloc: Global,
    row: Vec<C>,
    into: &mut Vec<Node<C>>,
    steps: &mut Steps<L>,
) -> Result<(), OutOfMemory>
    requires most { length (flat_map C.units row.items) ≤ 2 ^ 23 }
    requires balanced { IsBalanced C.units C.least row.items }
    ensures balanced { OnOk result (into.old.items ≡ [] → IsBalanced (λ n. n) (8 * C.least) into.new.items) }
    ensures half_full { OnOk result (AreHalfFull (λ n. n) (8 * C.least) into.old.items → 8 * C.least ≤ length (flat_map C.units row.items) → AreHalfFull (λ n. n) (8 * C.least) into.new.items) }
    ensures units { OnOk result (flat_map (λ n. n) into.new.items ≡ flat_map (λ n. n) into.old.items ++ flat_map C.units row.items) }
    ensures few { OnOk result (8 * length into.new.items ≤ 8 * length into.old.items + max 8 (length row.items)) }
    ensures one { OnOk result (length row.items ≤ 16 → length into.new.items ≤ length into.old.items + 1) }
    ensures two { OnOk result (length row.items ≤ 32 → length into.new.items ≤ length into.old.items + 2) }
    ensures cost { 8 * steps.new ≤ 8 * steps.old + max 8 (length row.items) }
    ensures cost_one { length row.items ≤ 16 → steps.new ≤ steps.old + 1 }
    ensures cost_two { length row.items ≤ 32 → steps.new ≤ steps.old + 2 }
{
    if row.is_empty() {
        return Ok(());
    }
    if row.len() <= ROW_MOST {
        let node = Node::of(alloc, row, steps)?;
        into.push(node)?;
        return Ok(());
    }
    let (front, back) = split_in_half(row)?;
    push_nodes(alloc, front, into, steps)?;
    push_nodes(alloc, back, into, steps)?;
    Ok(())
}

impl<C: Level> Level for Node<C> {
    ghost units = { λ n. n };

    ghost height = { C.height + 1 };

    ghost least = { 8 * C.least };

    ghost path = { 2 * C.path + 56 * C.height + 32 };

    fn len(&self) -> u32 {
        self.len
    }

    fn is_half_full(&self) -> bool {
        let row = self.row.as_slice();
        row.len() >= ROW_MOST / 2
    }

    fn share(&self) -> Result<Node<C>, OutOfMemory> {
        Ok(Node {
            len: self.len,
            row: self.row.clone()?,
        })
    }

    fn run(&self, at: u32) -> &[Unit] {
        run_in(self.row.as_slice(), at)
    }

    fn build<L: Ledger>(
        alloc: Global,
        content: &[Unit],
        into: &mut Vec<Node<C>>,
        steps: &mut Steps<L>,
    ) -> Result<(), OutOfMemory> {
        let mut row = Vec::new(alloc);
        C::build(alloc, content, &mut row, steps)?;
        push_nodes(alloc, row, into, steps)
    }

    fn join<L: Ledger>(
        alloc: Global,
        left: &Node<C>,
        right: &Node<C>,
        into: &mut Vec<Node<C>>,
        steps: &mut Steps<L>,
    ) -> Result<(), OutOfMemory> {
        let mut row = Vec::with_capacity(alloc, left.row.len() + right.row.len())?;
        share_all(&mut row, left.row.as_slice())?;
        append_all(alloc, &mut row, right.row.as_slice(), steps)?;
        push_nodes(alloc, row, into, steps)?;
        Ok(())
    }

    fn splice<L: Ledger>(
        &self,
        alloc: Global,
        span: Span,
        insert: &[Unit],
        into: &mut Vec<Node<C>>,
        steps: &mut Steps<L>,
    ) -> Result<(), OutOfMemory> {
        let row = splice_row(alloc, self.row.as_slice(), span, insert, steps)?;
        push_nodes(alloc, row, into, steps)
    }
}
