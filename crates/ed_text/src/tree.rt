//! Texts as balanced trees.
ghost use Rattle.std.specs.Prelude.{IsTrue, [], ◌≡◌, ℕ, max, ◌+◌, ◌-◌, ◌*◌, ◌<◌, ◌≤◌, ◌^◌, List, ◌++◌, length, flat_map, sum_by, slice_get, slice_range, take, IfOk, OnOk, OnErr, vec_len};
ghost use Rattle.ed_base.specs.Spans.{end_of};
ghost use Rattle.ed_base.specs.ChangeList.{applied, new_len};
ghost use Rattle.ed_text.specs.Splices.{spliced};
ghost use Rattle.ed_text.specs.Balance.{AreHalfFull, IsBalanced};

use crate::leaf::Leaf;
use crate::level::Level;
use crate::node::Node;
use crate::row::{append_all, run_in, share_all, splice_row, total_len};
use crate::text::Text;
use ed_base::{Changes, OutOfMemory, SharedList, Span, Steps, Unit, Units};
use ed_change::apply;
use std::alloc::Global;
use std::marker::{Brand, Model};
use std::sync::ledger::{Blank, Ledger};

/// Up to how many units a text is built anew.
const SMALL_MOST: u32 = 256;

/// A replace by splices has a change for at most each so many units of the text; where there are
/// more changes, the text is made anew.
const UNITS_PER_SPLICE: u32 = 256;

/// The level below the top.
type Branch = Node<Node<Node<Leaf>>>;

/// A text whose nodes are shared with the texts that it came from.
#[derive(Drop)]
pub struct TreeText {
    len: u32,
    row: SharedList<Branch>,
}

impl Model for TreeText {
    ghost use Rattle.std.specs.Prelude.{ℕ, ◌≡◌, ◌≤◌, ◌^◌, List, length, flat_map};
    ghost use Rattle.ed_text.specs.Balance.{IsBalanced};

    ghost Value = { List ℕ };

    ghost view = { λ t. flat_map (λ n. n) t.row };

    ghost invariant = { λ t. (t.len ≡ length (flat_map (λ n. n) t.row)) × (t.len ≤ 2 ^ 22) × (length t.row ≤ 64) × IsBalanced (λ n. n) 65536 t.row };
}

impl TreeText {
    /// The text of these branches.
    #[tactic(auto, using(crate::proofs::HalfFull::few_branches))]
    fn of_branches<L: Ledger>(
        alloc: Global,
        row: Vec<Branch>,
        steps: &mut Steps<L>,
    ) -> Result<TreeText, OutOfMemory>
        requires most { length (flat_map (λ n. n) row.items) ≤ 2 ^ 22 }
        requires balanced { IsBalanced (λ n. n) 65536 row.items }
        ensures text { IfOk result (λ t. t ≡ flat_map (λ n. n) row.items) }
        ensures cost { steps.new ≡ steps.old + 1 }
    {
        steps.tick();
        let len = total_len(row.as_slice());
        let row = SharedList::of(alloc, row)?;
        Ok(TreeText { len, row })
    }

    /// The text of these units.
    fn build<L: Ledger>(
        alloc: Global,
        content: &[Unit],
        steps: &mut Steps<L>,
    ) -> Result<TreeText, OutOfMemory>
        requires { length content.now ≤ 2 ^ 22 }
        ensures text { IfOk result (λ t. t ≡ content.now) }
        ensures cost { 8 * steps.new ≤ 8 * steps.old + 40 + 4 * length content.now }
    {
        let mut row = Vec::new(alloc);
        Branch::build(alloc, content, &mut row, steps)?;
        TreeText::of_branches(alloc, row, steps)
    }

    /// The branches.
    fn branches(&self) -> &[Branch]
        ensures units { flat_map (λ n. n) result.now ≡ self.now }
        ensures most { length self.now ≤ 2 ^ 22 }
        ensures whole { length (flat_map (λ n. n) result.now) ≤ 2 ^ 22 }
        ensures balanced { IsBalanced (λ n. n) 65536 result.now }
    {
        self.row.as_slice()
    }

    /// A short text with other units in place of a span, built anew.
    fn splice_short<L: Ledger>(
        &self,
        alloc: Global,
        span: Span,
        insert: &[Unit],
        steps: &mut Steps<L>,
    ) -> Result<TreeText, OutOfMemory>
        requires inside { end_of span ≤ length self.now }
        requires most { length self.now + length insert.now ≤ 256 + span.len }
        ensures text { IfOk result (λ t. t ≡ spliced self.now span.start (end_of span) insert.now) }
        ensures cost { 8 * steps.new ≤ 8 * steps.old + 40 + 4 * (length self.now + length insert.now - span.len) }
    {
        let len = self.len();
        let front = Span {
            start: 0,
            len: span.start,
        };
        let end = span.start + span.len;
        let back = Span {
            start: end,
            len: len - end,
        };
        let mut content = Units::new(alloc);
        self.copy_out(front, &mut content)?;
        content.extend(insert)?;
        self.copy_out(back, &mut content)?;
        TreeText::build(alloc, content.as_slice(), steps)
    }

    /// The text with other units in place of a span, which has at most 2^22 units. The old text stays,
    /// and both share the nodes that lie apart from the span.
    ///
    /// Each node that is made, leaf or inner, is one step of the counter: at most `64 * (e + 1) + 2 * k`,
    /// where k is how many units are put in, and the longer of the old and the new length is below 2^e.
    ///
    /// # Errors
    ///
    /// Memory was refused.
    pub fn splice<L: Ledger>(
        &self,
        alloc: Global,
        span: Span,
        insert: &[Unit],
        steps: &mut Steps<L>,
    ) -> Result<TreeText, OutOfMemory>
        requires inside { end_of span ≤ length self.now }
        requires most { length self.now + length insert.now ≤ 2 ^ 22 + span.len }
        ensures text { IfOk result (λ t. t ≡ spliced self.now span.start (end_of span) insert.now) }
        ensures cost { (e : ℕ) → max (length self.now) (length self.now + length insert.now - span.len) < 2 ^ e → steps.new ≤ steps.old + 64 * (e + 1) + 2 * length insert.now }
    {
        let old_len = self.len();
        let new_len = old_len - span.len + insert.len() as u32;
        if new_len <= SMALL_MOST {
            return self.splice_short(alloc, span, insert, steps);
        }
        let row = splice_row(alloc, self.branches(), span, insert, steps)?;
        TreeText::of_branches(alloc, row, steps)
    }

    /// The text after the changes, made of its units.
    fn rebuilt(&self, alloc: Global, changes: &Changes) -> Result<TreeText, OutOfMemory>
        requires old { changes.now.old_len ≡ length self.now }
        requires new { new_len changes.now ≤ 2 ^ 22 }
        ensures text { IfOk result (λ t. t ≡ applied changes.now self.now) }
        ensures len { IfOk result (λ t. length t ≡ new_len changes.now) }
    {
        let len = self.len();
        let mut units = Units::of(Vec::with_capacity(alloc, len as usize)?);
        self.copy_out(Span { start: 0, len }, &mut units)?;
        let content = apply(alloc, units.as_slice(), changes)?;
        TreeText::of(alloc, content)
    }

    /// Puts the units in a span at the end of `into`, run by run. Where memory is refused, `into`
    /// has some of them.
    fn copy_runs(&self, span: Span, into: &mut Units) -> Result<(), OutOfMemory>
        requires { end_of span ≤ length self.now }
        ensures ok { OnOk result (into.new ≡ into.old ++ slice_range self.now span.start (end_of span)) }
        ensures err { OnErr result (take (length into.old) into.new ≡ into.old) }
    {
        let len = self.len();
        let end = span.start + span.len;
        let mut at = span.start;
        while at < end {
            let run = self.run(Span {
                start: at,
                len: end - at,
            });
            into.extend(run)?;
            at += run.len() as u32;
        }
        Ok(())
    }
}

impl Text for TreeText {
    ghost units = { λ t. t };

    fn from_units(alloc: Global, content: &[Unit]) -> Result<TreeText, OutOfMemory>
        requires { length content.now ≤ 2 ^ 22 }
        ensures { IfOk result (λ t. t ≡ content.now) }
    {
        build_with::<Brand>(alloc, content, Blank::new(1))
    }

    fn of(alloc: Global, content: Units) -> Result<TreeText, OutOfMemory>
        requires { length content ≤ 2 ^ 22 }
        ensures { IfOk result (λ t. t ≡ content) }
    {
        TreeText::from_units(alloc, content.as_slice())
    }

    fn len(&self) -> u32
        ensures value { result ≡ length self.now }
        ensures most { length self.now ≤ 2 ^ 22 }
    {
        self.len
    }

    fn unit(&self, at: u32) -> Unit
        requires { at < length self.now }
        ensures { slice_get self.now at ≡ Some result }
    {
        run_in(self.branches(), at)[0]
    }

    fn run(&self, span: Span) -> &[Unit]
        requires { end_of span ≤ length self.now }
        ensures some { 0 < span.len → 0 < length result.now }
        ensures inside { length result.now ≤ span.len }
        ensures units { result.now ≡ slice_range self.now span.start (span.start + length result.now) }
    {
        if span.len == 0 {
            return &[];
        }
        let run = run_in(self.branches(), span.start);
        let most = span.len as usize;
        if run.len() <= most {
            return run;
        }
        &run[..most]
    }

    fn share(&self) -> Result<TreeText, OutOfMemory>
        ensures { IfOk result (λ t. t ≡ self.now) }
    {
        Ok(TreeText {
            len: self.len,
            row: self.row.share()?,
        })
    }

    fn slice(&self, alloc: Global, span: Span) -> Result<TreeText, OutOfMemory>
        requires { end_of span ≤ length self.now }
        ensures { IfOk result (λ t. t ≡ slice_range self.now span.start (end_of span)) }
    {
        if span.len == self.len() {
            return self.share();
        }
        if span.len <= SMALL_MOST {
            let mut content = Units::new(alloc);
            self.copy_out(span, &mut content)?;
            return TreeText::of(alloc, content);
        }
        slice_with::<Brand>(alloc, self, span, Blank::new(1))
    }

    fn concat(alloc: Global, parts: &[TreeText]) -> Result<TreeText, OutOfMemory>
        requires { sum_by length parts.now ≤ 2 ^ 22 }
        ensures { IfOk result (λ t. t ≡ flat_map (λ part. part) parts.now) }
    {
        if let [only] = parts {
            return only.share();
        }
        concat_with::<Brand>(alloc, parts, Blank::new(1))
    }

    fn replace(&self, alloc: Global, changes: &Changes) -> Result<TreeText, OutOfMemory>
        requires old { changes.now.old_len ≡ length self.now }
        requires new { new_len changes.now ≤ 2 ^ 22 }
        ensures text { IfOk result (λ t. t ≡ applied changes.now self.now) }
        ensures len { IfOk result (λ t. length t ≡ new_len changes.now) }
    {
        if changes.count() > self.len() / UNITS_PER_SPLICE {
            return self.rebuilt(alloc, changes);
        }
        replace_with::<Brand>(alloc, self, changes, Blank::new(1))
    }

    fn copy_out(&self, span: Span, into: &mut Units) -> Result<(), OutOfMemory>
        requires { end_of span ≤ length self.now }
        ensures ok { OnOk result (into.new ≡ into.old ++ slice_range self.now span.start (end_of span)) }
        ensures err { OnErr result (into.new ≡ into.old) }
    {
        let before = into.as_slice().len();
        let copied = self.copy_runs(span, into);
        if copied.is_err() {
            into.truncate(before);
        }
        copied
    }
}

/// The text of these units, with a counter of its own.
fn build_with<L: Ledger>(
    alloc: Global,
    content: &[Unit],
    blank: Blank,
) -> Result<TreeText, OutOfMemory>
    requires name { blank.name ≡ L.name }
    requires parts { blank.parts ≡ L.parts }
    requires some { 0 < blank.parts }
    requires most { length content.now ≤ 2 ^ 22 }
    ensures { IfOk result (λ t. t ≡ content.now) }
{
    let mut steps = Steps::<L>::begin(blank);
    TreeText::build(alloc, content, &mut steps)
}

/// A part of a text, with a counter of its own.
fn slice_with<L: Ledger>(
    alloc: Global,
    text: &TreeText,
    span: Span,
    blank: Blank,
) -> Result<TreeText, OutOfMemory>
    requires name { blank.name ≡ L.name }
    requires parts { blank.parts ≡ L.parts }
    requires some { 0 < blank.parts }
    requires inside { end_of span ≤ length text.now }
    ensures { IfOk result (λ t. t ≡ slice_range text.now span.start (end_of span)) }
{
    let mut steps = Steps::<L>::begin(blank);
    let len = text.len();
    let end = span.start + span.len;
    let after = Span {
        start: end,
        len: len - end,
    };
    let before = Span {
        start: 0,
        len: span.start,
    };
    let front = text.splice(alloc, after, &[], &mut steps)?;
    let part = front.splice(alloc, before, &[], &mut steps)?;
    Ok(part)
}

/// Puts units at the end of a row of branches.
fn append_units<L: Ledger>(
    alloc: Global,
    row: &mut Vec<Branch>,
    content: &[Unit],
    steps: &mut Steps<L>,
) -> Result<(), OutOfMemory>
    requires most { length (flat_map (λ n. n) row.old.items) + length content.now ≤ 2 ^ 22 }
    requires balanced { IsBalanced (λ n. n) 65536 row.old.items }
    ensures balanced { OnOk result (IsBalanced (λ n. n) 65536 row.new.items) }
    ensures units { OnOk result (flat_map (λ n. n) row.new.items ≡ flat_map (λ n. n) row.old.items ++ content.now) }
{
    let mut more = Vec::new(alloc);
    Branch::build(alloc, content, &mut more, steps)?;
    append_all(alloc, row, more.as_slice(), steps)
}

/// Puts a text behind a row of branches and the units of short texts that follow it. A short text
/// joins these units; a longer one joins the row behind them, which are none then.
fn append_text<L: Ledger>(
    alloc: Global,
    row: &mut Vec<Branch>,
    short: &mut Units,
    text: &TreeText,
    steps: &mut Steps<L>,
) -> Result<(), OutOfMemory>
    requires most { length (flat_map (λ n. n) row.old.items) + (length short.old + length text.now) ≤ 2 ^ 22 }
    requires balanced { IsBalanced (λ n. n) 65536 row.old.items }
    ensures balanced { OnOk result (IsBalanced (λ n. n) 65536 row.new.items) }
    ensures units { OnOk result (flat_map (λ n. n) row.new.items ++ short.new ≡ (flat_map (λ n. n) row.old.items ++ short.old) ++ text.now) }
    ensures len { OnOk result (length (flat_map (λ n. n) row.new.items) + length short.new ≡ length (flat_map (λ n. n) row.old.items) + (length short.old + length text.now)) }
{
    let len = text.len();
    if len <= SMALL_MOST {
        return text.copy_out(Span { start: 0, len }, short);
    }
    append_units(alloc, row, short.as_slice(), steps)?;
    short.truncate(0);
    append_all(alloc, row, text.branches(), steps)
}

/// Texts one after another, with a counter of its own.
fn concat_with<L: Ledger>(
    alloc: Global,
    texts: &[TreeText],
    blank: Blank,
) -> Result<TreeText, OutOfMemory>
    requires name { blank.name ≡ L.name }
    requires parts { blank.parts ≡ L.parts }
    requires some { 0 < blank.parts }
    requires most { length (flat_map (λ text. text) texts.now) ≤ 2 ^ 22 }
    ensures { IfOk result (λ t. t ≡ flat_map (λ text. text) texts.now) }
{
    let mut steps = Steps::<L>::begin(blank);
    let mut row = Vec::new(alloc);
    let mut short = Units::new(alloc);
    for text in texts {
        append_text(alloc, &mut row, &mut short, text, &mut steps)?;
    }
    append_units(alloc, &mut row, short.as_slice(), &mut steps)?;
    TreeText::of_branches(alloc, row, &mut steps)
}

/// The text after the changes, with a counter of its own.
fn replace_with<L: Ledger>(
    alloc: Global,
    text: &TreeText,
    changes: &Changes,
    blank: Blank,
) -> Result<TreeText, OutOfMemory>
    requires name { blank.name ≡ L.name }
    requires parts { blank.parts ≡ L.parts }
    requires some { 0 < blank.parts }
    requires old { changes.now.old_len ≡ length text.now }
    requires new { new_len changes.now ≤ 2 ^ 22 }
    ensures text { IfOk result (λ t. t ≡ applied changes.now text.now) }
    ensures len { IfOk result (λ t. length t ≡ new_len changes.now) }
{
    let mut steps = Steps::<L>::begin(blank);
    let mut row = Vec::new(alloc);
    share_all(&mut row, text.branches())?;
    let mut at = 0;
    let mut to = 0;
    for change in changes.as_slice() {
        let start = to + (change.start - at);
        let span = Span {
            start,
            len: change.old_len,
        };
        row = splice_row(
            alloc,
            row.as_slice(),
            span,
            change.text.as_slice(),
            &mut steps,
        )?;
        at = change.start + change.old_len;
        to = start + change.text.as_slice().len() as u32;
    }
    let new = TreeText::of_branches(alloc, row, &mut steps)?;
    Ok(new)
}
