//! The change list of an elision buffer.
ghost use Rattle.std.specs.Prelude.{◌≡◌, ℕ, length, IfOk, Option};
ghost use Rattle.ed_base.specs.ChangeList.{IsNormal, change_list, new_len, step};
ghost use Rattle.ed_layers.specs.CarrierStep.{all_stay, carrier_step};
ghost use Rattle.ed_layers.specs.Hidden.{nearest};
ghost use Rattle.ed_layers.specs.Records.{elision, members_of};
ghost use Rattle.ed_layers.specs.SourceStep.{SourceStep};
ghost use Rattle.ed_layers.specs.Texts.{text_over};
ghost use Rattle.ed_kept.specs.Kept.{ArePairsRising, pairs_of};
ghost use Rattle.ed_elide.specs.AfterStep.{shown_pairs, shown_step};
ghost use Rattle.ed_elide.specs.Steps.{Steps};

use crate::hidden::Hidden;
use crate::parts::{parts_within, turned};
use ed_base::{Changes, OutOfMemory};
use ed_kept::{KeptRun, changes_between, kept_by};
use ed_text::DocText;
use std::alloc::Global;

impl Hidden {
    /// The runs of units that the source keeps and that are shown before and after, by their shown
    /// places.
    fn shown_kept(
        &self,
        alloc: Global,
        next: &Hidden,
        source_step: &Changes,
    ) -> Result<Vec<KeptRun>, OutOfMemory>
        requires old { source_step.now.old_len ≡ length self.now }
        requires new { new_len source_step.now ≡ length next.now }
        ensures pairs { IfOk result (λ v. pairs_of v.items ≡ shown_pairs self.now next.now (step source_step.now).kept) }
        ensures rising { IfOk result (λ v. ArePairsRising 0 0 (nearest self.now (length self.now)) (nearest next.now (length next.now)) (pairs_of v.items)) }
        ensures normal { IfOk result (λ v. IsNormal source_step.now) }
    {
        let kept = kept_by(alloc, source_step)?;
        let before = self.shown_runs(alloc)?;
        let behind = next.shown_runs(alloc)?;
        let old_shown = parts_within(alloc, &kept, &before)?;
        let by_new = turned(alloc, &old_shown)?;
        let both_shown = parts_within(alloc, &by_new, &behind)?;
        let both = turned(alloc, &both_shown)?;
        Ok(both)
    }

    /// The change list from this set to the next across a step of the source, where this is the next
    /// shown text.
    pub(crate) fn changes_to(
        &self,
        alloc: Global,
        next: &Hidden,
        source_step: &Changes,
        text: &DocText,
    ) -> Result<Changes, OutOfMemory>
        requires old { source_step.now.old_len ≡ length self.now }
        requires new { new_len source_step.now ≡ length next.now }
        requires text { length text.now ≡ nearest next.now (length next.now) }
        ensures changes { IfOk result (λ c. c ≡ change_list (shown_step self.now next.now (step source_step.now)) text.now) }
        ensures step { IfOk result (λ c. step c ≡ shown_step self.now next.now (step source_step.now)) }
        ensures len { IfOk result (λ c. new_len c ≡ length text.now) }
        ensures carrier { IfOk result (λ c. (b v w : ℕ) (steps : ℕ → Option SourceStep) → Steps steps b source_step.now → carrier_step all_stay steps (elision self.now b v) (elision next.now b w) ≡ shown_step self.now next.now (step source_step.now)) }
    {
        let kept = self.shown_kept(alloc, next, source_step)?;
        let changes = changes_between(alloc, &kept, self.shown_len(), text)?;
        Ok(changes)
    }

    /// The change list of an elision buffer from this set of hidden places to the next, across a step
    /// of the source or, where that has no changes, where the source stays: the units that the source
    /// keeps and that are shown before and after are kept. The source text is the one that the step
    /// leads to. It takes O(c + r) for c changes and r hidden runs of both sets, beside the text.
    ///
    /// # Errors
    ///
    /// Memory was refused.
    pub fn changes(
        &self,
        alloc: Global,
        next: &Hidden,
        source_step: &Changes,
        source: &DocText,
    ) -> Result<Changes, OutOfMemory>
        requires old { source_step.now.old_len ≡ length self.now }
        requires new { new_len source_step.now ≡ length next.now }
        requires source { length source.now ≡ length next.now }
        ensures changes { IfOk result (λ c. (b v w : ℕ) (steps : ℕ → Option SourceStep) → Steps steps b source_step.now → c ≡ change_list (carrier_step all_stay steps (elision self.now b v) (elision next.now b w)) (text_over (λ b. source.now) (members_of (elision next.now b w)))) }
        ensures step { IfOk result (λ c. (b v w : ℕ) (steps : ℕ → Option SourceStep) → Steps steps b source_step.now → step c ≡ carrier_step all_stay steps (elision self.now b v) (elision next.now b w)) }
        ensures len { IfOk result (λ c. new_len c ≡ nearest next.now (length next.now)) }
    {
        let text = next.text(alloc, source)?;
        let changes = self.changes_to(alloc, next, source_step, &text)?;
        Ok(changes)
    }
}
