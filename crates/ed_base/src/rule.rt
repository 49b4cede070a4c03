//! Named rules: those of taggers, and those that hooks answer.
ghost use Rattle.std.specs.Prelude.{◌≡◌, IfOk};

use crate::memory::OutOfMemory;
use crate::units::Units;
use std::alloc::Global;
use std::marker::Model;
use std::sync::Arc;

/// What a tagger marks: each place where a literal stands, words, pairs of brackets, or what of a
/// line stands past so many units.
#[derive(Drop)]
pub enum Rule {
    Literal(Units),
    Words,
    Brackets,
    LongLine(u32),
}

/// A rule whose holders share it.
#[derive(Drop)]
pub struct SharedRule {
    rule: Arc<Rule>,
}

impl Model for SharedRule {
    ghost use Rattle.ed_base.specs.declared.rule.Rule.{Rule};

    ghost Value = { Rule };

    ghost view = { λ s. s.rule.value };
}

impl SharedRule {
    /// The rule, shared.
    ///
    /// # Errors
    ///
    /// Memory was refused.
    pub fn of(alloc: Global, rule: Rule) -> Result<SharedRule, OutOfMemory>
        ensures { IfOk result (λ s. s ≡ rule) }
    {
        Ok(SharedRule {
            rule: Arc::new(alloc, rule)?,
        })
    }

    /// The rule.
    pub fn rule(&self) -> &Rule
        ensures { result.now ≡ self.now }
    {
        &self.rule
    }

    /// A further holder of the same rule. Nothing is copied.
    ///
    /// # Errors
    ///
    /// A further holder was refused, which counts as want of memory.
    pub fn share(&self) -> Result<SharedRule, OutOfMemory>
        ensures { IfOk result (λ s. s ≡ self.now) }
    {
        Ok(SharedRule {
            rule: self.rule.clone()?,
        })
    }
}

/// Which target takes what is put in where several may: the first, the last, or each a share.
#[derive(Clone, Copy, Debug, PartialEq, Eq)]
pub enum CutRule {
    First,
    Last,
    Even,
}

/// When a read-only region denies: always, for edits alone, or at even versions.
#[derive(Clone, Copy, Debug, PartialEq, Eq)]
pub enum QueryRule {
    Always,
    EditOnly,
    EvenVersion,
}

/// How a span is tracked by a rule of its own: growing where it has text, or as a caret.
#[derive(Clone, Copy, Debug, PartialEq, Eq)]
pub enum CustomRule {
    Sticky,
    Caret,
}
