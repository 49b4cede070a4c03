//! What an edit is made of, and where the edges of a span go.
use crate::units::Units;

/// A part of a text, in units.
#[derive(Clone, Copy, Debug, PartialEq, Eq)]
pub struct Span {
    pub start: u32,
    pub len: u32,
}

/// Deletes `len` units from `start` on, and puts `text` in at `start`. All replaces of an edit
/// refer to the text before it.
#[derive(Drop)]
pub struct Replace {
    pub start: u32,
    pub len: u32,
    pub text: Units,
}

/// What a step puts in place of `old_len` units from `start` on.
#[derive(Drop)]
pub struct Change {
    pub start: u32,
    pub old_len: u32,
    pub text: Units,
}

/// Where both edges of a span of `len` units may go across a step: each edge before and after what
/// is put in at it.
#[derive(Clone, Copy, Debug, PartialEq, Eq)]
pub struct Edges {
    pub len: u32,
    pub start_neg: u32,
    pub start_pos: u32,
    pub end_neg: u32,
    pub end_pos: u32,
}

/// A line of a text: its span without the break, and the length of the break that ends it.
#[derive(Clone, Copy, Debug, PartialEq, Eq)]
pub struct LineSpan {
    pub span: Span,
    pub break_len: u32,
}
