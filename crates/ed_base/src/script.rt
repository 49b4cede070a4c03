//! Parts of commands.
use crate::ReplaceList;
use crate::edit::Span;
use crate::mode::SpanMode;
use crate::name::Name;
use crate::numbers::VersionNo;
use crate::units::Units;

/// A span of a projection as a script gives it: a text, or a span of a named buffer.
#[derive(Drop)]
pub enum ScriptSpan {
    Literal(Units),
    Tracked {
        buffer: Name,
        start: u32,
        len: u32,
        mode: SpanMode,
    },
}

/// How a script wants a span tracked: by a mode, or by a hook.
#[derive(Drop)]
pub enum SpanHow {
    Mode(SpanMode),
    Custom(Name),
}

/// An edit of a group: of the buffer of this name, at a version where one is named.
#[derive(Drop)]
pub struct ScriptEdit {
    pub buffer: Name,
    pub replaces: ReplaceList,
    pub at: Option<VersionNo>,
}
