//! What aggregators answer.
use crate::SpanList;
use crate::edit::Span;
use crate::numbers::{TaggerNo, VersionNo};
use crate::shared::SharedList;

/// A tag of a tagger's buffer, and the spans of the aggregator's buffer that show it.
#[derive(Drop)]
pub struct TagImage {
    pub tag: Span,
    pub image: SpanList,
}

/// The tags of one tagger: the version of their batch, or none where it has no batch, and then no
/// tags.
#[derive(Drop)]
pub struct AnswerPart {
    pub tagger: TaggerNo,
    pub version: Option<VersionNo>,
    pub tags: SharedList<TagImage>,
}

/// The spans in which one tagger's tags changed.
#[derive(Drop)]
pub struct FlushPart {
    pub tagger: TaggerNo,
    pub spans: SpanList,
}
