//! The plain types of the project, and the definitions that contracts cite: texts, edits, change
//! lists, tracking and read-only regions.
#![tactic(auto)]

mod changes;
mod edit;
mod memory;
mod mode;
mod name;
mod numbers;
mod piece;
mod refusal;
mod rule;
mod script;
mod shared;
mod steps;
mod tags;
mod units;

pub use changes::Changes;
pub use edit::{Change, Edges, LineSpan, Replace, Span};
pub use memory::OutOfMemory;
pub use mode::{Affinity, EdgeMode, Fidelity, PointMode, SpanMode};
pub use name::Name;
pub use numbers::{BufferNo, JobNo, RegionNo, SeatNo, TaggerNo, VersionNo};
pub use piece::{Member, Piece, Side, Trail};
pub use refusal::{Refusal, What, Which};
pub use rule::{CustomRule, CutRule, QueryRule, Rule, SharedRule};
pub use script::{ScriptEdit, ScriptSpan, SpanHow};
pub use shared::SharedList;
pub use steps::Steps;
pub use tags::{AnswerPart, FlushPart, TagImage};
pub use units::{Unit, Units};

/// A text whose holders share its units.
pub type SharedUnits = SharedList<Unit>;

/// Spans of one text, as a script or an answer lists them.
pub type SpanList = SharedList<Span>;

/// Starts and lengths, as a script gives them.
pub type PairList = SharedList<Span>;

/// Replaces of one edit, in the order in which they were given.
pub type ReplaceList = SharedList<Replace>;

/// Numbers of versions.
pub type NumberList = SharedList<u32>;

/// Versions of buffers.
pub type VersionList = SharedList<(BufferNo, VersionNo)>;

/// Lines, from the first on.
pub type LineList = SharedList<LineSpan>;

/// Tags with what shows them.
pub type ImageList = SharedList<TagImage>;

/// What an aggregator answers: a part for each tagger.
pub type Answer = SharedList<AnswerPart>;

/// What a flush answers: a part for each tagger with changed spans.
pub type Flushed = SharedList<FlushPart>;

/// Spans of a projection as a script gives them.
pub type ScriptSpanList = SharedList<ScriptSpan>;

/// Names.
pub type NameList = SharedList<Name>;

/// Edits of one group.
pub type EditList = SharedList<ScriptEdit>;
