//! What a script can tell.
use ed_base::{
    EdgeMode, Name, PairList, PointMode, RegionNo, ReplaceList, ScriptSpanList, SpanHow, SpanMode,
    Units, VersionNo,
};

/// A command of a script.
#[derive(Drop)]
pub enum Command {
    /// Makes a base buffer of this text.
    Buffer {
        name: Name,
        text: Units,
    },
    /// Makes a projection that shows these members, one after another. Their spans are of the
    /// current versions of their buffers. A resolver that is named divides what is put in between
    /// members.
    Projection {
        name: Name,
        spans: ScriptSpanList,
        resolver: Option<Name>,
    },
    /// Makes an elision buffer that shows a buffer without these parts of its current text. A
    /// resolver that is named divides what is put in where a part is hidden.
    Elision {
        name: Name,
        buffer: Name,
        hide: PairList,
        resolver: Option<Name>,
    },
    /// Edits a buffer. All replaces refer to its text before the edit. Where a version is named it
    /// has to be the current one.
    Edit {
        buffer: Name,
        replaces: ReplaceList,
        at: Option<VersionNo>,
    },
    /// Replaces `count` members of a projection, from index `first` on, by these. Where a version is
    /// named it has to be the current one.
    Spans {
        buffer: Name,
        first: u32,
        count: u32,
        spans: ScriptSpanList,
        at: Option<VersionNo>,
    },
    /// Hides parts of the current text of what an elision buffer shows, and then shows others. Where
    /// a version is named it has to be the elision buffer's current one.
    Elide {
        buffer: Name,
        hide: PairList,
        show: PairList,
        at: Option<VersionNo>,
    },
    /// Adds a read-only region to a buffer. Its span follows every version by the mode, and a query
    /// that is named says when it denies.
    Region {
        buffer: Name,
        start: u32,
        len: u32,
        edge: EdgeMode,
        mode: SpanMode,
        query: Option<Name>,
    },
    /// Removes a read-only region.
    Unregion {
        buffer: Name,
        region: RegionNo,
    },
    /// Asks whether a region denies what is done at a span: putting something in where it is empty,
    /// else deleting it.
    Readonly {
        buffer: Name,
        start: u32,
        len: u32,
    },
    /// Asks for the text of a version of a buffer, by default the current one.
    Text {
        buffer: Name,
        at: Option<VersionNo>,
    },
    /// Asks for the lines of a version of a buffer, by default the current one.
    Lines {
        buffer: Name,
        at: Option<VersionNo>,
    },
    /// Asks for the change list from a version of a buffer to the next.
    Changes {
        buffer: Name,
        from: VersionNo,
    },
    /// Asks for the reiterated numbers of all versions of a buffer.
    Versions {
        buffer: Name,
    },
    /// Asks where a point of version `at` goes in version `to`; each is the current one where it
    /// isn't named.
    Point {
        buffer: Name,
        pos: u32,
        mode: PointMode,
        at: Option<VersionNo>,
        to: Option<VersionNo>,
    },
    /// Asks likewise where a span goes, by a mode or by a hook.
    Span {
        buffer: Name,
        start: u32,
        len: u32,
        how: SpanHow,
        at: Option<VersionNo>,
        to: Option<VersionNo>,
    },
    /// Asks where a place of the current text of what an elision buffer shows lies in the elision
    /// buffer: behind all that is shown before it.
    Nearest {
        buffer: Name,
        pos: u32,
    },
}
