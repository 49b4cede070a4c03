//! How points and spans are tracked, after `PointTrackingMode`, `SpanTrackingMode`,
//! `TrackingFidelityMode`, `PositionAffinity` and `EdgeInsertionMode` of the editor SDK.

/// On which side of what is put in at a point the point stands: after it, or before it.
#[derive(Clone, Copy, Debug, PartialEq, Eq)]
pub enum PointMode {
    Positive,
    Negative,
}

/// Whether a span takes in what is put in at its edges: at none, at both, at its end alone, or at
/// its start alone.
#[derive(Clone, Copy, Debug, PartialEq, Eq)]
pub enum SpanMode {
    EdgeExclusive,
    EdgeInclusive,
    EdgePositive,
    EdgeNegative,
}

/// Whether tracking to a version that an undo gave back goes by the version that it repeats.
#[derive(Clone, Copy, Debug, PartialEq, Eq)]
pub enum Fidelity {
    Forward,
    Backward,
    UndoRedo,
}

/// Which of the two units at a point it belongs to.
#[derive(Clone, Copy, Debug, PartialEq, Eq)]
pub enum Affinity {
    Predecessor,
    Successor,
}

/// Whether a read-only region lets text be put in at its edges.
#[derive(Clone, Copy, Debug, PartialEq, Eq)]
pub enum EdgeMode {
    Allow,
    Deny,
}
