//! Images of a span, as far as they are known.
ghost use Rattle.std.specs.Prelude.{◌≤◌, IsTrue, length};
ghost use Rattle.ed_map.specs.Images.{StandsAt};

use ed_base::{BufferNo, Span, VersionNo};

/// Where a version shows places of a span: spans that lie apart, by rising start.
#[derive(Drop)]
pub struct Known {
    pub buffer: BufferNo,
    pub version: VersionNo,
    pub spans: Vec<Span>,
}

/// Where the entry of a version stands among those that are known, or where it is to be put.
pub fn slot_of(known: &[Known], b: BufferNo, v: VersionNo) -> usize
    ensures { result ≤ length known.now }
{
    known.partition_point(|entry| (entry.buffer, entry.version) < (b, v))
}

/// Whether the entry of a version stands there.
pub fn is_at(known: &[Known], at: usize, b: BufferNo, v: VersionNo) -> bool
    ensures told { IsTrue result → StandsAt b v at known.now }
    ensures there { StandsAt b v at known.now → IsTrue result }
{
    match known.get(at) {
        None => false,
        Some(entry) => entry.buffer == b && entry.version == v,
    }
}
