//! Snapshots.
ghost use Rattle.std.specs.Prelude.{◌≡◌, IfOk};

use ed_base::{BufferNo, OutOfMemory, VersionNo};
use ed_text::{DocText, Text};

/// The text of a buffer at one version, after `ITextSnapshot` of the editor SDK. It never changes,
/// and its holders share the text.
#[derive(Drop)]
pub struct Snapshot {
    pub buffer: BufferNo,
    pub version: VersionNo,
    pub text: DocText,
}

impl Snapshot {
    /// A further holder of the same snapshot. Nothing is copied.
    ///
    /// # Errors
    ///
    /// A further holder was refused, which counts as want of memory.
    pub fn share(&self) -> Result<Snapshot, OutOfMemory>
        ensures { IfOk result (λ s. s ≡ self.now) }
    {
        Ok(Snapshot {
            buffer: self.buffer,
            version: self.version,
            text: self.text.share()?,
        })
    }
}
