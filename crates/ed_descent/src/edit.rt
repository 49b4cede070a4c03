//! Edits as they are sent down.
use ed_base::{BufferNo, Changes};

/// An edit of one buffer: changes of its current text.
#[derive(Drop)]
pub struct BufferEdit {
    pub buffer: BufferNo,
    pub changes: Changes,
}
