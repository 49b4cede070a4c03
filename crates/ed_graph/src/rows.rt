//! The sources of all buffers, shared.
ghost use Rattle.std.specs.Prelude.{◌≡◌, IfOk};

use ed_base::{BufferNo, OutOfMemory, SharedList};
use std::alloc::Global;

/// Further holders of the same lists.
///
/// # Errors
///
/// Memory was refused.
pub fn shared_rows(
    alloc: Global,
    lists: &[SharedList<BufferNo>],
) -> Result<Vec<SharedList<BufferNo>>, OutOfMemory>
    ensures { IfOk result (λ v. v.items ≡ lists.now) }
{
    let mut rows = Vec::new(alloc);
    for list in lists {
        rows.push(list.share()?)?;
    }
    Ok(rows)
}
