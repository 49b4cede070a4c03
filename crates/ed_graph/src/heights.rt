//! How high buffers stand, found round by round: from what is known of the sources, what is known
//! of those that stand on them.
ghost use Rattle.std.specs.Prelude.{◌≡◌, ◌+◌, ◌<◌, ◌≤◌, ◌^◌, List, length, map, fold, max, All, IfOk};
ghost use Rattle.ed_graph.specs.Standing.{AreWithin, heights_in};
ghost use Rattle.ed_graph.specs.Rounds.{height_over};

use ed_base::{BufferNo, OutOfMemory, SharedList};
use std::alloc::Global;

/// One more than the greatest of the sources' heights, and 0 where there is no source.
fn over(heights: &[u32], sources: &[BufferNo]) -> u32
    requires within { All (λ s. s < length heights.now) sources.now }
    requires short { All (λ h. h + 1 < 2 ^ 32) heights.now }
    ensures { result ≡ height_over heights.now sources.now }
{
    let mut height = 0;
    for source in sources {
        height = height.max(heights[source.0 as usize] + 1);
    }
    height
}

/// The heights of the next round.
fn round(
    alloc: Global,
    lists: &[SharedList<BufferNo>],
    heights: &[u32],
) -> Result<Vec<u32>, OutOfMemory>
    requires within { All (All (λ s. s < length heights.now)) lists.now }
    requires short { All (λ h. h + 1 < 2 ^ 32) heights.now }
    ensures { IfOk result (λ v. v.items ≡ map (height_over heights.now) lists.now) }
{
    let mut next = Vec::new(alloc);
    for list in lists {
        next.push(over(heights, list.as_slice()))?;
    }
    Ok(next)
}

/// The heights of all buffers with these sources, each buffer's in the place of its number.
///
/// # Errors
///
/// Memory was refused.
pub fn heights(alloc: Global, lists: &[SharedList<BufferNo>]) -> Result<Vec<u32>, OutOfMemory>
    requires few { length lists.now < 2 ^ 32 }
    requires within { AreWithin lists.now }
    ensures { IfOk result (λ v. v.items ≡ heights_in lists.now) }
{
    let mut heights = vec![in alloc; 0u32; lists.len()]?;
    for done in 0..lists.len() {
        let next = round(alloc, lists, &heights)?;
        if next.as_slice() == heights.as_slice() {
            return Ok(heights);
        }
        heights = next;
    }
    Ok(heights)
}

/// The greatest of these heights, 0 where there is none.
pub fn greatest(heights: &[u32]) -> u32
    ensures { result ≡ fold max 0 heights.now }
{
    let mut height = 0u32;
    for other in heights {
        height = height.max(*other);
    }
    height
}
