//! The graph of buffers as a value.
ghost use Rattle.std.specs.Prelude.{◌≡◌, ◌+◌, ◌<◌, ◌≤◌, ◌^◌, ◌⊎◌, List, [], ◌∷◌, ◌++◌, length, fold, max, All, Some, None, IfOk, MatchOption, MatchResult, option_copied};
ghost use Rattle.ed_graph.specs.Standing.{IsLevelled, AreWithin, first_cycle, greatest_in, height_in, heights_in, link_fault, linked, order_in, reaches_in, sources_in};

use crate::fault::LinkFault;
use crate::heights::{greatest, heights};
use crate::ordering::ordered;
use crate::reaching::{cell, reaching};
use crate::rows::shared_rows;
use ed_base::{BufferNo, OutOfMemory, SharedList};
use std::alloc::Global;
use std::marker::Model;

/// How high buffers may be stacked.
const MOST_HEIGHT: u32 = 8;

/// Who stands on whom: for each buffer the buffers on which it stands, its sources. No buffer
/// stands on itself, also by way of others, and none stands higher than 8. A base stands on none.
///
/// A graph never changes: `add` and `link` answer another graph and leave this one as it is. What
/// it knows of heights, of reaching and of the order is kept, so that the look-ups take no search.
///
/// Its notions are those of the editor SDK's `IBufferGraph` and
/// `IProjectionBufferBase.SourceBuffers`.
#[derive(Drop)]
pub struct Graph {
    lists: SharedList<SharedList<BufferNo>>,
    heights: SharedList<u32>,
    rows: SharedList<SharedList<bool>>,
    order: SharedList<BufferNo>,
}

impl Model for Graph {
    ghost use Rattle.std.specs.Prelude.{ℕ, List};
    ghost use Rattle.ed_graph.specs.Kept.{IsKept};

    ghost Value = { List (List ℕ) };

    ghost view = { λ g. g.lists };

    ghost invariant = { λ g. IsKept g.lists g.heights g.rows g.order };
}

/// The graph of these sources, whose heights are known.
fn build(
    alloc: Global,
    lists: Vec<SharedList<BufferNo>>,
    heights: Vec<u32>,
) -> Result<Graph, OutOfMemory>
    requires few { length lists.items < 2 ^ 32 }
    requires levelled { IsLevelled lists.items }
    requires heights { heights.items ≡ heights_in lists.items }
    ensures { IfOk result (λ g. g ≡ lists.items) }
{
    let top = greatest(&heights);
    let rows = reaching(alloc, &lists, top)?;
    let order = SharedList::of(alloc, ordered(alloc, &heights, top)?)?;
    Ok(Graph {
        lists: SharedList::of(alloc, lists)?,
        heights: SharedList::of(alloc, heights)?,
        rows,
        order,
    })
}

impl Graph {
    /// The graph without buffers. It takes no memory.
    pub fn new() -> Graph
        ensures { result ≡ [] }
    {
        Graph {
            lists: SharedList::empty(),
            heights: SharedList::empty(),
            rows: SharedList::empty(),
            order: SharedList::empty(),
        }
    }

    /// The graph with one buffer more, which has no source, and that buffer's number.
    ///
    /// # Errors
    ///
    /// Memory was refused.
    pub fn add(&self, alloc: Global) -> Result<(Graph, BufferNo), OutOfMemory>
        requires { length self.now + 1 < 2 ^ 32 }
        ensures graph { IfOk result (λ r. r.0 ≡ self.now ++ [] ∷ []) }
        ensures number { IfOk result (λ r. r.1 ≡ length self.now) }
    {
        let number = self.count();
        let mut lists = shared_rows(alloc, self.lists.as_slice())?;
        lists.push(SharedList::empty())?;
        let heights = heights(alloc, &lists)?;
        Ok((build(alloc, lists, heights)?, BufferNo(number)))
    }

    /// The graph in which the buffer stands on these sources, and on no other. All buffers named
    /// must be there.
    ///
    /// # Errors
    ///
    /// `Cycle` names the first of the sources that is the buffer or stands over it, exactly where
    /// there is one. Else `Depth` names the greatest height of all buffers that there would be,
    /// where that is above 8. Memory may be refused where there is no cycle.
    pub fn link(
        &self,
        alloc: Global,
        buffer: BufferNo,
        sources: &[BufferNo],
    ) -> Result<Graph, LinkFault>
        requires there { buffer < length self.now }
        requires sources_there { All (λ s. s < length self.now) sources.now }
        ensures linked { IfOk result (λ g. g ≡ linked self.now buffer sources.now) }
        ensures fault { MatchResult result (λ _. link_fault self.now buffer sources.now ≡ None) (λ e. (e ≡ LinkFault.OutOfMemory) ⊎ (link_fault self.now buffer sources.now ≡ Some e)) }
        ensures cycle { MatchOption (first_cycle self.now buffer sources.now) (Unit {0}) (λ via. result ≡ Err (LinkFault.Cycle via)) }
    {
        let _ = &self.lists;
        if let Some(via) = self.cycle(buffer, sources) {
            return Err(LinkFault::Cycle { via });
        }
        let lists = self.relinked(alloc, buffer, sources)?;
        let heights = heights(alloc, &lists)?;
        let height = greatest(&heights);
        if height > MOST_HEIGHT {
            return Err(LinkFault::Depth { height });
        }
        Ok(build(alloc, lists, heights)?)
    }

    /// The first of the sources that reaches the buffer.
    fn cycle(&self, buffer: BufferNo, sources: &[BufferNo]) -> Option<BufferNo>
        requires there { buffer < length self.now }
        requires sources_there { All (λ s. s < length self.now) sources.now }
        ensures { result ≡ first_cycle self.now buffer sources.now }
    {
        for source in sources {
            if self.reaches(*source, buffer) {
                return Some(*source);
            }
        }
        None
    }

    /// The sources of all buffers, were these the sources of the buffer.
    fn relinked(
        &self,
        alloc: Global,
        buffer: BufferNo,
        sources: &[BufferNo],
    ) -> Result<Vec<SharedList<BufferNo>>, OutOfMemory>
        requires { buffer < length self.now }
        ensures { IfOk result (λ v. v.items ≡ linked self.now buffer sources.now) }
    {
        let list = SharedList::of(alloc, Vec::from_slice(alloc, sources)?)?;
        let mut lists = shared_rows(alloc, self.lists.as_slice())?;
        lists[buffer.0 as usize] = list;
        Ok(lists)
    }

    /// All buffers, each behind its sources: by height, and those of one height by number.
    pub fn order(&self) -> &[BufferNo]
        ensures order { result.now ≡ order_in self.now }
        ensures levelled { IsLevelled self.now }
    {
        self.order.as_slice()
    }

    /// Whether the first buffer is the second or stands over it.
    pub fn reaches(&self, from: BufferNo, to: BufferNo) -> bool
        requires from_there { from < length self.now }
        requires to_there { to < length self.now }
        ensures { result ≡ reaches_in self.now from to }
    {
        cell(self.rows.as_slice(), from, to)
    }

    /// How high the buffer stands: 0 where it has no source, and else one more than the greatest
    /// height of a source.
    pub fn height(&self, buffer: BufferNo) -> u32
        requires { buffer < length self.now }
        ensures height { result ≡ height_in self.now buffer }
        ensures shallow { result ≤ 8 }
    {
        self.heights.as_slice()[buffer.0 as usize]
    }

    /// The sources of the buffer, as they were given.
    pub fn sources(&self, buffer: BufferNo) -> &[BufferNo]
        requires { buffer < length self.now }
        ensures sources { result.now ≡ sources_in self.now buffer }
        ensures there { All (λ s. s < length self.now) result.now }
    {
        self.lists.as_slice()[buffer.0 as usize].as_slice()
    }

    /// How many buffers there are.
    pub fn count(&self) -> u32
        ensures { result ≡ length self.now }
    {
        self.lists.as_slice().len() as u32
    }

    /// A further holder of the same graph. Nothing is copied.
    ///
    /// # Errors
    ///
    /// A further holder was refused, which counts as want of memory.
    pub fn share(&self) -> Result<Graph, OutOfMemory>
        ensures { IfOk result (λ g. g ≡ self.now) }
    {
        Ok(Graph {
            lists: self.lists.share()?,
            heights: self.heights.share()?,
            rows: self.rows.share()?,
            order: self.order.share()?,
        })
    }
}
