//! Which buffers each buffer reaches, found round by round.
ghost use Rattle.std.specs.Prelude.{◌≡◌, ℕ, ◌+◌, ◌<◌, ◌≤◌, ◌^◌, ◌||◌, List, length, map, nat_eq, IfOk};
ghost use Rattle.std.specs.List.{list_any};
ghost use Rattle.ed_base.specs.Numbers.{places};
ghost use Rattle.ed_graph.specs.Standing.{AreWithin, sources_in};
ghost use Rattle.ed_graph.specs.Rounds.{cell_in, row_over, rows_after, rows_over};

use ed_base::{BufferNo, OutOfMemory, SharedList};
use std::alloc::Global;

/// What the rows say of two buffers; false where they say nothing.
pub fn cell(rows: &[SharedList<bool>], from: BufferNo, to: BufferNo) -> bool
    ensures { result ≡ cell_in rows.now from to }
{
    match rows.get(from.0 as usize) {
        None => false,
        Some(row) => match row.as_slice().get(to.0 as usize) {
            None => false,
            Some(reaches) => *reaches,
        },
    }
}

/// Whether the rows say of one of the sources that it reaches the buffer.
fn some_reaches(rows: &[SharedList<bool>], sources: &[BufferNo], to: BufferNo) -> bool
    ensures { result ≡ list_any (λ s. cell_in rows.now s to) sources.now }
{
    sources.iter().any(|source| cell(rows, *source, to))
}

/// Whether a buffer over these sources reaches the other: it is the other, or a source reaches it.
fn next_cell(rows: &[SharedList<bool>], from: u32, sources: &[BufferNo], to: u32) -> bool
    ensures { result ≡ (nat_eq from to || list_any (λ s. cell_in rows.now s to) sources.now) }
{
    from == to || some_reaches(rows, sources, BufferNo(to))
}

/// Which of `count` buffers this one reaches: itself, and what its sources reach.
fn row(
    alloc: Global,
    count: u32,
    rows: &[SharedList<bool>],
    from: u32,
    sources: &[BufferNo],
) -> Result<SharedList<bool>, OutOfMemory>
    ensures { IfOk result (λ r. r ≡ row_over count rows.now from sources.now) }
{
    let mut cells = Vec::new(alloc);
    for to in 0..count {
        cells.push(next_cell(rows, from, sources, to))?;
    }
    SharedList::of(alloc, cells)
}

/// The rows of the next round.
fn round(
    alloc: Global,
    lists: &[SharedList<BufferNo>],
    rows: &[SharedList<bool>],
) -> Result<Vec<SharedList<bool>>, OutOfMemory>
    requires { length lists.now < 2 ^ 32 }
    ensures { IfOk result (λ v. v.items ≡ rows_over lists.now rows.now) }
{
    let count = lists.len() as u32;
    let mut next = Vec::new(alloc);
    for from in 0..count {
        let list = &lists[from as usize];
        next.push(row(alloc, count, rows, from, list.as_slice())?)?;
    }
    Ok(next)
}

/// Which buffers each buffer reaches by at most so many steps down, each buffer's in the place of
/// its number.
///
/// # Errors
///
/// Memory was refused.
pub fn reaching(
    alloc: Global,
    lists: &[SharedList<BufferNo>],
    steps: u32,
) -> Result<SharedList<SharedList<bool>>, OutOfMemory>
    requires few { length lists.now < 2 ^ 32 }
    requires within { AreWithin lists.now }
    requires steps { steps + 1 < 2 ^ 32 }
    ensures { IfOk result (λ r. r ≡ rows_after lists.now steps) }
{
    let mut rows = Vec::new(alloc);
    for done in 0..steps + 1 {
        rows = round(alloc, lists, &rows)?;
    }
    SharedList::of(alloc, rows)
}
