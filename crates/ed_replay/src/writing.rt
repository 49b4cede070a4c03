//! Writing the lines of a history.
ghost use Rattle.std.specs.Prelude.{◌≡◌, ◌↔◌, Err, OnOk, OnErr, ◌≤◌};
ghost use Rattle.ed_io.specs.Bytes.{Added, AddedFront};
ghost use Rattle.ed_io.specs.Faults.{Rose};
ghost use Rattle.ed_render.specs.Lines.{line_text, render};

use ed_entry::Entry;
use ed_io::{Sink, write_all};
use ed_render::line;
use std::alloc::Global;

/// Why a history isn't written whole.
#[derive(Clone, Copy, Debug, PartialEq, Eq)]
pub enum Unwritten {
    /// A write failed.
    Failed,
    /// Memory was refused.
    Memory,
}

/// Writes the line of one entry.
fn write_entry<O: Sink>(
    alloc: Global,
    sink: &mut O,
    position: u64,
    entry: &Entry,
) -> Result<(), Unwritten>
    ensures written { OnOk result (Added (O.held sink.old) (line_text position entry.now) (O.held sink.new)) }
    ensures cut_off { OnErr result (AddedFront (O.held sink.old) (line_text position entry.now) (O.held sink.new)) }
    ensures later { O.faults sink.old ≤ O.faults sink.new }
    ensures failed { result ≡ Err Unwritten.Failed → Rose (O.faults sink.old) (O.faults sink.new) }
{
    let Ok(bytes) = line(alloc, position, entry) else {
        return Err(Unwritten::Memory);
    };
    match write_all(sink, bytes.as_slice()) {
        Ok(()) => Ok(()),
        Err(_) => Err(Unwritten::Failed),
    }
}

/// Writes a line for each entry, each by calls of its own.
///
/// # Errors
///
/// A write failed, or memory was refused. A beginning of the lines was written.
pub fn write_entries<O: Sink>(
    alloc: Global,
    sink: &mut O,
    entries: &[Entry],
) -> Result<(), Unwritten>
    ensures written { OnOk result (Added (O.held sink.old) (render entries.now) (O.held sink.new)) }
    ensures front { AddedFront (O.held sink.old) (render entries.now) (O.held sink.new) }
    ensures later { O.faults sink.old ≤ O.faults sink.new }
    ensures failed { result ≡ Err Unwritten.Failed → Rose (O.faults sink.old) (O.faults sink.new) }
{
    let mut position: u64 = 0;
    for entry in entries {
        position += 1;
        write_entry(alloc, sink, position, entry)?;
    }
    Ok(())
}
