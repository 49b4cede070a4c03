//! A replay from memory to memory, with no hooks: those of the program are shown by the sessions under
//! `examples/`.
ghost use Rattle.std.specs.Prelude.{◌<◌};

use ed_callbacks::Hooks;
use ed_io::{MemorySink, MemorySource};
use ed_replay::{Status, run};
use std::alloc::Global;
use std::test::*;

/// What was written, and how the replay ended.
#[derive(Drop)]
pub struct Outcome {
    pub written: Vec<u8>,
    pub status: Status,
    pub entries: usize,
}

/// Runs the words on a script that is read and written in pieces, with a read and a write that fail
/// (0: none).
pub fn played(
    alloc: Global,
    line: &str,
    script: &str,
    piece: u32,
    failing_read: u32,
    failing_write: u32,
) -> Result<Outcome, Fail>
    requires { 0 < piece }
{
    let mut words = Vec::new(alloc);
    for word in line.split_ascii_whitespace() {
        words.push(String::from_str(alloc, word)?)?;
    }
    let bytes = Vec::from_slice(alloc, script.as_bytes())?;
    let mut source = MemorySource::new(bytes, piece, vec![in alloc; failing_read]?);
    let mut sink = MemorySink::new(alloc, 1 << 22, piece, vec![in alloc; failing_write]?)?;
    let hooks = Hooks::new(alloc);
    let report = run(alloc, words.as_slice(), &mut source, &mut sink, &hooks);
    Ok(Outcome {
        written: Vec::from_slice(alloc, sink.written())?,
        status: report.status,
        entries: report.entries.len(),
    })
}

/// What a script writes that is replayed to its end.
pub fn answers(alloc: Global, script: &str) -> Result<String, Fail> {
    let outcome = played(alloc, "replay", script, 1 << 16, 0, 0)?;
    if outcome.status != Status::Done {
        return Err("not done".into());
    }
    match String::from_utf8(outcome.written) {
        Ok(text) => Ok(text),
        Err(_) => Err("not text".into()),
    }
}
