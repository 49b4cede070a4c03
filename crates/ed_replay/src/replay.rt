//! The replay of a script by one seat alone.
ghost use Rattle.std.specs.Prelude.{◌≡◌, ◌≤◌, []};
ghost use Rattle.ed_io.specs.Faults.{Rose};
ghost use Rattle.ed_callbacks.specs.HookLists.{hook_table};
ghost use Rattle.ed_machine.specs.History.{alone};
ghost use Rattle.ed_replay.specs.Headline.{Replays};
ghost use Rattle.ed_replay.specs.Lawful.{AreLawful};
ghost use Rattle.ed_replay.specs.Replaying.{Performs, Plays, ending};

use crate::report::{Report, Status};
use crate::telling::tell_all;
use crate::writing::{Unwritten, write_entries};
use ed_callbacks::Hooks;
use ed_io::{Ended, Sink, Source, read_all};
use ed_script::{BadLine, MOST_BYTES, Script, read_script};
use std::alloc::Global;

/// Does what a script tells, and writes what was answered.
fn perform<O: Sink>(alloc: Global, hooks: &Hooks, script: Script, sink: &mut O) -> Report
    ensures performs { Performs (alone (hook_table hooks.now) script.commands.items) (O.held sink.old) (O.held sink.new) (ending script.bad) (Rose (O.faults sink.old) (O.faults sink.new)) result.status result.entries.items }
    ensures lawful { AreLawful (hook_table hooks.now) result.entries.items }
    ensures later { O.faults sink.old ≤ O.faults sink.new }
{
    let Script { commands, bad } = script;
    let told = tell_all(alloc, hooks, commands);
    let written = write_entries(alloc, sink, told.entries.as_slice());
    let entries = told.entries;
    if !told.is_whole {
        let status = Status::Memory;
        return Report { status, entries };
    }
    match (written, bad) {
        (Err(Unwritten::Memory), _) => {
            let status = Status::Memory;
            Report { status, entries }
        }
        (Err(Unwritten::Failed), _) => {
            let status = Status::WriteFault;
            Report { status, entries }
        }
        (Ok(()), None) => {
            let status = Status::Done;
            Report { status, entries }
        }
        (Ok(()), Some(BadLine { line, kind })) => {
            let status = Status::BadScript { line, kind };
            Report { status, entries }
        }
    }
}

fn nothing_done(alloc: Global, status: Status) -> Report
    ensures status { result.status ≡ status }
    ensures entries { result.entries.items ≡ [] }
{
    Report {
        status,
        entries: Vec::new(alloc),
    }
}

/// Replays the script whose bytes these are.
fn play<O: Sink>(alloc: Global, hooks: &Hooks, bytes: Vec<u8>, ended: bool, sink: &mut O) -> Report
    ensures plays { Plays (hook_table hooks.now) bytes.items ended (O.held sink.old) (O.held sink.new) (Rose (O.faults sink.old) (O.faults sink.new)) result.status result.entries.items }
    ensures lawful { AreLawful (hook_table hooks.now) result.entries.items }
    ensures later { O.faults sink.old ≤ O.faults sink.new }
{
    match read_script(alloc, bytes.as_slice(), ended) {
        Ok(script) => perform(alloc, hooks, script, sink),
        Err(_) => nothing_done(alloc, Status::Memory),
    }
}

/// Replays the script that a source gives: reads it whole, tells its commands one after another,
/// and writes a line for each to the sink. Commands may name these hooks. It waits for nobody and
/// returns for every input.
pub fn replay_alone<I: Source, O: Sink>(
    alloc: Global,
    source: &mut I,
    sink: &mut O,
    hooks: &Hooks,
) -> Report
    ensures { Replays (hook_table hooks.now) (record {
      left_before = I.left source.old;
      left_after = I.left source.new;
      source_faults_before = I.faults source.old;
      source_faults_after = I.faults source.new;
      held_before = O.held sink.old;
      held_after = O.held sink.new;
      sink_faults_before = O.faults sink.old;
      sink_faults_after = O.faults sink.new;
      status = result.status;
      entries = result.entries.items;
    }) }
{
    let taken = read_all(alloc, source, MOST_BYTES as u32);
    match taken.ended {
        Ended::End => play(alloc, hooks, taken.bytes, true, sink),
        Ended::Limit => play(alloc, hooks, taken.bytes, false, sink),
        Ended::Failed => nothing_done(alloc, Status::ReadFault),
        Ended::Memory => nothing_done(alloc, Status::Memory),
    }
}
