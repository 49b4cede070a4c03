//! The top call.
ghost use Rattle.std.specs.Prelude.{◌≡◌, ◌↔◌, map, string_bytes, IsTrue};
ghost use Rattle.ed_callbacks.specs.HookLists.{hook_table};
ghost use Rattle.ed_replay.specs.Headline.{Headline, replay as a_replay};
ghost use Rattle.ed_replay.specs.Words.{asked};

use crate::replay::replay_alone;
use crate::report::{Report, Status};
use ed_callbacks::Hooks;
use ed_io::{Sink, Source};
use std::alloc::Global;

/// Whether the words are the one word `replay`.
fn asks_for_replay(words: &[String]) -> bool
    ensures { IsTrue result ↔ (asked (map string_bytes words.now) ≡ a_replay) }
{
    words.len() == 1 && words[0].as_str() == "replay"
}

/// Does what the words after the program's name ask for: `replay` replays the script that the
/// source gives, and writes a line for each of its commands to the sink; commands may name these
/// hooks. Other words are wrong; then nothing is read or written.
pub fn run<I: Source, O: Sink>(
    alloc: Global,
    words: &[String],
    source: &mut I,
    sink: &mut O,
    hooks: &Hooks,
) -> Report
    ensures { Headline (hook_table hooks.now) (asked (map string_bytes words.now)) (record {
      left_before = I.left source.old;
      left_after = I.left source.new;
      source_faults_before = I.faults source.old;
      source_faults_after = I.faults source.new;
      held_before = O.held sink.old;
      held_after = O.held sink.new;
      sink_faults_before = O.faults sink.old;
      sink_faults_after = O.faults sink.new;
      status = result.status;
      entries = result.entries.items;
    }) }
{
    if asks_for_replay(words) {
        return replay_alone(alloc, source, sink, hooks);
    }
    Report {
        status: Status::Usage,
        entries: Vec::new(alloc),
    }
}
