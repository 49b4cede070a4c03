//! Telling the commands of a script, one after another.
ghost use Rattle.std.specs.Prelude.{◌≡◌, ◌++◌, ◌∷◌, [], IsTrue, OnOk, OnErr};
ghost use mathlib.Core.List.{IsPrefix};
ghost use Rattle.ed_callbacks.specs.HookLists.{hook_table};
ghost use Rattle.ed_machine.specs.History.{after, alone, told};
ghost use Rattle.ed_replay.specs.Lawful.{AreLawful, Obeys};

use ed_base::{OutOfMemory, SeatNo, SpanList};
use ed_callbacks::Hooks;
use ed_core::Core;
use ed_entry::{Entry, Event};
use ed_script::Command;
use std::alloc::Global;

/// The seat of who tells the commands.
const SESSION: SeatNo = SeatNo(0);

/// A history, and whether it has all that was to be done.
#[derive(Drop)]
pub struct Told {
    pub entries: Vec<Entry>,
    pub is_whole: bool,
}

/// One more entry: the command, told by seat 0, and the reply of the core.
fn tell(
    hooks: &Hooks,
    core: &mut Core,
    entries: &mut Vec<Entry>,
    command: Command,
) -> Result<(), OutOfMemory>
    ensures state { OnOk result (core.new ≡ after (hook_table hooks.now) core.old command) }
    ensures entry { OnOk result (entries.new.items ≡ entries.old.items ++ told (hook_table hooks.now) core.old command ∷ []) }
    ensures err { OnErr result (entries.new.items ≡ entries.old.items) }
    ensures obeys { OnOk result (Obeys core.old core.new) }
{
    entries.reserve(1)?;
    let event = Event::Told(command);
    let reply = core.step(hooks, SESSION, &event, SpanList::empty())?;
    entries.push_reserved(Entry {
        seat: SESSION,
        event,
        reply,
    });
    Ok(())
}

/// The history of these commands, as far as memory is given.
pub fn tell_all(alloc: Global, hooks: &Hooks, commands: Vec<Command>) -> Told
    ensures part { IsPrefix result.entries.items (alone (hook_table hooks.now) commands.items) }
    ensures whole { IsTrue result.is_whole → result.entries.items ≡ alone (hook_table hooks.now) commands.items }
    ensures lawful { AreLawful (hook_table hooks.now) result.entries.items }
{
    let mut core = Core::new(alloc);
    let mut entries = Vec::new(alloc);
    for command in commands {
        let Ok(()) = tell(hooks, &mut core, &mut entries, command) else {
            return Told {
                entries,
                is_whole: false,
            };
        };
    }
    Told {
        entries,
        is_whole: true,
    }
}
