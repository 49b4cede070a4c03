//! Reading a script line by line.
ghost use Rattle.std.specs.Prelude.{◌≡◌, ◌++◌, IfOk, OnOk, OnErr, option_map, position, nat_eq, take, drop, List, Option, Some, None, Ok, Err, IsErrOf, ℕ, ◌+◌, ◌≤◌, ◌<◌, ◌^◌, length};
ghost use Rattle.ed_script.specs.Script as spec;
ghost use Rattle.ed_script.specs.Script.{line_command, last_line, listed, with_commands, script_from, IsScript};
ghost use Rattle.ed_script.specs.Lines.{lines_of};
ghost use Rattle.ed_script.specs.declared.bad.BadKind.{BadKind};

use crate::bad::{BadKind, BadLine, LineFault};
use crate::kinds::Command;
use crate::read::command;
use ed_base::OutOfMemory;
use std::alloc::Global;

/// The most bytes of a script. One more is read to tell that there are more.
pub const MOST_BYTES: usize = 1 << 20;

/// The commands of a script before its first bad line, and that line if there is one.
#[derive(Drop)]
pub struct Script {
    pub commands: Vec<Command>,
    pub bad: Option<BadLine>,
}

fn line_end(bytes: &[u8]) -> Option<usize>
    ensures { result ≡ position (λ b. nat_eq b 10) bytes.now }
{
    bytes.iter().position(|byte| *byte == b'\n')
}

fn line_before(bytes: &[u8], end: usize) -> &[u8]
    requires { end < length bytes.now }
    ensures { result.now ≡ take end bytes.now }
{
    &bytes[..end]
}

fn rest_after(bytes: &[u8], end: usize) -> &[u8]
    requires { end < length bytes.now }
    ensures { result.now ≡ drop (end + 1) bytes.now }
{
    &bytes[end + 1..]
}

/// Adds the command of a line, if it gives one.
fn add_line(alloc: Global, commands: &mut Vec<Command>, line: &[u8]) -> Result<(), LineFault>
    ensures ok { OnOk result ((o : Option Command) × (line_command line.now ≡ Ok o) × (commands.new.items ≡ commands.old.items ++ listed o)) }
    ensures not_json { IsErrOf result LineFault.NotJson → (line_command line.now ≡ Err BadKind.NotJson) × (commands.new.items ≡ commands.old.items) }
    ensures not_command { IsErrOf result LineFault.NotCommand → (line_command line.now ≡ Err BadKind.NotCommand) × (commands.new.items ≡ commands.old.items) }
{
    match command(alloc, line)? {
        None => Ok(()),
        Some(found) => {
            commands.push(found)?;
            Ok(())
        }
    }
}

fn bad_at(commands: Vec<Command>, line: u32, kind: BadKind) -> Script
    ensures commands { result.commands ≡ commands }
    ensures bad { result.bad ≡ (spec.bad_at line kind).bad }
{
    let bad = Some(BadLine { line, kind });
    Script { commands, bad }
}

/// The script of these commands and of what stands after the last line end.
fn with_last_line(
    alloc: Global,
    mut commands: Vec<Command>,
    number: u32,
    rest: &[u8],
    ended: bool,
) -> Result<Script, OutOfMemory>
    ensures { IfOk result (λ s. IsScript s (with_commands commands.items (last_line ended number rest.now))) }
{
    if !ended || rest.is_empty() {
        return Ok(Script {
            commands,
            bad: None,
        });
    }
    match add_line(alloc, &mut commands, rest) {
        Ok(()) => Ok(Script {
            commands,
            bad: None,
        }),
        Err(LineFault::NotJson) => Ok(bad_at(commands, number, BadKind::NotJson)),
        Err(LineFault::NotCommand) => Ok(bad_at(commands, number, BadKind::NotCommand)),
        Err(LineFault::OutOfMemory) => Err(OutOfMemory),
    }
}

/// The commands of a script whose bytes these are. Where the input hasn't ended, what stands after
/// the last line end is no line yet.
///
/// # Errors
///
/// Memory was refused.
#[tactic(auto, unfolding(crate::specs::Script::script_of))]
pub fn read_script(alloc: Global, bytes: &[u8], ended: bool) -> Result<Script, OutOfMemory>
    ensures { IfOk result (λ s. IsScript s (spec.script_of bytes.now ended)) }
{
    let mut commands = Vec::new(alloc);
    if bytes.len() > MOST_BYTES {
        return Ok(bad_at(commands, 1, BadKind::NotCommand));
    }
    let mut rest = bytes;
    let mut number: u32 = 1;
    while let Some(end) = line_end(rest) {
        match add_line(alloc, &mut commands, line_before(rest, end)) {
            Ok(()) => {}
            Err(LineFault::NotJson) => return Ok(bad_at(commands, number, BadKind::NotJson)),
            Err(LineFault::NotCommand) => {
                return Ok(bad_at(commands, number, BadKind::NotCommand));
            }
            Err(LineFault::OutOfMemory) => return Err(OutOfMemory),
        }
        rest = rest_after(rest, end);
        number += 1;
    }
    with_last_line(alloc, commands, number, rest, ended)
}
