//! How events are printed.
ghost use Rattle.std.specs.Prelude.{◌≡◌, ◌++◌, OnOk};
ghost use Rattle.ed_render.specs.Events.{command_text, event_text};

use crate::push::{Line, word};
use ed_base::{Name, OutOfMemory};
use ed_entry::Event;
use ed_script::Command;

fn named(line: &mut Line, text: &str, name: &Name) -> Result<(), OutOfMemory>
    ensures { OnOk result (line.new.items ≡ line.old.items ++ (text.now ++ name.now)) }
{
    word(line, text)?;
    word(line, name.as_str())
}

fn command(line: &mut Line, command: &Command) -> Result<(), OutOfMemory>
    ensures { OnOk result (line.new.items ≡ line.old.items ++ command_text command.now) }
{
    match command {
        Command::Buffer { name, text: _ } => named(line, "buffer ", name),
        Command::Projection { name, .. } => named(line, "projection ", name),
        Command::Elision { name, .. } => named(line, "elision ", name),
        Command::Edit { buffer, .. } => named(line, "edit ", buffer),
        Command::Spans { buffer, .. } => named(line, "spans ", buffer),
        Command::Elide { buffer, .. } => named(line, "elide ", buffer),
        Command::Region { buffer, .. } => named(line, "region ", buffer),
        Command::Unregion { buffer, .. } => named(line, "unregion ", buffer),
        Command::Readonly { buffer, .. } => named(line, "readonly ", buffer),
        Command::Text { buffer, .. } => named(line, "text ", buffer),
        Command::Lines { buffer, .. } => named(line, "lines ", buffer),
        Command::Changes { buffer, from: _ } => named(line, "changes ", buffer),
        Command::Versions { buffer } => named(line, "versions ", buffer),
        Command::Point { buffer, .. } => named(line, "point ", buffer),
        Command::Span { buffer, .. } => named(line, "span ", buffer),
        Command::Nearest { buffer, pos: _ } => named(line, "nearest ", buffer),
    }
}

/// Puts an event at the end of a line.
pub fn event(line: &mut Line, event: &Event) -> Result<(), OutOfMemory>
    ensures { OnOk result (line.new.items ≡ line.old.items ++ event_text event.now) }
{
    match event {
        Event::Told(told) => command(line, told),
    }
}
