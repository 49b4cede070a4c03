//! The lines of the output.
ghost use Rattle.std.specs.Prelude.{◌≡◌, IfOk};
ghost use Rattle.ed_render.specs.Lines.{line_text};

use crate::events::event;
use crate::push::{number, word};
use crate::replies::reply;
use ed_base::OutOfMemory;
use ed_entry::Entry;
use std::alloc::Global;

/// The line of the entry at a position of the history, counted from 1: the position, the seat, the
/// event and the reply, with a line feed.
///
/// # Errors
///
/// Memory was refused.
#[tactic(auto, unfolding(crate::specs::Lines::line_text))]
pub fn line(alloc: Global, position: u64, entry: &Entry) -> Result<Vec<u8>, OutOfMemory>
    ensures { IfOk result (λ bytes. bytes.items ≡ line_text position entry.now) }
{
    let mut line = Vec::new(alloc);
    number(alloc, &mut line, position)?;
    word(&mut line, " ")?;
    let seat = &entry.seat;
    number(alloc, &mut line, u64::from(seat.0))?;
    word(&mut line, " ")?;
    event(&mut line, &entry.event)?;
    word(&mut line, ": ")?;
    reply(alloc, &mut line, &entry.reply)?;
    word(&mut line, "\n")?;
    Ok(line)
}
