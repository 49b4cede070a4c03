//! Putting words and numbers at the end of a line.
ghost use Rattle.std.specs.Prelude.{◌≡◌, ◌++◌, decimal, OnOk};

use ed_base::OutOfMemory;
use std::alloc::Global;

/// A line under way: its bytes so far.
pub type Line = Vec<u8>;

/// Puts a text at the end.
pub fn word(line: &mut Line, text: &str) -> Result<(), OutOfMemory>
    ensures { OnOk result (line.new.items ≡ line.old.items ++ text.now) }
{
    line.extend_from_slice(text.as_bytes())?;
    Ok(())
}

/// Puts a number at the end, in decimal digits.
pub fn number(alloc: Global, line: &mut Line, number: u64) -> Result<(), OutOfMemory>
    ensures { OnOk result (line.new.items ≡ line.old.items ++ decimal number) }
{
    let digits = format!(in alloc; "{number}")?;
    word(line, digits.as_str())
}
