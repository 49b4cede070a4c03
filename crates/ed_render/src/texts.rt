//! How texts are printed.
ghost use Rattle.std.specs.Prelude.{◌≡◌, ◌++◌, OnOk};
ghost use Rattle.ed_units.specs.Quoted.{quoted, quoted_units};

use crate::push::{Line, word};
use ed_base::{OutOfMemory, Span, Units};
use ed_text::Text;
use ed_units::write_units;
use std::alloc::Global;

/// How many units are read at once.
const PIECE_LEN: u32 = 4096;

/// Puts a text at the end, between quotation marks. It is read piece by piece, and never copied whole.
pub fn quoted_text<T: Text>(alloc: Global, line: &mut Line, text: &T) -> Result<(), OutOfMemory>
    ensures { OnOk result (line.new.items ≡ line.old.items ++ quoted (T.units text.now)) }
{
    word(line, "\"")?;
    each_piece(alloc, line, text)?;
    word(line, "\"")
}

fn each_piece<T: Text>(alloc: Global, line: &mut Line, text: &T) -> Result<(), OutOfMemory>
    ensures { OnOk result (line.new.items ≡ line.old.items ++ quoted_units (T.units text.now)) }
{
    let len = text.len();
    let mut piece = Units::new(alloc);
    let mut at = 0;
    while at < len {
        let left = len - at;
        let span = Span {
            start: at,
            len: left.min(PIECE_LEN),
        };
        piece.truncate(0);
        text.copy_out(span, &mut piece)?;
        at += write_units(piece.as_slice(), span.len == left, line)? as u32;
    }
    Ok(())
}
