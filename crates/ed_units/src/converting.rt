//! Characters as UTF-16 units.
ghost use Rattle.std.specs.Prelude.{◌≡◌, IfOk};
ghost use Rattle.ed_units.specs.Utf16.{units_of_text};

use ed_base::{OutOfMemory, Units};
use std::alloc::Global;

/// The characters of the text as UTF-16 units, as `str::encode_utf16` gives them: one for a character
/// below 65,536, and a pair of surrogates for any other.
///
/// # Errors
///
/// Memory was refused.
pub fn to_units(alloc: Global, text: &str) -> Result<Units, OutOfMemory>
    ensures { IfOk result (λ u. u ≡ units_of_text text.now) }
{
    let mut units = Units::new(alloc);
    for character in text.chars() {
        let mut pair = [0; 2];
        units.extend(character.encode_utf16(&mut pair))?;
    }
    Ok(units)
}
