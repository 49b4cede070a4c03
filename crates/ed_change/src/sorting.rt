//! Replaces by their starts.
ghost use Rattle.std.specs.Prelude.{map, IfOk};
ghost use Rattle.ed_change.specs.Sweep.{AreInOrder};

use ed_base::{OutOfMemory, Replace};
use std::alloc::Global;

/// The replaces by rising start. Those that start at one gap stay in their order.
///
/// # Errors
///
/// Memory was refused.
pub fn by_start<'r>(alloc: Global, replaces: &'r [Replace]) -> Result<Vec<&'r Replace>, OutOfMemory>
    ensures { IfOk result (λ v. AreInOrder replaces.now (map (λ r. r.now) v.items)) }
{
    let mut order: Vec<&Replace> = replaces.iter().collect(alloc)?;
    order.sort_by_key(|replace| replace.start)?;
    Ok(order)
}
