//! The bound on what an edit may put in.
ghost use Rattle.std.specs.Prelude.{◌≤◌, ◌↔◌, IsTrue};
ghost use Rattle.ed_base.specs.Edit.{units_put_in};

use ed_base::Replace;

/// Whether the replaces together put in no more than so many units, as `normalise` requires it.
pub fn puts_in_at_most(replaces: &[Replace], units: u64) -> bool
    ensures { IsTrue result ↔ (units_put_in replaces.now ≤ units) }
{
    let mut left = units;
    for replace in replaces {
        let len = replace.text.as_slice().len() as u64;
        if left < len {
            return false;
        }
        left -= len;
    }
    true
}
