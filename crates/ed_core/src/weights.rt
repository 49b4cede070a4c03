//! How much a reply answers.
ghost use Rattle.std.specs.Prelude.{◌≡◌, ◌<◌, ◌^◌};
ghost use Rattle.ed_base.specs.ChangeList.{inserted_len};
ghost use Rattle.ed_machine.specs.Answers.{weight};

use ed_base::Changes;
use ed_entry::Reply;

/// How many units all changes together put in.
pub fn inserted(changes: &Changes) -> u64
    ensures units { result ≡ inserted_len changes.now }
    ensures few { result < 2 ^ 32 }
{
    let mut units = 0u64;
    for change in changes.as_slice() {
        units += change.text.as_slice().len() as u64;
    }
    units
}

/// What a reply weighs: the numbers, lines and changes in it, with the units of the changes.
pub fn weight(reply: &Reply) -> u64
    ensures weight { result ≡ weight reply.now }
    ensures fits { result < 2 ^ 63 }
{
    match reply {
        Reply::Lines { lines } => lines.as_slice().len() as u64,
        Reply::Changes { changes } => u64::from(changes.count()) + inserted(changes),
        Reply::Versions { numbers } => numbers.as_slice().len() as u64,
        _ => 0,
    }
}
