//! The limits of the stock.
ghost use Rattle.std.specs.Prelude.{◌≡◌, ◌^◌};
ghost use Rattle.ed_base.specs.Numbers.{or_else};
ghost use Rattle.ed_base.specs.declared.refusal.Which.{Which};
ghost use Rattle.ed_climb.specs.Limited.{limit_of, new_limit, passed};

use crate::counts::Counts;
use ed_base::{Refusal, Which};

const MOST_BUFFERS: u64 = 64;

const MOST_UNITS: u64 = 1 << 22;

const MOST_INSERTED: u64 = 1 << 27;

const MOST_VERSIONS: u64 = 1 << 18;

const MOST_MEMBERS: u64 = 1024;

const MOST_PLACEMENTS: u64 = 1 << 26;

/// The first of two refusals that is there.
fn first(refusal: Option<Refusal>, other: Option<Refusal>) -> Option<Refusal>
    ensures { result ≡ or_else refusal other }
{
    match refusal {
        Some(found) => Some(found),
        None => other,
    }
}

/// The refusal of a count that passes its limit.
fn passed(which: Which, most: u64, count: u64) -> Option<Refusal>
    ensures { result ≡ passed which most count }
{
    if most < count {
        return Some(Refusal::Limit { which, count });
    }
    None
}

/// The refusal of so many units of one buffer.
pub fn units_limit(count: u64) -> Option<Refusal>
    ensures { result ≡ passed Which.Units (2 ^ 22) count }
{
    passed(Which::Units, MOST_UNITS, count)
}

/// The refusal of so many members of one buffer.
pub fn members_limit(count: u64) -> Option<Refusal>
    ensures { result ≡ passed Which.Members 1024 count }
{
    passed(Which::Members, MOST_MEMBERS, count)
}

/// The first limit that the numbers pass, where these are the refusals of the units and of the
/// members of single buffers.
pub fn limit(units: Option<Refusal>, counts: &Counts, members: Option<Refusal>) -> Option<Refusal>
    ensures { result ≡ limit_of units counts.now members }
{
    let placements = passed(Which::Placements, MOST_PLACEMENTS, counts.placements);
    let versions = passed(Which::Versions, MOST_VERSIONS, counts.versions);
    let inserted = passed(Which::Inserted, MOST_INSERTED, counts.inserted);
    first(
        units,
        first(inserted, first(versions, first(members, placements))),
    )
}

/// The first limit that is passed with a new buffer, which is the last of so many, and has so many
/// units and members.
pub fn new_limit(buffers: u64, units: u64, counts: &Counts, members: u64) -> Option<Refusal>
    ensures { result ≡ new_limit buffers units counts.now members }
{
    let others = limit(units_limit(units), counts, members_limit(members));
    first(passed(Which::Buffers, MOST_BUFFERS, buffers), others)
}
