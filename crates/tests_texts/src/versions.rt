//! Chains of versions.
ghost use Rattle.std.specs.Prelude.{◌≡◌, ◌+◌, ◌<◌, ◌≤◌, ◌^◌, length};

use crate::changes::changes_of;
use crate::texts::{text_of, units_of};
use ed_base::{BufferNo, VersionNo};
use ed_text::{MOST_UNITS, Text};
use ed_units::to_units;
use ed_version::{Chain, Snapshot};
use std::alloc::Global;
use std::test::*;

/// One more version: the last one with so many units from a start on replaced.
fn edit(alloc: Global, chain: &mut Chain, row: (u32, u32, &'static str)) -> Result<(), Fail> {
    if chain.is_full() {
        return Err("full".into());
    }
    let now = chain.now();
    let old = chain.text_at(now);
    let changes = changes_of(alloc, old.len(), &[row])??;
    if changes.new_len() > MOST_UNITS || changes.old_len() != old.len() {
        return Err("too long".into());
    }
    let text = old.replace(alloc, &changes)?;
    chain.reserve()?;
    chain.push(text, changes, VersionNo(now.0 + 1));
    Ok(())
}

/// The snapshot of a version, shared.
fn snapshot(chain: &Chain, version: u32) -> Result<Snapshot, Fail> {
    if version > chain.now().0 {
        return Err("not there".into());
    }
    Ok(chain.snapshot(VersionNo(version))?.share()?)
}

#[test]
fn older_versions_stay(rt: HostRuntime) -> Result<(), Fail> {
    let alloc = rt.alloc();
    let mut chain = Chain::new(alloc, BufferNo(7), text_of(alloc, &[97, 98])?)?;
    for row in [(1, 0, "x"), (1, 1, ""), (0, 1, "")] {
        edit(alloc, &mut chain, row)?;
    }
    for (version, text) in [(0, "ab"), (1, "axb"), (2, "ab"), (3, "b")] {
        let Snapshot {
            buffer,
            version: number,
            text: found,
        } = snapshot(&chain, version)?;
        assert_eq!(rt; (buffer, number), (BufferNo(7), VersionNo(version)));
        let expected = to_units(alloc, text)?;
        assert_eq!(rt; units_of(alloc, &found)?.as_slice(), expected.as_slice());
    }
    let numbers = chain.reiterated_numbers(alloc)?;
    assert_eq!(rt; numbers.as_slice(), [0, 1, 2, 3].as_slice());
    Ok(())
}
