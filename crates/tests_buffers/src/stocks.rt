//! A stock with a base of the greatest length.
ghost use Rattle.std.specs.Prelude.{◌<◌};
ghost use Rattle.ed_stock.specs.Stock.{count};
ghost use Rattle.ed_group.specs.Seen.{stock};

use ed_base::{BufferNo, Refusal, VersionNo, Which};
use ed_group::{PlanFault, Stock};
use std::test::*;

/// The current version of a buffer and how long it is, if it is there.
fn state(buffers: &Stock, b: BufferNo) -> Option<(VersionNo, u32)> {
    if b.0 >= buffers.count() {
        return None;
    }
    let now = buffers.now(b);
    Some((now, buffers.text_len(b, now)))
}

#[test]
fn a_base_has_at_most_2_to_the_22_units(rt: HostRuntime) -> Result<(), Fail> {
    let alloc = rt.alloc();
    let mut buffers = Stock::new(alloc);
    let units = vec![in alloc; 97; 4_194_305]?;
    let too_long = PlanFault::Refused(Refusal::Limit {
        which: Which::Units,
        count: 4_194_305,
    });
    let added = buffers.add_base(alloc, &units);
    assert_eq!(rt; added, Err(too_long));
    let added = buffers.add_base(alloc, &units[1..]);
    assert_eq!(rt; added, Ok(BufferNo(0)));
    assert_eq!(rt;
        state(&buffers, BufferNo(0)),
        Some((VersionNo(0), 4_194_304))
    );
    assert_eq!(rt; state(&buffers, BufferNo(1)), None);
    Ok(())
}
