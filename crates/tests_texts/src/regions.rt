//! Read-only regions, in numbers that no script reaches. What they deny is shown by sessions.
ghost use Rattle.std.specs.Prelude.{◌≡◌, ◌+◌, ◌≤◌};

use ed_base::{EdgeMode, RegionNo, Span, SpanMode, VersionNo};
use ed_callbacks::Hooks;
use ed_readonly::{RegionFault, Regions};
use std::test::*;

/// Makes a region from 3 up to 7.
fn add_one(regions: &mut Regions) -> Result<RegionNo, RegionFault> {
    let span = Span { start: 3, len: 4 };
    regions.add(span, SpanMode::EdgePositive, EdgeMode::Deny, None)
}

#[test]
fn numbers_are_given_once_and_live_regions_counted_first(rt: HostRuntime) -> Result<(), Fail> {
    let mut regions = Regions::new(rt.alloc());
    let too_many_live = Err(RegionFault::Limit { count: 1025 });
    let too_many = Err(RegionFault::Limit { count: 1_048_577 });
    for number in 0..1024 {
        assert_eq!(rt; add_one(&mut regions), Ok(RegionNo(number)));
    }
    assert_eq!(rt; add_one(&mut regions), too_many_live);
    assert!(rt; regions.remove(RegionNo(7)) && !regions.remove(RegionNo(7)));
    for number in 1024..1_048_575 {
        assert_eq!(rt; add_one(&mut regions), Ok(RegionNo(number)));
        assert!(rt; regions.remove(RegionNo(number)));
    }
    assert_eq!(rt; add_one(&mut regions), Ok(RegionNo(1_048_575)));
    assert_eq!(rt; add_one(&mut regions), too_many_live);
    assert!(rt; regions.remove(RegionNo(0)));
    assert_eq!(rt; add_one(&mut regions), too_many);
    assert_eq!(rt; regions.count(), 1023);
    let hooks = Hooks::new(rt.alloc());
    let span = Span { start: 7, len: 0 };
    let denied = regions.denied_in(span, VersionNo(0), &hooks);
    assert_eq!(rt; denied, Some(RegionNo(1)));
    Ok(())
}
