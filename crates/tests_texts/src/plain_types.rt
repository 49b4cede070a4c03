//! Names, shared values and the counter of steps.
ghost use Rattle.std.specs.Prelude.{◌≡◌, ◌+◌, ◌<◌};

use ed_base::{BufferNo, Name, Rule, SharedRule, Steps, Trail, Units};
use std::marker::Brand;
use std::sync::ledger::{Blank, Ledger};
use std::test::*;

const LONG: &str = "a234567890123456789012345678901234567890123456789012345678901234";

const TOO_LONG: &str = "a2345678901234567890123456789012345678901234567890123456789012345";

#[test]
fn names_are_valid_by_their_bytes(rt: HostRuntime) -> Result<(), Fail> {
    for (text, is_valid) in [
        ("Z_9.-", true),
        (LONG, true),
        (TOO_LONG, false),
        ("", false),
        ("a b", false),
        ("\u{e9}", false),
    ] {
        assert_eq!(rt; Name::is_valid(text), is_valid, "{text}");
        if Name::is_valid(text) {
            let name = Name::of(rt.alloc(), text)?;
            assert_eq!(rt; name.share()?.as_str(), text);
        }
    }
    Ok(())
}

#[test]
fn values_are_made_and_shared(rt: HostRuntime) -> Result<(), Fail> {
    let trail = Trail::empty().lengthened(rt.alloc(), BufferNo(2), 0)?;
    let trail = trail.share()?.lengthened(rt.alloc(), BufferNo(1), 7)?;
    let route = [(BufferNo(2), 0), (BufferNo(1), 7)];
    assert_eq!(rt; trail.as_slice(), route.as_slice());
    let rule = SharedRule::of(rt.alloc(), Rule::LongLine(80))?;
    assert!(rt; matches!(rule.share()?.rule(), Rule::LongLine(80)));
    let mut units = Units::new(rt.alloc());
    units.push(0xd800)?;
    units.extend(&[65, 66])?;
    assert_eq!(rt; units.into_vec().as_slice(), [0xd800, 65, 66].as_slice());
    Ok(())
}

fn ticked_twice<L: Ledger>(steps: &mut Steps<L>)
    ensures { steps.new ≡ steps.old + 2 }
{
    steps.tick();
    steps.tick();
}

fn counted<L: Ledger>(blank: Blank)
    requires name { blank.name ≡ L.name }
    requires parts { blank.parts ≡ L.parts }
    requires some { 0 < blank.parts }
{
    let mut steps = Steps::<L>::begin(blank);
    ticked_twice(&mut steps);
}

// What it shows stands in the clauses: a caller without a counter opens one and hands it down.
#[test]
fn a_caller_opens_a_counter() {
    counted::<Brand>(Blank::new(1));
}
