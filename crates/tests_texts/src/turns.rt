//! A lock over a machine that adds, called from two seats and from two threads.
ghost use Rattle.std.specs.Prelude.{◌≡◌, []};

mod sum;

use crate::turns::sum::{Sum, call_ones, two_seats};
use ed_base::SeatNo;
use ed_turns::{CallFault, Seat};
use std::test::Fail;
use std::thread;

#[test]
fn the_calls_of_two_seats_stand_in_one_history(rt: HostRuntime) -> Result<(), Fail> {
    let (turns, mut first, mut second) = two_seats(rt.alloc())?;
    assert_eq!(rt; turns.call(&rt, &mut first, &(), 5, ()), Ok(5));
    assert_eq!(rt; turns.call(&rt, &mut second, &(), 7, ()), Ok(12));
    assert_eq!(rt; turns.call_ready(&rt, &mut second, &(), 0, ()), Ok(None));
    assert!(rt; !first.has_shut() && !second.has_shut());
    turns.shut(&rt, &mut first);
    assert!(rt; first.has_shut() && !second.has_shut());
    assert_eq!(rt;
        turns.call(&rt, &mut second, &(), 1, ()),
        Err(CallFault::Shut)
    );
    turns.join(&mut first, second);
    assert_eq!(rt; turns.taken(&first), 1);
    let (sum, history) = turns.close(first);
    assert_eq!(rt; sum.total, 12);
    let entries = [(SeatNo(0), 5, 5), (SeatNo(1), 7, 12)];
    assert_eq!(rt; history.as_slice(), entries.as_slice());
    Ok(())
}

#[test]
fn two_threads_make_their_calls(rt: HostRuntime) -> Result<(), Fail> {
    let (turns, first, second) = two_seats(rt.alloc())?;
    let (mut first, second) = thread::join(
        &rt,
        || -> Seat<Sum>
            requires { (first.lock ≡ turns.lock) × (first.taken ≡ []) }
            ensures { (result.lock ≡ turns.lock) × (result.taken ≡ []) }
        { call_ones(&rt, &turns, first, 1000) },
        || -> Seat<Sum>
            requires { (second.lock ≡ turns.lock) × (second.taken ≡ []) }
            ensures { (result.lock ≡ turns.lock) × (result.taken ≡ []) }
        { call_ones(&rt, &turns, second, 1000) },
    );
    turns.join(&mut first, second);
    let (sum, history) = turns.close(first);
    assert_eq!(rt; sum.total, 2000);
    assert_eq!(rt; history.len(), 2000);
    Ok(())
}
