//! A machine that adds, behind a lock of two seats.
ghost use Rattle.std.specs.Prelude.{◌≡◌, ◌+◌, ◌%◌, ◌^◌, nat_eq, not, IfOk};
ghost use Rattle.ed_turns.specs.Joined.{fresh};

use ed_base::{OutOfMemory, SeatNo};
use ed_turns::{Machine, Seat, Turns, Twice};
use std::alloc::Global;
use std::sync::Wait;

/// A machine that holds a sum. It is ready for every number but 0, and answers the new sum.
#[derive(Drop)]
pub struct Sum {
    pub total: u64,
}

impl Machine for Sum {
    type Aid = ();

    type Event = u64;

    type Load = ();

    type Reply = u64;

    ghost fits = { λ _ _ _ _ _. Unit {0} };

    ghost after = { λ m _ _ e. record { total = (m.total + e) % 2 ^ 64 } };

    ghost reply = { λ m _ _ e. (m.total + e) % 2 ^ 64 };

    ghost is_ready = { λ _ e. not (nat_eq e 0) };

    ghost blank = { record { total = 0 } };

    ghost blank_aid = { tt };

    ghost lasts = { λ _ _ _ _ _ _ _ _ _ _ _. tt };

    fn ready(&self, event: &u64) -> bool {
        *event != 0
    }

    fn step(
        &mut self,
        _aid: &(),
        _seat: SeatNo,
        event: &u64,
        _load: (),
    ) -> Result<Twice<u64>, OutOfMemory> {
        self.total = self.total.wrapping_add(*event);
        Ok(Twice {
            kept: self.total,
            given: self.total,
        })
    }
}

/// A lock over the sum 0, with its two seats.
pub fn two_seats(alloc: Global) -> Result<(Turns<Sum>, Seat<Sum>, Seat<Sum>), OutOfMemory>
    ensures count { IfOk result (λ t. t.0.seats ≡ 2) }
    ensures first { IfOk result (λ t. t.1 ≡ fresh t.0.lock 0) }
    ensures second { IfOk result (λ t. t.2 ≡ fresh t.0.lock 1) }
{
    let (turns, mut seats) = Turns::new(alloc, Sum { total: 0 }, &(), 2)?;
    let second = seats.pop().unwrap();
    let first = seats.pop().unwrap();
    Ok((turns, first, second))
}

/// Calls with the number 1 so many times, and gives the seat back.
pub fn call_ones<W: Wait>(rt: &W, turns: &Turns<Sum>, mut seat: Seat<Sum>, count: u32) -> Seat<Sum>
    requires { seat.lock ≡ turns.now.lock }
    ensures { (result.lock ≡ turns.now.lock) × (result.taken ≡ seat.taken) }
{
    for _ in 0..count {
        let _ = turns.call(rt, &mut seat, &(), 1, ());
    }
    seat
}
