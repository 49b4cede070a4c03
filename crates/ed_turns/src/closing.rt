//! A lock is closed by the seat that took in all others.
ghost use Rattle.std.specs.Prelude.{◌≡◌, ◌+◌, length};
ghost use Rattle.ed_turns.specs.Called.{state_after, IsHistory};

use crate::machine::Machine;
use crate::seats::{Seat, Turns};
use crate::view::Held;
use ed_base::SeatNo;

impl<M: Machine> Turns<M> {
    /// Ends the lock, and gives the machine and the whole history, which is what the seat has seen. It waits for nobody.
    /// The seat has taken in every other: `taken` is one less than the number of seats that the lock was made with.
    pub fn close(self, seat: Seat<M>) -> (M, Vec<(SeatNo, M::Event, M::Reply)>)
        requires own { seat.lock ≡ self.lock }
        requires all { length seat.taken + 1 ≡ self.seats }
        ensures history { result.1.items ≡ seat.front }
        ensures machine { result.0 ≡ state_after M.fits M.reply M.after self.lock seat.front }
        ensures legal { IsHistory M.fits M.reply M.after self.lock seat.front }
    {
        let Turns { table } = self;
        let Seat {
            pass,
            number: _,
            taken: _,
            has_shut: _,
        } = seat;
        let mut closed = table.close_with(pass);
        let held = closed.take(0).unwrap();
        closed.free();
        let Held {
            machine,
            history,
            shut: _,
        } = held;
        (machine, history)
    }
}
