//! Calls that are made only where the machine is ready for them.
ghost use Rattle.std.specs.Prelude.{◌≡◌, ◌↔◌, IfOk, IfErr, true};
ghost use Rattle.ed_turns.specs.Called.{KeepsSeat, state_after, Refused, AnswersReady};

use crate::fault::CallFault;
use crate::machine::Machine;
use crate::seats::{Seat, Turns};
use std::sync::Wait;

impl<M: Machine> Turns<M> {
    /// Makes a call where the machine is ready for it, as `call` does. Where it isn't, nothing is added and the answer
    /// is `None`. It waits for the seat's turn, and wins one look.
    ///
    /// # Errors
    /// `Shut` where the lock was found shut, and `Oom` where memory was refused. Neither adds an entry.
    pub fn call_ready<W: Wait>(
        &self,
        rt: &W,
        seat: &mut Seat<M>,
        aid: &M::Aid,
        event: M::Event,
        load: M::Load,
    ) -> Result<Option<M::Reply>, CallFault>
        requires own { seat.old.lock ≡ self.now.lock }
        requires aid { aid.now ≡ self.now.lock.aid }
        requires fits { M.fits (state_after M.fits M.reply M.after seat.old.lock seat.old.front) aid.now seat.old.number event load }
        ensures called { IfOk result (λ o. AnswersReady M.fits M.reply M.after M.is_ready seat.old event o seat.new) }
        ensures refused { IfErr result (λ f. Refused M.fits M.reply M.after (λ m. M.is_ready m event ≡ true) seat.old f seat.new) }
        ensures shut { (result ≡ Err CallFault.Shut) ↔ (seat.new.found_shut ≡ true) }
        ensures kept { KeepsSeat seat.old seat.new }
    {
        let held = self.enter(rt, &mut seat.pass);
        if held.shut {
            self.leave(&mut seat.pass, held);
            return Err(CallFault::Shut);
        }
        if !held.machine.ready(&event) {
            self.leave(&mut seat.pass, held);
            return Ok(None);
        }
        match self.make(&mut seat.pass, held, aid, seat.number, event, load) {
            Ok(reply) => return Ok(Some(reply)),
            Err(fault) => return Err(fault),
        }
    }
}
