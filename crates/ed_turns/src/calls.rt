//! Calls of the machine under the lock.
ghost use Rattle.std.specs.Prelude.{◌≡◌, ◌↔◌, IfOk, IfErr, Some, true, false};
ghost use Rattle.ed_turns.specs.Turn.{IsSamePass, Holds, Adds, Makes};
ghost use Rattle.ed_turns.specs.Called.{KeepsSeat, state_after, Called, Refused};

use crate::fault::CallFault;
use crate::lock::Pass;
use crate::machine::Machine;
use crate::seats::{Seat, Turns};
use crate::view::Held;
use ed_base::{OutOfMemory, SeatNo};
use std::sync::Wait;

/// Steps the machine and adds the entry. Memory for the entry is taken before.
fn add<M: Machine>(
    held: &mut Held<M, M::Event, M::Reply>,
    aid: &M::Aid,
    seat: SeatNo,
    event: M::Event,
    load: M::Load,
) -> Result<M::Reply, OutOfMemory>
    requires { M.fits held.old.machine aid.now seat event load }
    ensures { Adds M.reply M.after held.old aid.now seat event result held.new }
{
    if held.history.reserve(1).is_err() {
        return Err(OutOfMemory);
    }
    match held.machine.step(aid, seat, &event, load) {
        Ok(twice) => {
            held.history.push_reserved((seat, event, twice.kept));
            Ok(twice.given)
        }
        Err(fault) => Err(fault),
    }
}

impl<M: Machine> Turns<M> {
    /// Makes the call on the value that was found, which isn't shut, and ends the turn.
    pub(crate) fn make(
        &self,
        pass: &mut Pass<M, M::Aid, M::Event, M::Reply>,
        mut held: Held<M, M::Event, M::Reply>,
        aid: &M::Aid,
        seat: SeatNo,
        event: M::Event,
        load: M::Load,
    ) -> Result<M::Reply, CallFault>
        requires own { pass.old.table_id ≡ self.now.lock.name }
        requires holds { Holds M.fits M.reply M.after pass.old.me held }
        requires seat { (pass.old.me.0.number ≡ Some seat) × (aid.now ≡ pass.old.me.0.aid) × (held.shut ≡ false) }
        requires fits { M.fits held.machine aid.now seat event load }
        ensures pass { IsSamePass pass.old pass.new }
        ensures made { Makes M.reply M.after held aid.now seat event pass.old.me result pass.new.me }
    {
        match add(&mut held, aid, seat, event, load) {
            Ok(reply) => {
                self.leave(pass, held);
                Ok(reply)
            }
            Err(_) => {
                self.leave(pass, held);
                Err(CallFault::Oom)
            }
        }
    }

    /// Makes a call: steps the machine, adds one entry to the history, and gives the machine's reply.
    /// It waits for the seat's turn, and wins one look.
    ///
    /// # Errors
    /// `Shut` where the lock was found shut, and `Oom` where memory was refused. Neither adds an entry.
    pub fn call<W: Wait>(
        &self,
        rt: &W,
        seat: &mut Seat<M>,
        aid: &M::Aid,
        event: M::Event,
        load: M::Load,
    ) -> Result<M::Reply, CallFault>
        requires own { seat.old.lock ≡ self.now.lock }
        requires aid { aid.now ≡ self.now.lock.aid }
        requires fits { M.fits (state_after M.fits M.reply M.after seat.old.lock seat.old.front) aid.now seat.old.number event load }
        ensures called { IfOk result (λ r. Called M.fits M.reply M.after (λ _. Unit {0}) seat.old event r seat.new) }
        ensures refused { IfErr result (λ f. Refused M.fits M.reply M.after (λ _. Unit {0}) seat.old f seat.new) }
        ensures shut { (result ≡ Err CallFault.Shut) ↔ (seat.new.found_shut ≡ true) }
        ensures kept { KeepsSeat seat.old seat.new }
    {
        let held = self.enter(rt, &mut seat.pass);
        if held.shut {
            self.leave(&mut seat.pass, held);
            return Err(CallFault::Shut);
        }
        self.make(&mut seat.pass, held, aid, seat.number, event, load)
    }
}
