//! A turn: a seat takes a ticket, waits until it is served, takes the value out of the slot, and gives it back.
ghost use Rattle.std.specs.Prelude.{◌≡◌, ℕ, ◌%◌, ◌^◌, [], Some, None, true, false};
ghost use Rattle.ed_turns.specs.Known.{IsResting};
ghost use Rattle.ed_turns.specs.Rule.{Takes, Won, after_serving};
ghost use Rattle.ed_turns.specs.Turn.{IsSamePass, Enters, MayLeave};

use crate::lock::{Look, Pass, SERVING, Serve, TICKET, Take};
use crate::machine::Machine;
use crate::seats::Turns;
use crate::view::Held;
use std::sync::Wait;

impl<M: Machine> Turns<M> {
    fn take_ticket(&self, pass: &mut Pass<M, M::Aid, M::Event, M::Reply>) -> u64
        requires own { pass.old.table_id ≡ self.now.lock.name }
        requires idle { (pass.old.me.0.ticket ≡ None) × (pass.old.me.0.has_slot ≡ false) }
        requires numbered { (n : ℕ) × (pass.old.me.0.number ≡ Some n) }
        ensures pass { IsSamePass pass.old pass.new }
        ensures ticket { Takes pass.old.me result pass.new.me }
    {
        self.table.shared.fetch_add::<Take>(pass, TICKET, 1)
    }

    fn wait_turn<W: Wait>(
        &self,
        rt: &W,
        pass: &mut Pass<M, M::Aid, M::Event, M::Reply>,
        ticket: u64,
    )
        requires own { pass.old.table_id ≡ self.now.lock.name }
        requires ticket { (t : ℕ) × (pass.old.me.0.ticket ≡ Some t) × (ticket ≡ t % 2 ^ 64) }
        requires idle { (pass.old.me.0.has_slot ≡ false) × (pass.old.me.0.is_live ≡ true) }
        ensures pass { IsSamePass pass.old pass.new }
        ensures won { Won M.fits M.reply M.after pass.old.me pass.new.me }
    {
        for _ in rt.forever() {
            let serving = self.table.shared.load::<Look<M>>(pass, SERVING);
            if serving == ticket {
                return;
            }
            self.table
                .shared
                .park(rt, SERVING, (serving % (1 << 32)) as u32);
        }
        unreachable!()
    }

    /// Waits for the seat's turn, and takes the value out of the slot.
    pub(crate) fn enter<W: Wait>(
        &self,
        rt: &W,
        pass: &mut Pass<M, M::Aid, M::Event, M::Reply>,
    ) -> Held<M, M::Event, M::Reply>
        requires own { pass.old.table_id ≡ self.now.lock.name }
        requires resting { ((n : ℕ) × IsResting pass.old.table_id n pass.old.me.0) × (pass.old.me.1 ≡ []) }
        ensures pass { IsSamePass pass.old pass.new }
        ensures turn { Enters M.fits M.reply M.after pass.old.me result pass.new.me }
    {
        let ticket = self.take_ticket(pass);
        self.wait_turn(rt, pass, ticket);
        self.table.shared.exchange(pass, 0, None).unwrap()
    }

    /// Gives the value back, and serves the next ticket.
    pub(crate) fn leave(
        &self,
        pass: &mut Pass<M, M::Aid, M::Event, M::Reply>,
        held: Held<M, M::Event, M::Reply>,
    )
        requires own { pass.old.table_id ≡ self.now.lock.name }
        requires may { MayLeave M.fits M.reply M.after pass.old.me held }
        ensures pass { IsSamePass pass.old pass.new }
        ensures turn { pass.new.me ≡ (after_serving pass.old.me.0 held, []) }
    {
        self.table.shared.exchange(pass, 0, Some(held));
        self.table.shared.fetch_add::<Serve>(pass, SERVING, 1);
        self.table.shared.wake_all(SERVING);
    }
}
