//! A lock is made with its seats.
ghost use Rattle.std.specs.Prelude.{◌≡◌, ◌<◌, [], map, IfOk};
ghost use Rattle.std.specs.List.{range_with_len};
ghost use Rattle.ed_turns.specs.Joined.{fresh};
ghost use Rattle.ed_turns.specs.Rule.{newcomer};

use crate::lock::{Number, Pass, SEATS, Twins};
use crate::machine::Machine;
use crate::seats::{Seat, Turns};
use crate::view::Held;
use atomic_table::Table;
use ed_base::{OutOfMemory, SeatNo};
use std::alloc::Global;
use std::snapshot::Snapshot;

impl<M: Machine> Turns<M> {
    /// Makes a lock over a machine with the seats 0 to `seats - 1`, in this order, which have seen nothing.
    /// It isn't shut, and every call under it is made with an aid of the same meaning.
    ///
    /// # Errors
    /// Where memory is refused.
    pub fn new(
        alloc: Global,
        machine: M,
        aid: &M::Aid,
        seats: u32,
    ) -> Result<(Turns<M>, Vec<Seat<M>>), OutOfMemory>
        requires { 0 < seats }
        ensures machine { IfOk result (λ t. t.0.lock.opening ≡ machine) }
        ensures aid { IfOk result (λ t. t.0.lock.aid ≡ aid.now) }
        ensures count { IfOk result (λ t. t.0.seats ≡ seats) }
        ensures seats { IfOk result (λ t. t.1.items ≡ map (fresh t.0.lock) (range_with_len 0 seats)) }
    {
        let about = (Snapshot::of(&machine), Snapshot::of(aid), seats);
        let mut slots = Vec::new(alloc);
        slots.push(Some(Held {
            machine,
            history: Vec::new(alloc),
            shut: false,
        }))?;
        let Ok((table, mut root)) = Table::new(alloc, &[0, 0, 0], slots, &about) else {
            return Err(OutOfMemory);
        };
        let turns = Turns { table };
        let list = turns.make_seats(alloc, &mut root, seats)?;
        Ok((turns, list))
    }

    /// The seats, split from a first one, which never gets a number.
    fn make_seats(
        &self,
        alloc: Global,
        root: &mut Pass<M, M::Aid, M::Event, M::Reply>,
        seats: u32,
    ) -> Result<Vec<Seat<M>>, OutOfMemory>
        requires own { root.old.table_id ≡ self.now.lock.name }
        requires count { seats ≡ self.now.seats }
        requires first { root.old.me ≡ (newcomer self.now.lock.opening self.now.lock.aid, []) }
        ensures { IfOk result (λ v. v.items ≡ map (fresh self.now.lock) (range_with_len 0 seats)) }
    {
        let mut list = Vec::with_capacity(alloc, seats as usize)?;
        for number in 0..seats {
            let seat = self.make_seat(root, number)?;
            list.push_reserved(seat);
        }
        Ok(list)
    }

    /// A seat with this number. The number is taken by one try, which answers want of memory where another came first.
    fn make_seat(
        &self,
        root: &mut Pass<M, M::Aid, M::Event, M::Reply>,
        number: u32,
    ) -> Result<Seat<M>, OutOfMemory>
        requires own { root.old.table_id ≡ self.now.lock.name }
        requires room { number < self.now.seats }
        requires first { root.old.me ≡ (newcomer self.now.lock.opening self.now.lock.aid, []) }
        ensures root { (root.new.table_id ≡ root.old.table_id) × (root.new.me ≡ root.old.me) }
        ensures seat { IfOk result (λ s. s ≡ fresh self.now.lock number) }
    {
        let mut pass = self.table.shared.split_seat::<Twins>(root);
        let tried = number as u64;
        let found = self
            .table
            .shared
            .compare_exchange::<Number>(&mut pass, SEATS, tried, tried + 1);
        if found != tried {
            return Err(OutOfMemory);
        }
        Ok(Seat {
            pass,
            number: SeatNo(number),
            taken: 0,
            has_shut: false,
        })
    }
}
