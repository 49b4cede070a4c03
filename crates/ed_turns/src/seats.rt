ghost use Rattle.std.specs.Prelude.{◌≡◌};

use crate::lock::{Board, Pass};
use crate::machine::Machine;
use ed_base::SeatNo;
use std::marker::Model;

/// A lock over a machine. It keeps the machine, the history of the calls that were made, and a flag that shuts it.
/// Contracts see which lock it is, the machine and the aid that it was made with, and how many seats.
#[derive(Drop)]
pub struct Turns<M: Machine> {
    pub(crate) table: Board<M, M::Aid, M::Event, M::Reply>,
}

/// One party that calls the machine.
/// Contracts see its lock, its number, the history that it has seen, how many looks it has won, the flag that the last
/// of them found, whether it has shut, and the numbers of the seats that it took in.
#[derive(Drop)]
pub struct Seat<M: Machine> {
    pub(crate) pass: Pass<M, M::Aid, M::Event, M::Reply>,
    pub(crate) number: SeatNo,
    pub(crate) taken: u32,
    pub(crate) has_shut: bool,
}

impl<M: Machine> Model for Turns<M> {
    ghost use Rattle.std.specs.Prelude.{◌≡◌};
    ghost use Rattle.ed_turns.specs.Known.{Place};

    ghost Value = { Place M M.Aid };

    ghost view = { λ t. record { lock = record { name = t.table.shared.table_id; opening = t.table.shared.key.0.value; aid = t.table.shared.key.1.value }; seats = t.table.shared.key.2 } };

    ghost invariant = { λ t. (t.table.shared.table_id.words ≡ 3) × (t.table.shared.table_id.slots ≡ 1) };
}

impl<M: Machine> Model for Seat<M> {
    ghost use Rattle.std.specs.Prelude.{◌≡◌, [], length};
    ghost use Rattle.ed_turns.specs.Known.{Known, known, IsResting};

    ghost Value = { Known M M.Aid M.Event M.Reply };

    ghost view = { λ s. known s.pass.table_id s.number s.pass.me.0 };

    ghost invariant = { λ s. IsResting s.pass.table_id s.number s.pass.me.0 × (s.pass.me.1 ≡ []) × (s.taken ≡ length s.pass.me.0.taken) × (s.has_shut ≡ s.pass.me.0.has_shut) };
}

impl<M: Machine> Seat<M> {
    /// The seat's number: the seats of a lock are numbered from 0.
    pub fn number(&self) -> SeatNo
        ensures { result ≡ self.now.number }
    {
        self.number
    }

    /// Whether a `shut` with this seat found the lock not shut yet.
    pub fn has_shut(&self) -> bool
        ensures { result ≡ self.now.has_shut }
    {
        self.has_shut
    }
}
