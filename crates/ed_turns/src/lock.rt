//! The rule of the table, and what each step on it tells.
ghost use Rattle.ed_turns.specs.Rule.{Kept, newcomer, twin, both, spent, Takes, Looks, Serves, GetsNumber, Merges};

use crate::machine::Machine;
use crate::view::{Held, View};
use atomic_table::{Join, Play, Seat, Split, Table, TableRule};
use std::alloc::Global;
use std::marker::PhantomData;
use std::snapshot::Snapshot;

pub(crate) const SERVING: usize = 0;

pub(crate) const TICKET: usize = 1;

pub(crate) const SEATS: usize = 2;

/// What lies in the slot: the value, or nothing while the seat that took it works on it.
pub(crate) type Slot<M, E, R> = Option<Held<M, E, R>>;

/// What the table is told when it is made: the machine, the aid, and how many seats there may be.
pub(crate) type About<M, A> = (Snapshot<M>, Snapshot<A>, u32);

pub(crate) struct TurnRule<M> {
    of: PhantomData<M>,
}

impl<M: Machine> TableRule<
    Slot<M, M::Event, M::Reply>,
    View<M, M::Aid, M::Event, M::Reply>,
    About<M, M::Aid>,
> for TurnRule<M> {
    ghost holds = { λ k. Kept M.fits M.reply M.after k.0.value k.1.value k.2 };

    ghost first = { λ k. newcomer k.0.value k.1.value };
}

pub(crate) struct Take;

impl<M, A, E, R> Play<Slot<M, E, R>, View<M, A, E, R>> for Take {
    ghost then = { λ _. Takes };
}

pub(crate) struct Look<M> {
    of: PhantomData<M>,
}

impl<M: Machine> Play<Slot<M, M::Event, M::Reply>, View<M, M::Aid, M::Event, M::Reply>>
    for Look<M> {
    ghost then = { λ _. Looks M.fits M.reply M.after };
}

pub(crate) struct Serve;

impl<M, A, E, R> Play<Slot<M, E, R>, View<M, A, E, R>> for Serve {
    ghost then = { λ _ x _ y. Serves x y };
}

pub(crate) struct Number;

impl<M, A, E, R> Play<Slot<M, E, R>, View<M, A, E, R>> for Number {
    ghost then = { λ step. GetsNumber step.first };
}

pub(crate) struct Twins;

impl<M, A, E, R> Split<View<M, A, E, R>> for Twins {
    ghost left = { λ v. v };

    ghost right = { twin };
}

pub(crate) struct Meet<M> {
    of: PhantomData<M>,
}

impl<M: Machine> Join<View<M, M::Aid, M::Event, M::Reply>> for Meet<M> {
    ghost both = { both };

    ghost spent = { spent M.blank M.blank_aid };
}

pub(crate) struct Merge;

impl<M, A, E, R> Play<Slot<M, E, R>, View<M, A, E, R>> for Merge {
    ghost then = { λ _ x _ y. Merges x y };
}

pub(crate) type Pass<M, A, E, R> = Seat<Slot<M, E, R>, View<M, A, E, R>>;

pub(crate) type Board<M, A, E, R> = Table<
    Slot<M, E, R>,
    View<M, A, E, R>,
    About<M, A>,
    TurnRule<M>,
    Global,
>;
