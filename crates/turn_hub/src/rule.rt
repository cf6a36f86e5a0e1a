//! What holds between any two steps of the callers.
use crate::desk::Desk;
use crate::entry::Did;
use crate::machine::Machine;
use atomic_table::{Join, Play, Split, TableRule};
use std::collections::LinkedList;
use std::marker::PhantomData;

/// Where a caller stands.
pub enum Stage {
    Idle,
    Waits,
    Holds,
    Closed,
}

/// What a caller knows. No value of it is made.
pub struct View<E, K> {
    /// The kind of the machine.
    pub kind: K,
    /// Once two callers were met, the kind that the other one knew.
    pub twin: K,
    pub stage: Stage,
    /// The number that it drew.
    pub ticket: u64,
    /// The journal as it found it in its turn.
    pub held: LinkedList<Did<E>>,
    /// The journal as it saw it last.
    pub seen: LinkedList<Did<E>>,
    /// The places of its own entries.
    pub mine: LinkedList<u64>,
    /// The places of the entries of those that were met into it.
    pub met: LinkedList<u64>,
    /// The serving word as its last turn left it.
    pub turn: u64,
    pub units: u64,
    /// The units that it is about to give away.
    pub offer: u64,
    /// Once two callers were met, the journal of the one that had seen less.
    pub other: LinkedList<Did<E>>,
}

/// Word 0 is the next number, word 1 the number that is served, slot 0 the machine with its journal.
pub struct ByTurns;

impl<M: Machine> TableRule<Option<Desk<M>>, View<M::Event, M::Kind>, M::Kind> for ByTurns {
    ghost use Rattle.turn_hub.specs.Kept.{Kept, first_view};

    ghost holds = { Kept };

    ghost first = { first_view };
}

pub(crate) struct Draws;

impl<M: Machine> Play<Option<Desk<M>>, View<M::Event, M::Kind>> for Draws {
    ghost use Rattle.turn_hub.specs.Kept.{draws};

    ghost then = { draws };
}

pub(crate) struct Looks;

impl<M: Machine> Play<Option<Desk<M>>, View<M::Event, M::Kind>> for Looks {
    ghost use Rattle.turn_hub.specs.Kept.{looks};

    ghost then = { looks };
}

pub(crate) struct Leaves;

impl<M: Machine> Play<Option<Desk<M>>, View<M::Event, M::Kind>> for Leaves {
    ghost use Rattle.turn_hub.specs.Kept.{leaves};

    ghost then = { leaves };
}

pub(crate) struct Closes;

impl<M: Machine> Play<Option<Desk<M>>, View<M::Event, M::Kind>> for Closes {
    ghost use Rattle.turn_hub.specs.Kept.{closes};

    ghost then = { closes };
}

/// Tells that no seat has more than all units, that two that were met know one kind, and that of two that were met one had seen all that the other had.
pub(crate) struct Counts;

impl<M: Machine> Play<Option<Desk<M>>, View<M::Event, M::Kind>> for Counts {
    ghost use Rattle.turn_hub.specs.Kept.{counts};

    ghost then = { counts };
}

/// Says how many units the next split gives away.
pub(crate) struct Offers;

impl<M: Machine> Play<Option<Desk<M>>, View<M::Event, M::Kind>> for Offers {
    ghost use Rattle.turn_hub.specs.Kept.{offers};

    ghost then = { offers };
}

pub(crate) struct Cuts;

impl<E, K> Split<View<E, K>> for Cuts {
    ghost use Rattle.turn_hub.specs.Kept.{giver, newcomer};

    ghost left = { giver };

    ghost right = { newcomer };
}

pub(crate) struct Meets<M> {
    marker: PhantomData<M>,
}

impl<M: Machine> Join<View<M::Event, M::Kind>> for Meets<M> {
    ghost use Rattle.turn_hub.specs.Kept.{joined, spent_view};

    ghost both = { joined };

    ghost spent = { spent_view M.blank };
}
