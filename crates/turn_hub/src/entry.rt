//! The entries of a journal, and what the calls of a hub answer.
use std::marker::Model;

/// An entry of the journal.
#[derive(Debug, Drop)]
pub enum Did<E> {
    /// An event was entered.
    Event(E),
    /// The whole outbox of a peer, so many packets, was taken.
    Took { peer: i32, count: u64 },
    /// No event is entered from now on.
    End,
    /// Memory ran out in the middle of an event, and the machine is spent.
    Lost,
}

/// A row of the journal. Contracts see what was done.
#[derive(Debug, Drop)]
pub struct JournalRow<E> {
    pub what: Did<E>,
}

impl<E> Model for JournalRow<E> {
    ghost use Rattle.turn_hub.specs.declared.entry.Did.{Did};

    ghost Value = { Did E };

    ghost view = { λ r. r.what };
}

pub type EntryRows<E> = Vec<JournalRow<E>>;

/// All that was done, the oldest entry first.
#[derive(Debug, Drop)]
pub struct Journal<E> {
    pub entries: EntryRows<E>,
}

/// Why a hub made no entry.
#[derive(Clone, Copy, Debug, Drop, PartialEq, Eq)]
pub enum HubStop {
    /// The journal has an `End` at this place.
    Ended { place: u64 },
    /// The journal has as many events or bytes of events as it may; these are both counts.
    JournalFull { entries: u64, bytes: u64 },
    /// The journal ends with a `Lost` at this place.
    Spent { place: u64 },
    OutOfMemory,
}

/// The outcome of an event, and the place of its entry.
#[derive(Debug, Drop)]
pub struct Answer<O> {
    pub place: u64,
    pub outcome: O,
}

/// What the journal has.
#[derive(Clone, Copy, Debug, Drop, PartialEq, Eq)]
pub struct Look {
    /// The number of its entries.
    pub entries: u64,
    /// How many of them are events that were received.
    pub received: u64,
    /// The place of its `End`.
    pub ended: Option<u64>,
}
