//! The hub over a peer, and the calls of its callers.
ghost use Rattle.std.specs.Prelude.{◌≡◌, ◌+◌, ◌-◌, ◌<◌, ◌^◌, [], ℕ, false, None, IfOk, length, min};
ghost use Rattle.peer_steps.specs.Stands.{StandsFor};
ghost use Rattle.peer_core.specs.Forms.{packet_form};
ghost use Rattle.turn_hub.specs.History.{StartsWith, Legal, past, events_of, outbox, ended, lost, lost_at, received, size_of};
ghost use Rattle.turn_hub.specs.Kept.{all_units, times, upto};
ghost use Rattle.turn_hub.specs.Calls.{Turned, Met, Unchanged, Entered, Ends, Takes};
ghost use Rattle.shared_hub.specs.Peer.{MayEnter, Stands, kind_of, peer_words};

use crate::machine::PeerMachine;
use gd_variant::OutOfMemory;
use peer_core::Peer;
use scene_model::{Event, OutList, Outcome};
use std::alloc::Global;
use std::marker::Model;
use std::sync::Wait;
use turn_hub::{HubStop, Look};

pub type Answer = turn_hub::Answer<Outcome>;

pub type Journal = turn_hub::Journal<Event>;

pub type JournalRow = turn_hub::JournalRow<Event>;

pub type EntryRows = turn_hub::EntryRows<Event>;

/// A peer for many callers, which is shared by reference. Contracts see which hub it is.
#[derive(Drop)]
pub struct Hub {
    turns: turn_hub::Hub<PeerMachine>,
}

impl Model for Hub {
    ghost use Rattle.atomic_table.specs.Seated.{TableId, table_id_coded};

    ghost Value = { TableId };

    ghost coded = { table_id_coded };

    ghost view = { λ h. h.turns };
}

/// A caller's token. Contracts see in it the journal that it has seen and the places of its own entries.
#[derive(Drop)]
pub struct Seat {
    token: turn_hub::Seat<PeerMachine>,
}

impl Model for Seat {
    ghost use Rattle.std.specs.Coded.{codes};
    ghost use Rattle.gd_variant.specs.contracts.value.Variant as variant;
    ghost use Rattle.scene_model.specs.declared.event.Event.{Event};
    ghost use Rattle.turn_hub.specs.Known.{Known};
    ghost use Rattle.shared_hub.specs.declared.machine.Kind.{Kind};

    ghost Value = { Known Event Kind };

    ghost coded = { Prim.hlevel (codes, variant.the_row.coded) };

    ghost view = { λ s. s.token };
}

impl Hub {
    /// A hub over a peer that took no event, and its first seat, which has all 4,294,967,296 units.
    pub fn new(alloc: Global, peer: Peer) -> Result<(Hub, Seat), OutOfMemory>
        requires fresh { StandsFor packet_form peer [] }
        ensures first { IfOk result (λ t. t.1 ≡ record { hub = t.0; kind = kind_of peer; seen = []; mine = []; met = []; turn = 0; units = all_units }) }
    {
        let (turns, token) = turn_hub::Hub::new(alloc, PeerMachine::new(peer))?;
        Ok((Hub { turns }, Seat { token }))
    }

    /// A new seat that has seen as much, has made no entry, and gets so many of the units, which are at
    /// least 1 and below those of `of`. It waits for nobody.
    pub fn seat(&self, of: &mut Seat, units: u64) -> Seat
        requires own { of.old.hub ≡ self.now }
        requires some { (0 < units) × (units < of.old.units) }
        ensures old { of.new ≡ record of.old { units = of.old.units - units } }
        ensures new { result ≡ record of.old { mine = []; met = []; units = units } }
    {
        let Seat { token } = of;
        Seat {
            token: self.turns.seat(token, units),
        }
    }

    /// The seat has then seen all that either had seen, and has the units of both. It waits for nobody.
    pub fn meet(&self, seat: &mut Seat, note: Seat)
        requires own { (seat.old.hub ≡ self.now) × (note.hub ≡ self.now) }
        ensures met { Met seat.old note seat.new }
    {
        let Seat { token } = seat;
        let Seat { token: other } = note;
        self.turns.meet(token, other);
    }

    /// Takes an event: one step of the peer, one entry, and the outcome that the event has after the
    /// entries before it. The packets go to the outboxes of their links.
    ///
    /// `Ended` where the journal has an `End`; else `JournalFull` where it has 1,000,000 events, or the
    /// event would take what they count past 268,435,456 bytes; else `Spent` where it ends with a `Lost`.
    /// An event counts 64 bytes and those of its texts, packet and values. After these nothing was
    /// entered. After `OutOfMemory` nothing was either, or a `Lost`, and then the peer is spent.
    pub fn enter<R: Wait>(
        &self,
        rt: &R,
        alloc: Global,
        seat: &mut Seat,
        event: Event,
    ) -> Result<Answer, HubStop>
        requires own { seat.old.hub ≡ self.now }
        requires may { MayEnter event }
        ensures turned { Turned peer_words seat.old seat.new }
        ensures entered { Entered peer_words seat.old seat.new event result }
    {
        let Seat { token } = seat;
        self.turns.enter(rt, alloc, token, event)
    }

    /// Takes the whole outbox of a peer, in order. It makes an entry exactly where it took a packet.
    ///
    /// `Spent` where the journal ends with a `Lost`; it is served after an `End` and in a full journal.
    pub fn take_out<R: Wait>(
        &self,
        rt: &R,
        alloc: Global,
        seat: &mut Seat,
        peer: i32,
    ) -> Result<OutList, HubStop>
        requires own { seat.old.hub ≡ self.now }
        ensures turned { Turned peer_words seat.old seat.new }
        ensures takes { Takes peer_words seat.old seat.new peer result }
    {
        let Seat { token } = seat;
        self.turns.take_out(rt, alloc, token, peer)
    }

    /// The bytes in the outbox of a peer, or the greatest number where they are more. No entry.
    pub fn behind<R: Wait>(&self, rt: &R, seat: &mut Seat, peer: i32) -> u64
        requires own { seat.old.hub ≡ self.now }
        ensures turned { Turned peer_words seat.old seat.new }
        ensures same { Unchanged seat.old seat.new }
        ensures size { result ≡ min (size_of peer_words (outbox peer_words seat.new.kind (past seat.new.seen) peer)) (2 ^ 64 - 1) }
    {
        let Seat { token } = seat;
        self.turns.behind(rt, token, peer)
    }

    /// What the journal has. The seat has then seen all entries so far. No entry.
    pub fn look<R: Wait>(&self, rt: &R, seat: &mut Seat) -> Look
        requires own { seat.old.hub ≡ self.now }
        ensures turned { Turned peer_words seat.old seat.new }
        ensures same { Unchanged seat.old seat.new }
        ensures look { result ≡ record { entries = length seat.new.seen; received = received peer_words (past seat.new.seen); ended = ended (past seat.new.seen) } }
    {
        let Seat { token } = seat;
        self.turns.look(rt, token)
    }

    /// Makes an `End`, behind which no event is entered, and answers its place.
    ///
    /// `Ended` where the journal has one; else `Spent` where it ends with a `Lost`. It is served in a full journal.
    pub fn end<R: Wait>(&self, rt: &R, alloc: Global, seat: &mut Seat) -> Result<u64, HubStop>
        requires own { seat.old.hub ≡ self.now }
        ensures turned { Turned peer_words seat.old seat.new }
        ensures ends { Ends seat.old seat.new result }
    {
        let Seat { token } = seat;
        self.turns.end(rt, alloc, token)
    }

    /// The peer and the journal, for the seat that has all units, as it has once every other seat was
    /// met into it. It waits for nobody.
    pub fn close(&self, seat: Seat) -> (Peer, Journal)
        requires own { seat.hub ≡ self.now }
        requires whole { seat.units ≡ all_units }
        ensures kind { result.0.spent ≡ false → kind_of result.0 ≡ seat.kind }
        ensures seen { StartsWith result.1.entries.items seat.seen }
        ensures places { (p : ℕ) → times p seat.mine + times p seat.met ≡ times p (upto (length result.1.entries.items)) }
        ensures legal { Legal peer_words seat.kind result.1.entries.items }
        ensures spent { lost (past result.1.entries.items) ≡ lost_at result.0.spent (length result.1.entries.items) }
        ensures stands { lost (past result.1.entries.items) ≡ None → Stands result.0 (events_of (past result.1.entries.items)) }
    {
        let Seat { token } = seat;
        let (machine, journal) = self.turns.close(token);
        (machine.into_peer(), journal)
    }
}

impl Seat {
    /// The units of this seat.
    pub fn units(&self) -> u64
        ensures { result ≡ self.now.units }
    {
        self.token.units()
    }
}
