//! The calls of a hub.
ghost use Rattle.std.specs.Prelude.{◌≡◌, ◌+◌, ◌-◌, ◌<◌, ◌≤◌, ◌^◌, ◌∷◌, ◌++◌, [], ℕ, List, false, Some, None, IfOk, length, min};
ghost use Rattle.turn_hub.specs.declared.entry.Did.{Did as DidOf};
ghost use Rattle.turn_hub.specs.declared.rule.Stage.TheVariants.{Idle, Waits, Holds};
ghost use Rattle.turn_hub.specs.History.{StartsWith, Legal, past, events_of, outbox, ended, lost, lost_at, received, size_of, Grows};
ghost use Rattle.turn_hub.specs.Kept.{all_units, moved, left, times, upto};
ghost use Rattle.turn_hub.specs.Calls.{Turned, Met, OwnGrows, OwnStays, Unchanged, Entered, Ends, Takes};

use crate::desk::Desk;
use crate::entry::{Answer, HubStop, Journal, Look};
use crate::machine::Machine;
use crate::rule::{Closes, Counts, Cuts, Draws, Leaves, Looks, Meets, Offers};
use crate::seat::{Hub, Seat, Token};
use atomic_table::Table;
use gd_variant::OutOfMemory;
use sqlite_items::Items;
use std::alloc::Global;
use std::sync::Wait;
use std::thread;

impl<M: Machine> Hub<M> {
    /// A hub over a machine that took no event, and its first seat, which has all 4,294,967,296 units.
    pub fn new(alloc: Global, machine: M) -> Result<(Hub<M>, Seat<M>), OutOfMemory>
        requires fresh { M.stands machine [] }
        ensures first { IfOk result (λ t. t.1 ≡ record { hub = t.0; kind = M.kind_of machine; seen = []; mine = []; met = []; turn = 0; units = all_units }) }
    {
        let kind = machine.kind(alloc)?;
        let mut slots = Vec::new(alloc);
        slots.push(Some(Desk::new(alloc, machine, &kind)?))?;
        match Table::new(alloc, &[0, 0], slots, &kind) {
            Ok((table, token)) => Ok((
                Hub { table },
                Seat {
                    token,
                    units: 4_294_967_296,
                },
            )),
            Err(_) => Err(OutOfMemory),
        }
    }

    /// A new seat that has seen as much, has made no entry, and gets some of the units.
    pub fn seat(&self, of: &mut Seat<M>, units: u64) -> Seat<M>
        requires own { of.old.hub ≡ self.now }
        requires some { (0 < units) × (units < of.old.units) }
        ensures old { of.new ≡ record of.old { units = of.old.units - units } }
        ensures new { result ≡ record of.old { mine = []; met = []; units = units } }
    {
        let Seat { token, units: left } = of;
        let _ = self
            .table
            .shared
            .compare_exchange::<Offers>(token, 0, units, units);
        let new = self.table.shared.split_seat::<Cuts>(token);
        *left -= units;
        Seat { token: new, units }
    }

    /// The seat has then seen what either had seen, and has the units of both.
    pub fn meet(&self, seat: &mut Seat<M>, note: Seat<M>)
        requires own { (seat.old.hub ≡ self.now) × (note.hub ≡ self.now) }
        ensures met { Met seat.old note seat.new }
    {
        let Seat { token, units } = seat;
        let Seat {
            token: other,
            units: more,
        } = note;
        self.table.shared.join_seat::<Meets<M>>(token, other);
        let _ = self.table.shared.load::<Counts>(token, 0);
        *units += more;
    }

    /// Draws the next number; at the greatest one the caller waits for good.
    fn draw<R: Wait>(&self, rt: &R, me: &mut Token<M>) -> u64
        requires own { me.old.table_id ≡ self.now }
        requires idle { me.old.me.0.stage ≡ Idle }
        requires some { 0 < me.old.me.0.units }
        ensures same { me.new.table_id ≡ me.old.table_id }
        ensures below { result < 2 ^ 64 - 1 }
        ensures drawn { me.new.me ≡ (moved Waits result [] me.old.me.0, me.old.me.1) }
    {
        for _ in rt.forever() {
            let next = self.table.shared.peek(0);
            if next < u64::MAX {
                let found = self
                    .table
                    .shared
                    .compare_exchange::<Draws>(me, 0, next, next + 1);
                if found == next {
                    return next;
                }
            }
        }
        unreachable!()
    }

    /// Waits until the number is served, and takes the journal.
    fn wait<R: Wait>(&self, rt: &R, me: &mut Token<M>, number: u64)
        requires own { me.old.table_id ≡ self.now }
        requires drawn { (me.old.me.0.stage ≡ Waits) × (me.old.me.0.ticket ≡ number) }
        ensures same { me.new.table_id ≡ me.old.table_id }
        ensures holds { (log : List (DidOf M.Event)) × StartsWith log me.old.me.0.seen × (me.old.me.0.turn ≤ number) × (me.new.me ≡ (moved Holds number log me.old.me.0, (0, Some (me.old.me.0.kind, log)) ∷ me.old.me.1)) }
    {
        for _ in rt.forever() {
            let found = self.table.shared.load::<Looks>(me, 1);
            if found == number {
                return;
            }
            thread::yield_now();
        }
        unreachable!()
    }

    /// Serves the next number, with the journal as it is held.
    fn leave(&self, me: &mut Token<M>, number: u64)
        requires own { me.old.table_id ≡ self.now }
        requires below { number < 2 ^ 64 - 1 }
        requires holds { (me.old.me.0.stage ≡ Holds) × (me.old.me.0.ticket ≡ number) }
        requires journal { (new : List (DidOf M.Event)) × (me.old.me.1 ≡ (0, Some (me.old.me.0.kind, new)) ∷ []) × Grows me.old.me.0.held new }
        ensures same { me.new.table_id ≡ me.old.table_id }
        ensures left { (log : List (DidOf M.Event)) × (me.old.me.1 ≡ (0, Some (me.old.me.0.kind, log)) ∷ []) × (me.new.me ≡ (left me.old.me.0 log, [])) }
    {
        self.table.shared.store::<Leaves>(me, 1, number + 1);
    }

    /// Waits for the turn, and takes the machine with its journal.
    fn take<R: Wait>(&self, rt: &R, me: &mut Token<M>) -> (u64, Desk<M>)
        requires own { me.old.table_id ≡ self.now }
        requires idle { (me.old.me.0.stage ≡ Idle) × (me.old.me.1 ≡ []) }
        requires some { 0 < me.old.me.0.units }
        ensures same { me.new.table_id ≡ me.old.table_id }
        ensures below { result.0 < 2 ^ 64 - 1 }
        ensures kind { result.1.0 ≡ me.old.me.0.kind }
        ensures seen { StartsWith result.1.1 me.old.me.0.seen × (me.old.me.0.turn ≤ result.0) }
        ensures holds { me.new.me ≡ (moved Holds result.0 result.1.1 me.old.me.0, (0, None) ∷ []) }
    {
        let number = self.draw(rt, me);
        self.wait(rt, me, number);
        let Some(desk) = self.table.shared.exchange(me, 0, None) else {
            unreachable!()
        };
        (number, desk)
    }

    /// Gives them back.
    fn give(&self, me: &mut Token<M>, number: u64, desk: Desk<M>)
        requires own { me.old.table_id ≡ self.now }
        requires below { number < 2 ^ 64 - 1 }
        requires holds { (me.old.me.0.stage ≡ Holds) × (me.old.me.0.ticket ≡ number) × (me.old.me.1 ≡ (0, None) ∷ []) }
        requires kind { desk.0 ≡ me.old.me.0.kind }
        requires journal { Grows me.old.me.0.held desk.1 }
        ensures same { me.new.table_id ≡ me.old.table_id }
        ensures left { me.new.me ≡ (left me.old.me.0 desk.1, []) }
    {
        let _ = self.table.shared.exchange(me, 0, Some(desk));
        self.leave(me, number);
    }

    /// Takes an event: one entry, with the outcome that it has after the entries before it. The packets go to the outboxes of their links.
    pub fn enter<R: Wait>(
        &self,
        rt: &R,
        alloc: Global,
        seat: &mut Seat<M>,
        event: M::Event,
    ) -> Result<Answer<M::Outcome>, HubStop>
        requires own { seat.old.hub ≡ self.now }
        requires may { M.may event }
        ensures turned { Turned M.words seat.old seat.new }
        ensures entered { Entered M.words seat.old seat.new event result }
    {
        let Seat { token, .. } = seat;
        let (number, mut desk) = self.take(rt, token);
        let answer = desk.enter(alloc, event);
        self.give(token, number, desk);
        answer
    }

    /// Takes the whole outbox of a peer, in order.
    pub fn take_out<R: Wait>(
        &self,
        rt: &R,
        alloc: Global,
        seat: &mut Seat<M>,
        peer: i32,
    ) -> Result<Items<M::Packet>, HubStop>
        requires own { seat.old.hub ≡ self.now }
        ensures turned { Turned M.words seat.old seat.new }
        ensures takes { Takes M.words seat.old seat.new peer result }
    {
        let Seat { token, .. } = seat;
        let (number, mut desk) = self.take(rt, token);
        let out = desk.take_out(alloc, &peer);
        self.give(token, number, desk);
        out
    }

    /// The bytes in the outbox of a peer, or the greatest number where they are more.
    pub fn behind<R: Wait>(&self, rt: &R, seat: &mut Seat<M>, peer: i32) -> u64
        requires own { seat.old.hub ≡ self.now }
        ensures turned { Turned M.words seat.old seat.new }
        ensures same { Unchanged seat.old seat.new }
        ensures size { result ≡ min (size_of M.words (outbox M.words seat.new.kind (past seat.new.seen) peer)) (2 ^ 64 - 1) }
    {
        let Seat { token, .. } = seat;
        let (number, desk) = self.take(rt, token);
        let bytes = desk.behind(&peer);
        self.give(token, number, desk);
        bytes
    }

    /// The seat has then seen all entries so far.
    pub fn look<R: Wait>(&self, rt: &R, seat: &mut Seat<M>) -> Look
        requires own { seat.old.hub ≡ self.now }
        ensures turned { Turned M.words seat.old seat.new }
        ensures same { Unchanged seat.old seat.new }
        ensures look { result ≡ record { entries = length seat.new.seen; received = received M.words (past seat.new.seen); ended = ended (past seat.new.seen) } }
    {
        let Seat { token, .. } = seat;
        let (number, desk) = self.take(rt, token);
        let look = desk.look();
        self.give(token, number, desk);
        look
    }

    /// Makes an End, and answers its place.
    pub fn end<R: Wait>(&self, rt: &R, _alloc: Global, seat: &mut Seat<M>) -> Result<u64, HubStop>
        requires own { seat.old.hub ≡ self.now }
        ensures turned { Turned M.words seat.old seat.new }
        ensures ends { Ends seat.old seat.new result }
    {
        let Seat { token, .. } = seat;
        let (number, mut desk) = self.take(rt, token);
        let place = desk.end();
        self.give(token, number, desk);
        place
    }

    /// The machine and the journal, for the seat that has all units. It waits for nobody.
    pub fn close(&self, seat: Seat<M>) -> (M, Journal<M::Event>)
        requires own { seat.hub ≡ self.now }
        requires whole { seat.units ≡ all_units }
        ensures kind { M.spent result.0 ≡ false → M.kind_of result.0 ≡ seat.kind }
        ensures seen { StartsWith result.1.entries.items seat.seen }
        ensures places { (p : ℕ) → times p seat.mine + times p seat.met ≡ times p (upto (length result.1.entries.items)) }
        ensures legal { Legal M.words seat.kind result.1.entries.items }
        ensures spent { lost (past result.1.entries.items) ≡ lost_at (M.spent result.0) (length result.1.entries.items) }
        ensures stands { lost (past result.1.entries.items) ≡ None → M.stands result.0 (events_of (past result.1.entries.items)) }
    {
        let Seat {
            mut token,
            units: _,
        } = seat;
        let _ = self.table.shared.load::<Closes>(&mut token, 0);
        let Some(desk) = self.table.shared.exchange(&mut token, 0, None) else {
            unreachable!()
        };
        desk.into_parts()
    }
}

impl<M: Machine> Seat<M> {
    /// The units of this seat.
    pub fn units(&self) -> u64
        ensures { result ≡ self.now.units }
    {
        self.units
    }
}

/// An entry that a call made is one more of the seat's own entries, behind those that there were.
pub fn own_entries_grow<E, K>()
    ensures { OwnGrows E K }
{}

/// Where a call made no entry, the seat's own are what they were.
pub fn own_entries_stay<E, K>()
    ensures { OwnStays E K }
{}
