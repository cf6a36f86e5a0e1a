//! The machine with its journal, for one caller.
ghost use Rattle.std.specs.Prelude.{◌≡◌, ◌≤◌, ◌<◌, ◌+◌, ◌^◌, ◌-◌, ◌∷◌, ◌++◌, [], ◌⊎◌, length, min, ℕ, true, false, None, IfOk, IfErr, OnErr};
ghost use Rattle.turn_hub.specs.declared.entry.Did.TheVariants as did;
ghost use Rattle.turn_hub.specs.declared.entry.HubStop.TheVariants as stop;
ghost use Rattle.turn_hub.specs.History.{past, events_of, outbox, outcome, ended, lost, lost_at, Legal, refusal, end_refusal, received, size_of, Judged, ended_or, full_or, spent_at, most_entries, most_bytes};

use crate::entry::{Answer, Did, EntryRows, HubStop, Journal, JournalRow, Look};
use crate::machine::Machine;
use crate::outboxes::Outboxes;
use gd_variant::OutOfMemory;
use sqlite_items::Items;
use std::alloc::Global;
use std::marker::Model;
use std::snapshot::Snapshot;

/// The most events of a journal.
const MOST_ENTRIES: u64 = 1_000_000;

/// The most that the events of a journal count together.
const MOST_BYTES: u64 = 268_435_456;

/// Contracts see the machine's kind and the journal, the oldest entry first.
#[derive(Drop)]
pub struct Desk<M: Machine> {
    machine: M,
    kind: Snapshot<M::Kind>,
    rows: EntryRows<M::Event>,
    outs: Outboxes<M>,
    events: u64,
    bytes: u64,
    received: u64,
    ended: Option<u64>,
}

impl<M: Machine> Model for Desk<M> {
    ghost use Rattle.std.specs.Prelude.{◌≡◌, false, List, ◌<◌, vec_len, vec_capacity};
    ghost use Rattle.turn_hub.specs.declared.entry.Did.{Did};
    ghost use Rattle.turn_hub.specs.Boxes.{waiting};
    ghost use Rattle.turn_hub.specs.Sound.{Sound};

    ghost Value = { M.Kind × List (Did M.Event) };

    ghost view = { λ c. (c.kind.value, c.rows.items) };

    ghost invariant = { λ c. Sound M.words c.kind.value (M.stands c.machine) (M.spent c.machine) c.rows.items (waiting c.outs) c.events c.bytes c.received c.ended × (vec_len c.rows < vec_capacity c.rows) × (M.spent c.machine ≡ false → M.kind_of c.machine ≡ c.kind.value) };
}

fn spent_stop(spent: bool, len: u64) -> Option<HubStop>
    requires { spent ≡ true → 0 < len }
    ensures { result ≡ spent_at (lost_at spent len) }
{
    if spent {
        Some(HubStop::Spent { place: len - 1 })
    } else {
        None
    }
}

fn end_stop(ended: Option<u64>, spent: bool, len: u64) -> Option<HubStop>
    requires { spent ≡ true → 0 < len }
    ensures { result ≡ ended_or ended (spent_at (lost_at spent len)) }
{
    match ended {
        Some(place) => Some(HubStop::Ended { place }),
        None => spent_stop(spent, len),
    }
}

/// Why an event of this weight isn't entered.
fn event_stop(
    ended: Option<u64>,
    events: u64,
    bytes: u64,
    spent: bool,
    len: u64,
    weight: u64,
) -> Option<HubStop>
    requires most { (events ≤ most_entries) × (bytes ≤ most_bytes) }
    requires lost { spent ≡ true → 0 < len }
    ensures { (w : ℕ) → weight ≡ min w (2 ^ 64 - 1) → result ≡ ended_or ended (full_or events bytes w (spent_at (lost_at spent len))) }
{
    if let Some(place) = ended {
        return Some(HubStop::Ended { place });
    }
    if events == MOST_ENTRIES || MOST_BYTES - bytes < weight {
        return Some(HubStop::JournalFull {
            entries: events,
            bytes,
        });
    }
    spent_stop(spent, len)
}

impl<M: Machine> Desk<M> {
    /// An empty journal, with room for a Lost.
    pub fn new(alloc: Global, machine: M, kind: &M::Kind) -> Result<Desk<M>, OutOfMemory>
        requires fresh { M.stands machine [] }
        requires kind { kind.now ≡ M.kind_of machine }
        ensures { IfOk result (λ c. c ≡ (M.kind_of machine, [])) }
    {
        let mut rows = Vec::new(alloc);
        rows.reserve(1)?;
        Ok(Desk {
            machine,
            kind: Snapshot::of(kind),
            rows,
            outs: Outboxes::new(alloc),
            events: 0,
            bytes: 0,
            received: 0,
            ended: None,
        })
    }

    /// Takes an event: one entry, whose outcome is that of the events before it.
    pub fn enter(&mut self, alloc: Global, event: M::Event) -> Result<Answer<M::Outcome>, HubStop>
        requires may { M.may event }
        ensures kind { self.new.0 ≡ self.old.0 }
        ensures judged { Judged (refusal M.words (past self.old.1) event) result }
        ensures entry { IfOk result (λ a. (self.new.1 ≡ self.old.1 ++ did.Event event ∷ []) × (a.place ≡ length self.old.1) × (a.outcome ≡ outcome M.words self.old.0 (past self.old.1) event)) }
        ensures none { IfErr result (λ e. (self.new.1 ≡ self.old.1) ⊎ ((e ≡ stop.OutOfMemory) × (self.new.1 ≡ self.old.1 ++ did.Lost ∷ []))) }
        ensures legal { Legal M.words self.new.0 self.new.1 }
    {
        let Desk {
            machine,
            kind: _,
            rows,
            outs,
            events,
            bytes,
            received,
            ended,
        } = self;
        let place = rows.len() as u64;
        let weight = M::weigh(&event);
        if let Some(stop) = event_stop(*ended, *events, *bytes, machine.is_spent(), place, weight) {
            return Err(stop);
        }
        if rows.reserve(2).is_err() {
            return Err(HubStop::OutOfMemory);
        }
        let Ok(copy) = M::copy_event(alloc, &event) else {
            return Err(HubStop::OutOfMemory);
        };
        let is_received = M::is_received(&event);
        let Ok(outcome) = machine.step(alloc, event) else {
            rows.push_reserved(JournalRow { what: Did::Lost });
            return Err(HubStop::OutOfMemory);
        };
        if !outs.keep(alloc, M::packets(&outcome)) {
            machine.give_up();
            rows.push_reserved(JournalRow { what: Did::Lost });
            return Err(HubStop::OutOfMemory);
        }
        rows.push_reserved(JournalRow {
            what: Did::Event(copy),
        });
        *events += 1;
        *bytes += weight;
        *received += is_received as u64;
        Ok(Answer { place, outcome })
    }

    /// Takes the whole outbox of a peer.
    pub fn take_out(&mut self, alloc: Global, peer: &i32) -> Result<Items<M::Packet>, HubStop>
        ensures kind { self.new.0 ≡ self.old.0 }
        ensures judged { Judged (spent_at (lost (past self.old.1))) result }
        ensures out { IfOk result (λ v. v ≡ outbox M.words self.old.0 (past self.old.1) peer.now) }
        ensures took { IfOk result (λ v. ((v ≡ []) × (self.new.1 ≡ self.old.1)) ⊎ ((0 < length v) × (self.new.1 ≡ self.old.1 ++ did.Took peer.now (length v) ∷ []))) }
        ensures none { OnErr result (self.new.1 ≡ self.old.1) }
        ensures legal { Legal M.words self.new.0 self.new.1 }
    {
        let Desk {
            machine,
            rows,
            outs,
            ..
        } = self;
        if let Some(stop) = spent_stop(machine.is_spent(), rows.len() as u64) {
            return Err(stop);
        }
        let count = outs.len(peer) as u64;
        if count == 0 {
            return Ok(Items::new(alloc));
        }
        if rows.reserve(2).is_err() {
            return Err(HubStop::OutOfMemory);
        }
        rows.push_reserved(JournalRow {
            what: Did::Took { peer: *peer, count },
        });
        Ok(outs.take(alloc, peer))
    }

    /// The bytes in the outbox of a peer.
    pub fn behind(&self, peer: &i32) -> u64
        ensures size { result ≡ min (size_of M.words (outbox M.words self.now.0 (past self.now.1) peer.now)) (2 ^ 64 - 1) }
        ensures legal { Legal M.words self.now.0 self.now.1 }
    {
        self.outs.size(peer)
    }

    pub fn look(&self) -> Look
        ensures look { result ≡ record { entries = length self.now.1; received = received M.words (past self.now.1); ended = ended (past self.now.1) } }
        ensures legal { Legal M.words self.now.0 self.now.1 }
    {
        Look {
            entries: self.rows.len() as u64,
            received: self.received,
            ended: self.ended,
        }
    }

    /// Makes an End.
    pub fn end(&mut self) -> Result<u64, HubStop>
        ensures kind { self.new.0 ≡ self.old.0 }
        ensures judged { Judged (end_refusal (past self.old.1)) result }
        ensures entry { IfOk result (λ place. (self.new.1 ≡ self.old.1 ++ did.End ∷ []) × (place ≡ length self.old.1)) }
        ensures none { OnErr result (self.new.1 ≡ self.old.1) }
        ensures legal { Legal M.words self.new.0 self.new.1 }
    {
        let Desk {
            machine,
            rows,
            ended,
            ..
        } = self;
        let place = rows.len() as u64;
        if let Some(stop) = end_stop(*ended, machine.is_spent(), place) {
            return Err(stop);
        }
        if rows.reserve(2).is_err() {
            return Err(HubStop::OutOfMemory);
        }
        rows.push_reserved(JournalRow { what: Did::End });
        *ended = Some(place);
        Ok(place)
    }

    /// The machine and the journal.
    pub fn into_parts(self) -> (M, Journal<M::Event>)
        ensures rows { result.1.entries.items ≡ self.1 }
        ensures kind { M.spent result.0 ≡ false → M.kind_of result.0 ≡ self.0 }
        ensures legal { Legal M.words self.0 self.1 }
        ensures spent { lost (past self.1) ≡ lost_at (M.spent result.0) (length self.1) }
        ensures stands { lost (past self.1) ≡ None → M.stands result.0 (events_of (past self.1)) }
    {
        let Desk {
            machine,
            kind: _,
            rows,
            outs: _,
            events: _,
            bytes: _,
            received: _,
            ended: _,
        } = self;
        (machine, Journal { entries: rows })
    }
}
