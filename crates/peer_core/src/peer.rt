//! A peer, which takes one event after the other.
ghost use Rattle.std.specs.Prelude.{◌≡◌, ◌∷◌, [], List, pos, true, false, ◌↔◌, ◌≤ℤ◌, IfOk, OnOk, OnErr, Err, map};
ghost use Rattle.scene_model.specs.declared.event.Event.{Event as EventOf};
ghost use Rattle.scene_model.specs.Valid.{IsValidScene};
ghost use Rattle.peer_model.specs.View.{report_of, row_of};
ghost use Rattle.peer_model.specs.Bytes.{accepted_events};
ghost use Rattle.peer_core.specs.declared.peer.Stop.TheVariants as stop;
ghost use Rattle.peer_steps.specs.Kept.{new_peer};
ghost use Rattle.peer_steps.specs.Sound.{is_sound_event};
ghost use Rattle.peer_steps.specs.Stands.{StandsFor, is_built_event, is_answered, built_answer};
ghost use Rattle.peer_steps.specs.Steps.{taken, is_done};
ghost use Rattle.peer_core.specs.Forms.{packet_form};

mod linking;
mod operating;
mod receiving;

use crate::reporting::report_with;
use delta_props::Told;
use gd_variant::OutOfMemory;
use headless_tree::Tree;
use relay_sys::Peers;
use scene_model::{Event, Outcome, Report, Scene};
use spawn_track::Track;
use std::alloc::Global;
use std::marker::Model;

/// Why a peer gives no answer.
#[derive(Clone, Copy, Debug, Drop, PartialEq, Eq)]
pub enum Stop {
    /// Memory ran out; the peer is spent.
    OutOfMemory,
    /// An earlier step ran out of memory.
    Spent,
}

/// One peer over any valid scene, made of parts: the other peers, the nodes, its own rows with who
/// sees them, and the values that each peer was told.
///
/// It takes events one after the other. After want of memory it is spent, and says so from then on.
/// `spent` stands while a part is written, so that a part left half made is never read.
#[derive(Drop)]
pub struct Peer {
    spent: bool,
    peers: Peers,
    tree: Tree,
    track: Track,
    told: Told,
}

impl Model for Peer {
    ghost use Rattle.std.specs.Prelude.{◌≡◌, false};
    ghost use Rattle.std.specs.Coded.{codes};
    ghost use Rattle.gd_variant.specs.contracts.value.Variant as variant;
    ghost use Rattle.peer_steps.specs.Kept.{Kept};
    ghost use Rattle.peer_core.specs.Parts.{AreRight, parts_kept};

    ghost Value = { Kept };

    ghost coded = { Prim.hlevel (codes, variant.the_row.coded) };

    ghost view = { λ p. parts_kept p.spent p.peers p.tree p.track p.told };

    ghost invariant = { λ p. p.spent ≡ false → AreRight p.peers.me p.tree p.track };
}

impl Peer {
    /// A peer with this number, 1 for the server, before its first event.
    pub fn new(alloc: Global, id: i32, scene: &Scene) -> Result<Peer, OutOfMemory>
        requires id { pos 1 ≤ℤ id }
        requires scene { IsValidScene scene.now }
        ensures fresh { IfOk result (λ p. p ≡ new_peer scene.now id) }
        ensures stands { IfOk result (λ p. StandsFor packet_form p []) }
    {
        let track = Track::new(alloc, scene, &id)?;
        let tree = Tree::new(alloc, scene)?;
        Ok(Peer {
            spent: false,
            peers: Peers::new(alloc, id),
            tree,
            track,
            told: Told::new(alloc),
        })
    }

    /// The peer's number.
    pub fn id(&self) -> i32
        ensures { result ≡ self.now.who.id }
    {
        self.peers.me()
    }

    /// A scene equal to the one that the peer was made of.
    pub fn scene(&self) -> &Scene
        ensures { result.now ≡ self.now.who.scene }
    {
        self.tree.scene()
    }

    /// Whether an earlier step ran out of memory.
    pub fn is_spent(&self) -> bool
        ensures { result ≡ self.now.spent }
    {
        self.spent
    }

    /// The peer is spent from now on.
    pub fn give_up(&mut self)
        ensures { self.new ≡ record self.old { spent = true } }
    {
        self.spent = true;
    }

    /// Takes an event and answers it.
    ///
    /// After `Refused` or `Fault` the peer is unchanged and has sent nothing. A packet of a kind that
    /// isn't built is a `Fault` that changes nothing.
    pub fn step(&mut self, alloc: Global, event: Event) -> Result<Outcome, Stop>
        requires built { is_built_event event ≡ true }
        requires sound { is_sound_event event ≡ true }
        // the answer of the definitions, for every list of events that the peer stands for
        ensures answer { (es : List EventOf) → StandsFor packet_form self.old es → IfOk result (λ o. o ≡ built_answer packet_form self.old.who es event) }
        // afterwards it stands for that list with this event
        ensures stands { (es : List EventOf) → StandsFor packet_form self.old es → is_answered packet_form self.old.who es event ≡ true → OnOk result (StandsFor packet_form self.new (event ∷ es)) }
        // one step on what it keeps
        ensures kept { IfOk result (λ o. record { outcome = o; kept = self.new } ≡ taken packet_form self.old event) }
        ensures unchanged { IfOk result (λ o. is_done o ≡ false → self.new ≡ self.old) }

        // a spent peer says so, and only want of memory spends it
        ensures was_spent { result ≡ Err stop.Spent ↔ self.old.spent ≡ true }
        ensures spends { OnErr result (self.new.spent ≡ true) }
        ensures lives { OnOk result (self.new.spent ≡ false) }
        ensures same_id { self.new.who.id ≡ self.old.who.id }
        ensures same_who { OnOk result (self.new.who ≡ self.old.who) }
    {
        if self.spent {
            return Err(Stop::Spent);
        }
        match self.take(alloc, event) {
            Ok(outcome) => Ok(outcome),
            Err(OutOfMemory) => {
                self.spent = true;
                Err(Stop::OutOfMemory)
            }
        }
    }

    fn take(&mut self, alloc: Global, event: Event) -> Result<Outcome, OutOfMemory>
        requires live { self.old.spent ≡ false }
        requires built { is_built_event event ≡ true }
        requires sound { is_sound_event event ≡ true }
        ensures taken { IfOk result (λ o. record { outcome = o; kept = self.new } ≡ taken packet_form self.old event) }
        ensures same_id { self.new.who.id ≡ self.old.who.id }
    {
        self.take_seen(alloc, &event)
    }

    fn take_seen(&mut self, alloc: Global, event: &Event) -> Result<Outcome, OutOfMemory>
        requires live { self.old.spent ≡ false }
        requires built { is_built_event event.now ≡ true }
        requires sound { is_sound_event event.now ≡ true }
        ensures taken { IfOk result (λ o. record { outcome = o; kept = self.new } ≡ taken packet_form self.old event.now) }
        ensures same_id { self.new.who.id ≡ self.old.who.id }
    {
        match event {
            Event::Up(peer) => self.take_up(alloc, peer),
            Event::Down(peer) => Ok(self.take_down(alloc, peer)),
            Event::Op(op) => self.operate(alloc, op),
            Event::Received {
                from,
                class: _,
                bytes,
            } => self.take_packet(alloc, from, bytes.as_slice()),
        }
    }

    /// The peers that are up, and every node with its values.
    pub fn report(&self, alloc: Global) -> Result<Report, Stop>
        ensures report { (es : List EventOf) → StandsFor packet_form self.now es → IfOk result (λ r. r ≡ report_of self.now.who (accepted_events packet_form self.now.who es)) }
        ensures kept { IfOk result (λ r. r ≡ record { peers = self.now.peers.up; rows = map row_of self.now.nodes }) }
        ensures was_spent { result ≡ Err stop.Spent ↔ self.now.spent ≡ true }
    {
        if self.spent {
            return Err(Stop::Spent);
        }
        match report_with(alloc, self.peers.up_now(), &self.tree) {
            Ok(report) => Ok(report),
            Err(OutOfMemory) => Err(Stop::OutOfMemory),
        }
    }
}
