//! A peer as a hub's machine.
ghost use Rattle.std.specs.Prelude.{◌≡◌, []};
ghost use Rattle.peer_steps.specs.Stands.{StandsFor};
ghost use Rattle.peer_core.specs.Forms.{packet_form};
ghost use Rattle.shared_hub.specs.Peer.{Stands};

use crate::weight::weigh;
use gd_variant::OutOfMemory;
use peer_core::Peer;
use scene_model::{Event, Out, Outcome, Scene, TryClone};
use std::alloc::Global;
use turn_hub::Machine;

/// What of a peer no event changes: its number and its scene.
#[derive(Drop)]
pub struct Kind {
    pub id: i32,
    pub scene: Scene,
}

/// A peer, as a hub runs it.
#[derive(Drop)]
pub struct PeerMachine {
    pub peer: Peer,
}

impl Machine for PeerMachine {
    type Kind = Kind;

    type Event = Event;

    type Outcome = Outcome;

    type Packet = Out;

    ghost use Rattle.std.specs.Prelude.{pos, []};
    ghost use Rattle.shared_hub.specs.Peer.{MayEnter, Stands, kind_of, peer_words, stands_live};

    ghost words = { peer_words };

    ghost blank = { record { id = pos 1; scene = record { nodes = []; scenes = [] } } };

    ghost kind_of = { λ m. kind_of m.peer };

    ghost spent = { λ m. m.peer.spent };

    ghost stands = { λ m. Stands m.peer };

    ghost may = { MayEnter };

    fn kind(&self, alloc: Global) -> Result<Kind, OutOfMemory> {
        Ok(Kind {
            id: self.peer.id(),
            scene: self.peer.scene().try_clone(alloc)?,
        })
    }

    fn is_spent(&self) -> bool {
        self.peer.is_spent()
    }

    fn give_up(&mut self) {
        self.peer.give_up();
    }

    #[tactic(auto, unfolding(crate::specs::Peer::answer, crate::specs::Peer::Stands, crate::specs::Peer::MayEnter))]
    fn step(&mut self, alloc: Global, event: Event) -> Result<Outcome, OutOfMemory> {
        match self.peer.step(alloc, event) {
            Ok(outcome) => Ok(outcome),
            Err(_) => Err(OutOfMemory),
        }
    }

    fn copy_event(alloc: Global, event: &Event) -> Result<Event, OutOfMemory> {
        event.try_clone(alloc)
    }

    fn weigh(event: &Event) -> u64 {
        weigh(event)
    }

    fn is_received(event: &Event) -> bool {
        match event {
            Event::Op(_) => false,
            Event::Up(_) => false,
            Event::Down(_) => false,
            Event::Received { .. } => true,
        }
    }

    fn packets(outcome: &Outcome) -> &[Out] {
        match outcome {
            Outcome::Done(effects) => effects.packets.as_slice(),
            Outcome::Refused(_) => &[],
            Outcome::Fault(_) => &[],
        }
    }

    fn copy_packet(alloc: Global, packet: &Out) -> Result<Out, OutOfMemory> {
        packet.try_clone(alloc)
    }

    fn link(packet: &Out) -> i32 {
        packet.link
    }

    fn size(packet: &Out) -> u64 {
        packet.bytes.as_slice().len() as u64
    }

    ghost live = { λ m es h. stands_live m.peer es h };
}

impl PeerMachine {
    /// A machine of a peer that took no event. A hub over it answers as the peer.
    #[tactic(auto, unfolding(crate::specs::Peer::Stands))]
    pub fn new(peer: Peer) -> PeerMachine
        requires fresh { StandsFor packet_form peer [] }
        ensures peer { result.peer ≡ peer }
        ensures stands { Stands result.peer [] }
    {
        PeerMachine { peer }
    }

    pub fn into_peer(self) -> Peer
        ensures { result ≡ self.peer }
    {
        self.peer
    }
}
