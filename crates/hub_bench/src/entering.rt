//! So many assignments, at a peer or through a hub.
ghost use Rattle.std.specs.Prelude.{◌≡◌};

use crate::server::set_to;
use peer_core::Peer;
use shared_hub::{Hub, Seat};
use std::alloc::Global;
use std::sync::Wait;

/// Makes the assignments at the peer itself, and answers how many were made.
#[tactic(auto, using(crate::proofs::Sound::built, crate::proofs::Sound::sound))]
pub fn step_all(alloc: Global, mut peer: Peer, count: u32) -> u64 {
    let mut made = 0;
    for value in 0..count {
        let Some(event) = set_to(alloc, value) else {
            return made;
        };
        if peer.step(alloc, event).is_err() {
            return made;
        }
        made = u64::from(value) + 1;
    }
    made
}

/// Enters the assignments by a seat, up to the first that is refused.
pub fn enter_all<R: Wait>(rt: &R, alloc: Global, hub: &Hub, mut seat: Seat, count: u32) -> Seat
    requires own { seat.hub ≡ hub.now }
    ensures own { result.hub ≡ hub.now }
{
    for value in 0..count {
        let Some(event) = set_to(alloc, value) else {
            return seat;
        };
        if hub.enter(rt, alloc, &mut seat, event).is_err() {
            return seat;
        }
    }
    seat
}
