//! Operations of peers.
ghost use Rattle.std.specs.Prelude.{◌≡◌, ℕ, true, IfOk};
ghost use Rattle.peer_laws.specs.Built.{is_built_op};
ghost use Rattle.peer_steps.specs.Kept.{Kept};
ghost use Rattle.peer_steps.specs.Sound.{is_sound_op};
ghost use Rattle.world_steps.specs.Steps.{does_at, live_parts, op_made, place_of};

use crate::client::{Client, client_place};
use crate::steps::{is_server, take_at_client, take_at_server};
use gd_variant::OutOfMemory;
use peer_core::Peer;
use scene_model::{Event, Op, WorldNo, WorldOutcome};
use std::alloc::Global;

/// An operation of a client.
fn operate_at_client(
    clients: &mut Vec<Client>,
    put: &mut u64,
    alloc: Global,
    number: &i32,
    op: Op,
) -> Result<WorldOutcome, OutOfMemory>
    requires built { is_built_op op ≡ true }
    requires sound { is_sound_op op ≡ true }
    ensures { (k : Kept) (come : ℕ) → IfOk result (λ o. record { outcome = o; parts = live_parts k come put.new clients.new.items } ≡ does_at (live_parts k come put.old clients.old.items) op (place_of number.now clients.old.items)) }
{
    match client_place(clients, number) {
        Some(place) => take_at_client(&mut clients[place], put, alloc, Event::Op(op)),
        None => Ok(WorldOutcome::Refused(WorldNo::NoPeer)),
    }
}

/// An operation of the peer with this number.
pub fn operate(
    server: &mut Peer,
    clients: &mut Vec<Client>,
    put: &mut u64,
    alloc: Global,
    peer: &i32,
    op: Op,
) -> Result<WorldOutcome, OutOfMemory>
    requires built { is_built_op op ≡ true }
    requires sound { is_sound_op op ≡ true }
    ensures { (come : ℕ) → IfOk result (λ o. record { outcome = o; parts = live_parts server.new come put.new clients.new.items } ≡ op_made (live_parts server.old come put.old clients.old.items) peer.now op) }
{
    if is_server(peer) {
        take_at_server(server, clients, put, alloc, Event::Op(op))
    } else {
        operate_at_client(clients, put, alloc, peer, op)
    }
}
