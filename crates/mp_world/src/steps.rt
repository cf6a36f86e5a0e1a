//! What one peer of a world does with an event.
ghost use Rattle.std.specs.Prelude.{◌≡◌, true, IfOk, OnOk};
ghost use Rattle.std.specs.Ordering.{int_eq};
ghost use Rattle.peer_model.specs.Heard.{server as server_id};
ghost use Rattle.peer_steps.specs.Sound.{is_sound_event};
ghost use Rattle.peer_steps.specs.Stands.{is_built_event};
ghost use Rattle.peer_steps.specs.Steps.{taken};
ghost use Rattle.peer_core.specs.Forms.{packet_form};
ghost use Rattle.world_model.specs.Happens.{packets_in};
ghost use Rattle.world_model.specs.Answers.{effects_in, peer_answer};
ghost use Rattle.world_steps.specs.Steps.{put_with, waiting_with, with_packets};

use crate::client::{Client, put_packets};
use crate::flight::count_sent;
use crate::way::put_on;
use gd_variant::OutOfMemory;
use peer_core::Peer;
use scene_model::{Effects, Event, Out, Outcome, PeerStep, WorldOutcome};
use sqlite_items::Items;
use std::alloc::Global;
use std::collections::VecDeque;

/// The server's number.
pub const SERVER: i32 = 1;

/// Whether this is the server's number.
pub fn is_server(peer: &i32) -> bool
    ensures { result ≡ int_eq peer.now server_id }
{
    *peer == SERVER
}

/// One step of a peer.
pub fn step(peer: &mut Peer, alloc: Global, event: Event) -> Result<Outcome, OutOfMemory>
    requires built { is_built_event event ≡ true }
    requires sound { is_sound_event event ≡ true }
    ensures { IfOk result (λ o. record { outcome = o; kept = peer.new } ≡ taken packet_form peer.old event) }
{
    match peer.step(alloc, event) {
        Ok(outcome) => Ok(outcome),
        Err(_) => Err(OutOfMemory),
    }
}

/// What an outcome does; nothing where it isn't done.
pub fn effects_of(alloc: Global, outcome: Outcome) -> Effects
    ensures { result ≡ effects_in outcome }
{
    match outcome {
        Outcome::Done(effects) => effects,
        _ => Effects {
            packets: Items::new(alloc),
            runs: Items::new(alloc),
            raws: Items::new(alloc),
            skips: Items::new(alloc),
        },
    }
}

/// What one peer did, as the world answers it.
pub fn answer_of(alloc: Global, peer: &i32, outcome: Outcome) -> Result<WorldOutcome, OutOfMemory>
    ensures { IfOk result (λ o. o ≡ peer_answer peer.now outcome) }
{
    match outcome {
        Outcome::Done(effects) => {
            let mut steps = Items::new(alloc);
            steps.push(PeerStep {
                peer: *peer,
                effects,
            })?;
            Ok(WorldOutcome::Done { made: None, steps })
        }
        Outcome::Refused(refusal) => Ok(WorldOutcome::OpRefused(refusal)),
        Outcome::Fault(fault) => Ok(WorldOutcome::Fault { peer: *peer, fault }),
    }
}

/// A client's packets go on its way to the server.
pub fn send_up(
    waiting: &mut VecDeque<Out>,
    alloc: Global,
    outcome: &Outcome,
) -> Result<(), OutOfMemory>
    ensures { OnOk result (waiting.new.items ≡ waiting_with waiting.old.items (packets_in outcome.now) server_id) }
{
    match outcome {
        Outcome::Done(effects) => put_on(waiting, alloc, effects.packets.as_slice(), &SERVER),
        _ => Ok(()),
    }
}

/// The server's packets go on its ways to the clients.
pub fn send_down(
    clients: &mut Vec<Client>,
    alloc: Global,
    outcome: &Outcome,
) -> Result<(), OutOfMemory>
    ensures { OnOk result (clients.new.items ≡ with_packets (packets_in outcome.now) clients.old.items) }
{
    match outcome {
        Outcome::Done(effects) => put_packets(clients, effects.packets.as_slice(), alloc),
        Outcome::Refused(_) => Ok(()),
        Outcome::Fault(_) => Ok(()),
    }
}

/// The server takes an event.
pub fn take_at_server(
    server: &mut Peer,
    clients: &mut Vec<Client>,
    put: &mut u64,
    alloc: Global,
    event: Event,
) -> Result<WorldOutcome, OutOfMemory>
    requires built { is_built_event event ≡ true }
    requires sound { is_sound_event event ≡ true }
    ensures server { OnOk result (server.new ≡ (taken packet_form server.old event).kept) }
    ensures clients { OnOk result (clients.new.items ≡ with_packets (packets_in (taken packet_form server.old event).outcome) clients.old.items) }
    ensures put { OnOk result (put.new ≡ put_with put.old (packets_in (taken packet_form server.old event).outcome)) }
    ensures outcome { IfOk result (λ o. o ≡ peer_answer server_id (taken packet_form server.old event).outcome) }
{
    let outcome = step(server, alloc, event)?;
    count_sent(put, &outcome);
    send_down(clients, alloc, &outcome)?;
    answer_of(alloc, &SERVER, outcome)
}

/// A client takes an event.
pub fn take_at_client(
    client: &mut Client,
    put: &mut u64,
    alloc: Global,
    event: Event,
) -> Result<WorldOutcome, OutOfMemory>
    requires built { is_built_event event ≡ true }
    requires sound { is_sound_event event ≡ true }
    ensures client { OnOk result (client.new ≡ record client.old { kept = (taken packet_form client.old.kept event).kept; up = waiting_with client.old.up (packets_in (taken packet_form client.old.kept event).outcome) server_id }) }
    ensures put { OnOk result (put.new ≡ put_with put.old (packets_in (taken packet_form client.old.kept event).outcome)) }
    ensures outcome { IfOk result (λ o. o ≡ peer_answer client.old.number (taken packet_form client.old.kept event).outcome) }
{
    let outcome = step(&mut client.peer, alloc, event)?;
    count_sent(put, &outcome);
    send_up(&mut client.up, alloc, &outcome)?;
    answer_of(alloc, &client.number, outcome)
}
