//! A client that goes down.
ghost use Rattle.std.specs.Prelude.{◌≡◌, ℕ, IfOk};
ghost use Rattle.scene_model.specs.declared.event.Event.TheVariants as event_of;
ghost use Rattle.peer_steps.specs.Steps.{is_done, taken};
ghost use Rattle.peer_core.specs.Forms.{packet_form};
ghost use Rattle.world_steps.specs.Steps.{down_made, down_with, left_after, live_parts};

use crate::client::{Client, client_place, drop_client};
use crate::flight::count_sent;
use crate::steps::{SERVER, answer_of, is_server, send_down, step};
use gd_variant::OutOfMemory;
use peer_core::Peer;
use scene_model::{Event, Outcome, WorldNo, WorldOutcome};
use std::alloc::Global;

/// A client is gone where the server took its link down.
fn leave(clients: &mut Vec<Client>, outcome: &Outcome, number: &i32)
    ensures { clients.new.items ≡ left_after (is_done outcome.now) number.now clients.old.items }
{
    match outcome {
        Outcome::Done(_) => drop_client(clients, number),
        Outcome::Refused(_) => {}
        Outcome::Fault(_) => {}
    }
}

/// The link to a client goes down at the server, and the client goes where the server takes that.
fn go_as(
    server: &mut Peer,
    clients: &mut Vec<Client>,
    put: &mut u64,
    alloc: Global,
    number: &i32,
) -> Result<WorldOutcome, OutOfMemory>
    ensures { (come : ℕ) → IfOk result (λ o. record { outcome = o; parts = live_parts server.new come put.new clients.new.items } ≡ down_with (live_parts server.old come put.old clients.old.items) number.now (taken packet_form server.old (event_of.Down number.now))) }
{
    let id = *number;
    let outcome = step(server, alloc, Event::Down(id))?;
    count_sent(put, &outcome);
    leave(clients, &outcome, number);
    send_down(clients, alloc, &outcome)?;
    answer_of(alloc, &SERVER, outcome)
}

/// A client goes down, where it is there.
pub fn go_down(
    server: &mut Peer,
    clients: &mut Vec<Client>,
    put: &mut u64,
    alloc: Global,
    number: &i32,
) -> Result<WorldOutcome, OutOfMemory>
    ensures { (come : ℕ) → IfOk result (λ o. record { outcome = o; parts = live_parts server.new come put.new clients.new.items } ≡ down_made (live_parts server.old come put.old clients.old.items) number.now) }
{
    if is_server(number) {
        Ok(WorldOutcome::Refused(WorldNo::Server))
    } else if client_place(clients, number).is_some() {
        go_as(server, clients, put, alloc, number)
    } else {
        Ok(WorldOutcome::Refused(WorldNo::NoPeer))
    }
}
