//! A client that connects.
ghost use Rattle.std.specs.Prelude.{◌≡◌, ◌∷◌, ◌++◌, ◌+◌, ℕ, [], ◌≤ℤ◌, false, pos, IfOk, OnOk, Some};
ghost use Rattle.scene_model.specs.Valid.{IsValidScene};
ghost use Rattle.scene_model.specs.declared.event.Event.TheVariants as event_of;
ghost use Rattle.peer_model.specs.Heard.{server as server_id};
ghost use Rattle.peer_steps.specs.Kept.{new_peer};
ghost use Rattle.peer_steps.specs.Steps.{taken};
ghost use Rattle.peer_core.specs.Forms.{packet_form};
ghost use Rattle.world_model.specs.Happens.{packets_in};
ghost use Rattle.world_model.specs.Answers.{effects_in, step_of};
ghost use Rattle.world_steps.specs.Steps.{connect_as as made_as, connect_made, is_full as has_no_room, live_parts, new_client as client_made_of, number_after};

use crate::client::Client;
use crate::flight::count_sent;
use crate::steps::{SERVER, effects_of, send_down, send_up, step};
use gd_variant::OutOfMemory;
use peer_core::Peer;
use scene_model::{Event, Outcome, PeerStep, Scene, WorldNo, WorldOutcome};
use sqlite_items::Items;
use std::alloc::Global;
use std::collections::VecDeque;

/// The most clients that are up.
const MOST_CLIENTS: usize = 64;

/// How many clients may ever connect: the last one has the greatest number that there is.
const MOST_NUMBERS: u32 = 2147483646;

/// A client of this number, at which the server's link came up.
fn new_client(alloc: Global, number: &i32, scene: &Scene) -> Result<(Client, Outcome), OutOfMemory>
    requires number { pos 1 ≤ℤ number.now }
    requires scene { IsValidScene scene.now }
    ensures client { IfOk result (λ r. r.0 ≡ client_made_of number.now (taken packet_form (new_peer scene.now number.now) (event_of.Up server_id)).kept (packets_in (taken packet_form (new_peer scene.now number.now) (event_of.Up server_id)).outcome)) }
    ensures outcome { IfOk result (λ r. r.1 ≡ (taken packet_form (new_peer scene.now number.now) (event_of.Up server_id)).outcome) }
{
    let id = *number;
    let mut peer = Peer::new(alloc, id, scene)?;
    let outcome = step(&mut peer, alloc, Event::Up(SERVER))?;
    let down = VecDeque::new(alloc);
    let mut up = VecDeque::new(alloc);
    send_up(&mut up, alloc, &outcome)?;
    Ok((
        Client {
            number: id,
            peer,
            down,
            up,
        },
        outcome,
    ))
}

/// What both ends did, as the world answers it.
fn answer_of(
    alloc: Global,
    number: &i32,
    first: Outcome,
    second: Outcome,
) -> Result<WorldOutcome, OutOfMemory>
    ensures { IfOk result (λ o. o ≡ WorldOutcome.Done (Some number.now) (step_of server_id (effects_in first) ∷ step_of number.now (effects_in second) ∷ [])) }
{
    let mut steps = Items::new(alloc);
    steps.push(PeerStep {
        peer: SERVER,
        effects: effects_of(alloc, first),
    })?;
    steps.push(PeerStep {
        peer: *number,
        effects: effects_of(alloc, second),
    })?;
    Ok(WorldOutcome::Done {
        made: Some(*number),
        steps,
    })
}

/// The link to a client of this number comes up at both ends.
fn connect_as(
    server: &mut Peer,
    clients: &mut Vec<Client>,
    put: &mut u64,
    alloc: Global,
    number: &i32,
) -> Result<WorldOutcome, OutOfMemory>
    requires number { pos 1 ≤ℤ number.now }
    requires scene { IsValidScene server.old.who.scene }
    ensures { (come : ℕ) → IfOk result (λ o. record { outcome = o; parts = live_parts server.new (come + 1) put.new clients.new.items } ≡ made_as (live_parts server.old come put.old clients.old.items) number.now) }
{
    let id = *number;
    let (client, second) = new_client(alloc, number, server.scene())?;
    let first = step(server, alloc, Event::Up(id))?;
    count_sent(put, &first);
    count_sent(put, &second);
    clients.push(client)?;
    send_down(clients, alloc, &first)?;
    answer_of(alloc, number, first, second)
}

/// Whether no further client can connect.
fn is_full(clients: &Vec<Client>, come: &u32) -> bool
    ensures { result ≡ has_no_room come.now clients.now.items }
{
    clients.len() >= MOST_CLIENTS || *come >= MOST_NUMBERS
}

/// The number of the next client.
fn next_number(clients: &Vec<Client>, come: &u32) -> i32
    requires { has_no_room come.now clients.now.items ≡ false }
    ensures number { result ≡ pos (number_after come.now) }
    ensures above { pos 1 ≤ℤ result }
{
    *come as i32 + 2
}

/// One client more has connected.
fn count_one(clients: &Vec<Client>, come: &mut u32)
    requires { has_no_room come.old clients.now.items ≡ false }
    ensures { come.new ≡ come.old + 1 }
{
    *come += 1;
}

/// The next client connects, where there is room.
pub fn connect(
    server: &mut Peer,
    clients: &mut Vec<Client>,
    come: &mut u32,
    put: &mut u64,
    alloc: Global,
) -> Result<WorldOutcome, OutOfMemory>
    requires { IsValidScene server.old.who.scene }
    ensures { IfOk result (λ o. record { outcome = o; parts = live_parts server.new come.new put.new clients.new.items } ≡ connect_made (live_parts server.old come.old put.old clients.old.items)) }
{
    if is_full(clients, come) {
        return Ok(WorldOutcome::Refused(WorldNo::PeersFull));
    }
    let number = next_number(clients, come);
    count_one(clients, come);
    connect_as(server, clients, put, alloc, &number)
}
