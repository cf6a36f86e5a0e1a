//! The clients of a world: what each holds, and what waits on both ways of its link.
ghost use Rattle.std.specs.Prelude.{◌≡◌, ◌<◌, None, OnOk, MatchOption, Some, length, not, true};
ghost use Rattle.std.specs.Ordering.{int_eq};
ghost use Rattle.world_steps.specs.Steps.{left_after, place_of, with_down, with_packets};

use crate::way::put_on;
use gd_variant::OutOfMemory;
use peer_core::Peer;
use scene_model::Out;
use std::alloc::Global;
use std::collections::VecDeque;
use std::marker::Model;

/// A client: its number, what it holds, and what waits on both ways of its link.
#[derive(Drop)]
pub struct Client {
    pub number: i32,
    pub peer: Peer,
    pub down: VecDeque<Out>,
    pub up: VecDeque<Out>,
}

impl Model for Client {
    ghost use Rattle.gd_variant.specs.contracts.value.Variant as variant;
    ghost use Rattle.std.specs.Coded.{codes};
    ghost use Rattle.world_steps.specs.Steps.{Client as ClientOf};

    ghost Value = { ClientOf };

    ghost coded = { Prim.hlevel (codes, variant.the_row.coded) };

    ghost view = { λ c. record { number = c.number; kept = c.peer; down = c.down.items; up = c.up.items } };
}

fn is_same(a: &i32, b: &i32) -> bool
    ensures { result ≡ int_eq a.now b.now }
{
    *a == *b
}

fn is_other(client: &Client, number: &i32) -> bool
    ensures { result ≡ not (int_eq client.now.number number.now) }
{
    !is_same(&client.number, number)
}

/// Drops the client with this number, with what waits on its link.
pub fn drop_client(clients: &mut Vec<Client>, number: &i32)
    ensures { clients.new.items ≡ left_after true number.now clients.old.items }
{
    clients.retain(|client| is_other(client, number));
}

/// The place of the client with this number, where there is one.
pub fn client_place(clients: &Vec<Client>, number: &i32) -> Option<usize>
    ensures { MatchOption result (place_of number.now clients.now.items ≡ None) (λ i. (place_of number.now clients.now.items ≡ Some i) × (i < length clients.now.items)) }
{
    for place in 0..clients.len() {
        if is_same(&clients[place].number, number) {
            return Some(place);
        }
    }
    None
}

/// Puts the server's packets for a client on its way.
fn put_down(client: &mut Client, packets: &[Out], alloc: Global) -> Result<(), OutOfMemory>
    ensures { OnOk result (client.new ≡ with_down packets.now client.old) }
{
    put_on(&mut client.down, alloc, packets, &client.number)
}

/// Puts the server's packets on the ways to their clients.
pub fn put_packets(
    clients: &mut Vec<Client>,
    packets: &[Out],
    alloc: Global,
) -> Result<(), OutOfMemory>
    ensures { OnOk result (clients.new.items ≡ with_packets packets.now clients.old.items) }
{
    for place in 0..clients.len() {
        put_down(&mut clients[place], packets, alloc)?;
    }
    Ok(())
}
