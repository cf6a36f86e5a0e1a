//! A hub that one, two, four or eight threads share.
ghost use Rattle.std.specs.Prelude.{◌≡◌, ◌≤◌, []};
ghost use Rattle.peer_core.specs.Forms.{packet_form};
ghost use Rattle.peer_steps.specs.Stands.{StandsFor};

use crate::entering::enter_all;
use peer_core::Peer;
use shared_hub::{Hub, Seat, cross_threads};
use std::alloc::Global;
use std::sync::Wait;
use std::thread::{Threads, join};

/// How many threads share the hub.
#[derive(Clone, Copy, Debug, Drop)]
pub enum Callers {
    One,
    Two,
    Four,
    Eight,
}

fn by_two<R: Threads + Wait + Sync>(
    rt: &R,
    alloc: Global,
    hub: &Hub,
    mut seat: Seat,
    count: u32,
) -> Seat
    requires own { seat.hub ≡ hub.now }
    requires units { 2 ≤ seat.units }
    ensures own { result.hub ≡ hub.now }
{
    cross_threads();
    let other = hub.seat(&mut seat, 1);
    let (mut one, two) = join(
        rt,
        || -> Seat
            requires { seat.hub ≡ hub.now }
            ensures { result.hub ≡ hub.entry.now }
        { enter_all(rt, alloc, hub, seat, count) },
        || -> Seat
            requires { other.hub ≡ hub.now }
            ensures { result.hub ≡ hub.entry.now }
        { enter_all(rt, alloc, hub, other, count) },
    );
    hub.meet(&mut one, two);
    one
}

fn by_four<R: Threads + Wait + Sync>(
    rt: &R,
    alloc: Global,
    hub: &Hub,
    mut seat: Seat,
    count: u32,
) -> Seat
    requires own { seat.hub ≡ hub.now }
    requires units { 4 ≤ seat.units }
    ensures own { result.hub ≡ hub.now }
{
    cross_threads();
    let other = hub.seat(&mut seat, 2);
    let (mut one, two) = join(
        rt,
        || -> Seat
            requires { (seat.hub ≡ hub.now) × (2 ≤ seat.units) }
            ensures { result.hub ≡ hub.entry.now }
        { by_two(rt, alloc, hub, seat, count) },
        || -> Seat
            requires { (other.hub ≡ hub.now) × (2 ≤ other.units) }
            ensures { result.hub ≡ hub.entry.now }
        { by_two(rt, alloc, hub, other, count) },
    );
    hub.meet(&mut one, two);
    one
}

fn by_eight<R: Threads + Wait + Sync>(
    rt: &R,
    alloc: Global,
    hub: &Hub,
    mut seat: Seat,
    count: u32,
) -> Seat
    requires own { seat.hub ≡ hub.now }
    requires units { 8 ≤ seat.units }
    ensures own { result.hub ≡ hub.now }
{
    cross_threads();
    let other = hub.seat(&mut seat, 4);
    let (mut one, two) = join(
        rt,
        || -> Seat
            requires { (seat.hub ≡ hub.now) × (4 ≤ seat.units) }
            ensures { result.hub ≡ hub.entry.now }
        { by_four(rt, alloc, hub, seat, count) },
        || -> Seat
            requires { (other.hub ≡ hub.now) × (4 ≤ other.units) }
            ensures { result.hub ≡ hub.entry.now }
        { by_four(rt, alloc, hub, other, count) },
    );
    hub.meet(&mut one, two);
    one
}

/// Each thread enters so many assignments at one peer; how many entries there are then. None where
/// memory is lacking.
pub fn enter_by<R: Threads + Wait + Sync>(
    rt: &R,
    alloc: Global,
    peer: Peer,
    callers: Callers,
    count: u32,
) -> Option<u64>
    requires fresh { StandsFor packet_form peer [] }
{
    let (hub, whole) = Hub::new(alloc, peer).ok()?;
    let mut whole = match callers {
        Callers::One => enter_all(rt, alloc, &hub, whole, count),
        Callers::Two => by_two(rt, alloc, &hub, whole, count),
        Callers::Four => by_four(rt, alloc, &hub, whole, count),
        Callers::Eight => by_eight(rt, alloc, &hub, whole, count),
    };
    Some(hub.look(rt, &mut whole).entries)
}
