//! Two threads of a scope share a hub by reference.
ghost use Rattle.std.specs.Prelude.{◌≡◌, [], IfOk, OnOk};
ghost use Rattle.std.specs.List.{All};
ghost use Rattle.peer_steps.specs.Stands.{StandsFor};
ghost use Rattle.peer_core.specs.Forms.{packet_form};
ghost use Rattle.shared_hub.specs.Peer.{MayEnter};
ghost use Rattle.hub_callers.specs.Entries.{Entries};
ghost use Rattle.hub_callers.specs.Serving.{IsOfBoth};

use crate::crossing::events_cross;
use crate::serving::{Served, close_both, serve};
use peer_core::Peer;
use scene_model::Event;
use shared_hub::{Hub, HubStop, Journal, cross_threads};
use std::alloc::Global;
use std::sync::Wait;
use std::thread::{Threads, join};

/// The peer and the journal after two threads entered a list of events each.
pub fn run_scoped<R: Threads + Wait + Sync>(
    rt: &R,
    alloc: Global,
    peer: Peer,
    first: &[Event],
    second: &[Event],
) -> Result<(Peer, Journal), HubStop>
    requires fresh { StandsFor packet_form peer [] }
    requires may { All MayEnter first.now × All MayEnter second.now }
    ensures { IfOk result (λ r. IsOfBoth r.0 r.1.entries.items first.now second.now) }
{
    cross_threads();
    events_cross();
    let Ok((hub, mut whole)) = Hub::new(alloc, peer) else {
        return Err(HubStop::OutOfMemory);
    };
    let one = hub.seat(&mut whole, 1);
    let two = hub.seat(&mut whole, 1);
    let shared = &hub;
    let (a, b) = join(
        rt,
        || -> Served
            requires { (one.hub ≡ shared.now) × (one.mine ≡ []) × All MayEnter first.now }
            ensures { OnOk result.end (Entries one result.seat first.entry.now) }
        { serve(rt, alloc, shared, one, first) },
        || -> Served
            requires { (two.hub ≡ shared.now) × (two.mine ≡ []) × All MayEnter second.now }
            ensures { OnOk result.end (Entries two result.seat second.entry.now) }
        { serve(rt, alloc, shared, two, second) },
    );
    a.end?;
    b.end?;
    Ok(close_both(&hub, whole, a.seat, b.seat))
}
