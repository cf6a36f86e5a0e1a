//! Two started jobs own a hub together.
ghost use Rattle.std.specs.Prelude.{◌≡◌, [], true, IfSome};
ghost use Rattle.std.specs.Arc.{arc_value};
ghost use Rattle.std.specs.List.{list_all};
ghost use Rattle.peer_steps.specs.Stands.{StandsFor};
ghost use Rattle.peer_core.specs.Forms.{packet_form};
ghost use Rattle.turn_hub.specs.Kept.{all_units};
ghost use Rattle.hub_callers.specs.Allowed.{is_allowed};
ghost use Rattle.hub_callers.specs.Serving.{Gives, IsOfBoth};

use crate::crossing::events_cross;
use crate::job::{Given, ServeJob};
use crate::serving::{Served, close_both, serve};
use peer_core::Peer;
use scene_model::Event;
use shared_hub::{Hub, Journal, Seat, cross_threads};
use std::alloc::Global;
use std::snapshot::Snapshot;
use std::sync::{Arc, Wait};
use std::thread;
use std::thread::{PromisedHandle, Threads};

impl ServeJob {
    #[tactic(auto, using(crate::proofs::Allowing::all_allowed))]
    pub fn go<R: Wait>(self, rt: &R) -> Served
        ensures { Gives self result }
    {
        let ServeJob {
            alloc,
            hub,
            seat,
            events,
        } = self;
        serve(rt, alloc, &hub, seat, events.as_slice())
    }
}

/// Starts a thread for a job. None where no thread can be made.
pub fn begin<R: Threads + Wait + Copy + Send + Sync + 'static>(
    rt: &R,
    job: ServeJob,
) -> Option<PromisedHandle<Served, Given>>
    ensures { IfSome result (λ handle. handle.promise.0.value ≡ job) }
{
    cross_threads();
    events_cross();
    let promise = Given(Snapshot::of(&job));
    let inner = *rt;
    thread::spawn_with(rt, promise, move || job.go(&inner)).ok()
}

/// Two jobs over a hub whose first seat has all units and made no entry.
fn run_both<R: Threads + Wait + Copy + Send + Sync + 'static>(
    rt: &R,
    alloc: Global,
    hub: Arc<Hub, Global>,
    mut whole: Seat,
    first: Vec<Event>,
    second: Vec<Event>,
) -> Option<(Peer, Journal)>
    requires own { whole.hub ≡ arc_value hub }
    requires fresh { (whole.mine ≡ []) × (whole.met ≡ []) × (whole.units ≡ all_units) }
    requires may { (list_all is_allowed first.items ≡ true) × (list_all is_allowed second.items ≡ true) }
    ensures { IfSome result (λ r. IsOfBoth r.0 r.1.entries.items first.items second.items) }
{
    let one = hub.seat(&mut whole, 1);
    let two = hub.seat(&mut whole, 1);
    let a = begin(
        rt,
        ServeJob {
            alloc,
            hub: Arc::try_clone(&hub).ok()?,
            seat: one,
            events: first,
        },
    )?;
    let b = begin(
        rt,
        ServeJob {
            alloc,
            hub: Arc::try_clone(&hub).ok()?,
            seat: two,
            events: second,
        },
    )?;
    let a = a.join(rt);
    let b = b.join(rt);
    if a.end.is_err() {
        return None;
    }
    if b.end.is_err() {
        return None;
    }
    Some(close_both(&hub, whole, a.seat, b.seat))
}

/// The peer and the journal after two jobs entered a list of events each. None where a call was refused.
pub fn run_jobs<R: Threads + Wait + Copy + Send + Sync + 'static>(
    rt: &R,
    alloc: Global,
    peer: Peer,
    first: Vec<Event>,
    second: Vec<Event>,
) -> Option<(Peer, Journal)>
    requires fresh { StandsFor packet_form peer [] }
    requires may { (list_all is_allowed first.items ≡ true) × (list_all is_allowed second.items ≡ true) }
    ensures { IfSome result (λ r. IsOfBoth r.0 r.1.entries.items first.items second.items) }
{
    let (hub, whole) = Hub::new(alloc, peer).ok()?;
    let hub = Arc::new(alloc, hub).ok()?;
    run_both(rt, alloc, hub, whole, first, second)
}
