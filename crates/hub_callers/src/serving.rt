//! A caller that enters a list of events, and the end of two.
ghost use Rattle.std.specs.Prelude.{◌≡◌, ◌+◌, ◌<◌, ◌^◌, [], List, OnOk};
ghost use Rattle.std.specs.List.{All};
ghost use Rattle.scene_model.specs.declared.event.Event.{Event as EventOf};
ghost use Rattle.turn_hub.specs.Kept.{all_units};
ghost use Rattle.turn_hub.specs.Known.{Known};
ghost use Rattle.shared_hub.specs.declared.machine.Kind.{Kind as KindOf};
ghost use Rattle.shared_hub.specs.Peer.{MayEnter};
ghost use Rattle.hub_callers.specs.Entries.{Entries};
ghost use Rattle.hub_callers.specs.Serving.{IsOfBoth};

use peer_core::Peer;
use scene_model::{Event, TryClone};
use shared_hub::{Hub, HubStop, Journal, Seat};
use std::alloc::Global;
use std::sync::Wait;

/// A seat that served, and whether a call was refused.
#[derive(Drop)]
pub struct Served {
    pub seat: Seat,
    pub end: Result<(), HubStop>,
}

/// Enters the events in order by a seat of its own, up to the first that is refused.
pub fn serve<R: Wait>(rt: &R, alloc: Global, hub: &Hub, mut seat: Seat, events: &[Event]) -> Served
    requires own { seat.hub ≡ hub.now }
    requires fresh { seat.mine ≡ [] }
    requires may { All MayEnter events.now }
    ensures { OnOk result.end (Entries seat result.seat events.now) }
{
    for event in events {
        let Ok(event) = event.try_clone(alloc) else {
            return Served {
                seat,
                end: Err(HubStop::OutOfMemory),
            };
        };
        if let Err(stop) = hub.enter(rt, alloc, &mut seat, event) {
            return Served {
                seat,
                end: Err(stop),
            };
        }
    }
    Served { seat, end: Ok(()) }
}

/// Meets two seats that served into one that made no entry, and closes the hub.
pub fn close_both(hub: &Hub, mut whole: Seat, first: Seat, second: Seat) -> (Peer, Journal)
    requires own { (whole.hub ≡ hub.now) × (first.hub ≡ hub.now) × (second.hub ≡ hub.now) }
    requires none { (whole.mine ≡ []) × (whole.met ≡ []) }
    requires all { whole.units + first.units + second.units ≡ all_units }
    ensures { (v w : Known EventOf KindOf) (es fs : List EventOf) → v.mine ≡ [] → w.mine ≡ [] → v.met ≡ [] → w.met ≡ [] → Entries v first es → Entries w second fs → IsOfBoth result.0 result.1.entries.items es fs }
{
    hub.meet(&mut whole, first);
    hub.meet(&mut whole, second);
    hub.close(whole)
}
