//! A caller that may run in a thread of its own.
ghost use Rattle.std.specs.Prelude.{◌≡◌, [], true};
ghost use Rattle.std.specs.Arc.{arc_value};
ghost use Rattle.std.specs.List.{list_all};
ghost use Rattle.hub_callers.specs.Allowed.{is_allowed};

use crate::serving::Served;
use scene_model::Event;
use shared_hub::{Hub, Seat};
use std::alloc::Global;
use std::snapshot::Snapshot;
use std::sync::Arc;
use std::thread::Promise;

/// A caller that may run in a thread of its own: it has made no entry, and its events may be entered.
#[derive(Drop)]
pub struct ServeJob {
    pub alloc: Global,
    pub hub: Arc<Hub, Global>,
    pub seat: Seat,
    pub events: Vec<Event>,
    pub ghost own: { seat.hub ≡ arc_value hub },
    pub ghost fresh: { seat.mine ≡ [] },
    pub ghost may: { list_all is_allowed events.items ≡ true },
}

/// What a job gives back.
#[derive(Drop)]
pub struct Given(pub(crate) Snapshot<ServeJob>);

impl Promise<Served> for Given {
    ghost use Rattle.hub_callers.specs.Serving.{Gives};

    ghost kept_by = { λ p out. Gives p.0.value out };
}
