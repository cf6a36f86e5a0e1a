//! What goes from one thread to another.
ghost use denote.Param.Send.{IsSend, IsSync};
ghost use Rattle.headless_tree.specs.contracts.tree.Tree as tree;
ghost use Rattle.peer_core.specs.contracts.peer.Peer as peer;
ghost use Rattle.shared_hub.specs.contracts.hub.Hub as hub;
ghost use Rattle.shared_hub.specs.contracts.hub.Seat as seat;

use crate::hub::{Hub, Seat};
use crate::machine::Kind;
use delta_props::Told;
use headless_tree::{NodeNow, Tree};
use relay_sys::Peers;
use scene_model::{Event, Out, Scene};
use spawn_track::Track;

fn sent<T: Send>()
    ensures { IsSend T.row }
{}

fn is_sent<T: Send>() {}

fn is_shared<T: Send + Sync>() {}

fn tree_sent()
    ensures { IsSend tree.the_row }
{
    sent::<Scene>();
    sent::<NodeNow>();
}

fn peer_sent()
    ensures { IsSend peer.the_row }
{
    tree_sent();
    sent::<Peers>();
    sent::<Track>();
    sent::<Told>();
}

/// What a hub and its seats are, where they go to other threads.
fn hub_sent()
    ensures hub_sent { IsSend hub.the_row }
    ensures hub_shared { IsSync hub.the_row }
    ensures seat_sent { IsSend seat.the_row }
{
    peer_sent();
    sent::<Kind>();
    sent::<Event>();
    sent::<Out>();
}

/// A hub is shared by threads, and a seat goes from one to another.
pub fn cross_threads()
    ensures hub_sent { IsSend hub.the_row }
    ensures hub_shared { IsSync hub.the_row }
    ensures seat_sent { IsSend seat.the_row }
{
    hub_sent();
    is_shared::<Hub>();
    is_sent::<Seat>();
}
