//! The numbers of peers in lines.
ghost use Rattle.std.specs.Prelude.{◌≡◌, IfOk, true};
ghost use Rattle.std.specs.List.{list_all};
ghost use Rattle.serde_json.specs.View.{view, items_view};
ghost use Rattle.line_text.specs.Reading.{Gives, each_read};
ghost use Rattle.line_text.specs.Parts.{list_read};
ghost use Rattle.line_text.specs.Peers.{peer_read};
ghost use Rattle.line_text.specs.Held.{is_peer};

use crate::parts::{array_of, nat_of};
use program_edge::{LineStop, LineWhy};
use scene_model::PeerList;
use serde_json::Value;
use sqlite_items::Items;
use std::alloc::Global;

/// The number of a peer, 1 to 2,147,483,647.
#[tactic(auto, unfolding(crate::specs::Peers::peer_read))]
pub fn peer_of(value: &Value) -> Result<i32, LineStop>
    ensures gives { Gives (λ p. p) result (peer_read (view value.now)) }
    ensures peer { IfOk result (λ p. is_peer p ≡ true) }
{
    let n = nat_of(1, 2147483647, value)?;
    match i32::try_from(n) {
        Ok(peer) => Ok(peer),
        Err(_) => Err(LineStop::LineBad(LineWhy::Range)),
    }
}

/// The numbers of peers, in order.
fn each_peer(alloc: Global, items: &[Value]) -> Result<PeerList, LineStop>
    ensures gives { Gives (λ ps. ps) result (each_read peer_read (items_view items.now)) }
    ensures peers { IfOk result (λ ps. list_all is_peer ps ≡ true) }
{
    let mut all = Items::new(alloc);
    for item in items {
        let peer = peer_of(item)?;
        all.push(peer)?;
    }
    Ok(all)
}

/// An array of the numbers of peers.
#[tactic(auto, unfolding(crate::specs::Parts::list_read))]
pub fn peers_of(alloc: Global, value: &Value) -> Result<PeerList, LineStop>
    ensures gives { Gives (λ ps. ps) result (list_read peer_read (view value.now)) }
    ensures peers { IfOk result (λ ps. list_all is_peer ps ≡ true) }
{
    let items = array_of(value)?;
    each_peer(alloc, items)
}
