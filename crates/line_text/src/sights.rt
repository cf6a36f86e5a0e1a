//! Settings of visibility in lines.
ghost use Rattle.std.specs.Prelude.{◌≡◌, IfOk, true};
ghost use Rattle.serde_json.specs.View.{view, items_view};
ghost use Rattle.gd_variant.specs.Sound.{is_text};
ghost use Rattle.line_text.specs.Reading.{Gives};
ghost use Rattle.line_text.specs.Held.{IsGiven, is_place};
ghost use Rattle.line_text.specs.Operations.{filter_read, for_read, public_read, sync_read};

use crate::parts::{bool_of, nat_of, pair_of, three_of, two_of, whole_text_of};
use crate::peers::{peer_of, peers_of};
use gd_variant::Text;
use program_edge::LineStop;
use scene_model::Op;
use serde_json::Value;
use std::alloc::Global;

/// A synchronizer: the path of a node, and its place there.
#[tactic(auto, unfolding(crate::specs::Operations::sync_read))]
fn sync_of(alloc: Global, value: &Value) -> Result<(Text, u32), LineStop>
    ensures gives { Gives (λ y. y) result (sync_read (view value.now)) }
    ensures path { IfOk result (λ y. is_text y.0 ≡ true) }
    ensures place { IfOk result (λ y. is_place y.1 ≡ true) }
{
    let (path, k) = pair_of(value)?;
    let path = whole_text_of(alloc, path)?;
    let k = nat_of(0, 4294967295, k)?;
    Ok((path, k as u32))
}

/// Whether a synchronizer is public.
#[tactic(auto, unfolding(crate::specs::Operations::public_read))]
pub fn public_of(alloc: Global, items: &[Value]) -> Result<Op, LineStop>
    ensures gives { Gives (λ op. op) result (public_read (items_view items.now)) }
    ensures given { IfOk result IsGiven }
{
    let (sync, on) = two_of(items)?;
    let (path, k) = sync_of(alloc, sync)?;
    let on = bool_of(on)?;
    Ok(Op::Public { path, k, on })
}

/// Whether a synchronizer is set for a peer.
#[tactic(auto, unfolding(crate::specs::Operations::for_read))]
pub fn for_of(alloc: Global, items: &[Value]) -> Result<Op, LineStop>
    ensures gives { Gives (λ op. op) result (for_read (items_view items.now)) }
    ensures given { IfOk result IsGiven }
{
    let (sync, peer, on) = three_of(items)?;
    let (path, k) = sync_of(alloc, sync)?;
    let peer = peer_of(peer)?;
    let on = bool_of(on)?;
    Ok(Op::For { path, k, peer, on })
}

/// A synchronizer's next filter.
#[tactic(auto, unfolding(crate::specs::Operations::filter_read))]
pub fn filter_of(alloc: Global, items: &[Value]) -> Result<Op, LineStop>
    ensures gives { Gives (λ op. op) result (filter_read (items_view items.now)) }
    ensures given { IfOk result IsGiven }
{
    let (sync, peers) = two_of(items)?;
    let (path, k) = sync_of(alloc, sync)?;
    let peers = peers_of(alloc, peers)?;
    Ok(Op::Filter { path, k, peers })
}
