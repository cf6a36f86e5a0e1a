//! Links: which of them there can be, and over which packets come.
ghost use Rattle.std.specs.Prelude.{◌≡◌, false, None, IfOk};
ghost use Rattle.std.specs.Ordering.{int_eq};
ghost use Rattle.peer_steps.specs.Peers.{peer_comes};
ghost use Rattle.scene_model.specs.Valid.{IsValidScene};
ghost use Rattle.peer_steps.specs.Steps.{told_came, track_came};
ghost use Rattle.peer_core.specs.Parts.{parts_kept};
ghost use Rattle.peer_steps.specs.Judged.{lacks_server as lacks_server_of, link_judged};

use delta_props::Told;
use gd_variant::OutOfMemory;
use headless_tree::Tree;
use relay_sys::{Peers, PeersNo, SERVER};
use scene_model::{Fault, Refusal};
use spawn_track::Track;
use std::alloc::Global;
use told_rows::come_up as tell_new;

/// Whether neither of two peers is the server. Each link has the server at one end.
pub fn lacks_server(one: &i32, other: &i32) -> bool
    ensures { result ≡ lacks_server_of one.now other.now }
{
    *one != SERVER && *other != SERVER
}

fn take_in(peers: &mut Peers, peer: &i32) -> Result<Option<Refusal>, OutOfMemory>
    ensures taken { IfOk result (λ r. (r, peers.new) ≡ peer_comes peer.now peers.old) }
    ensures me { peers.new.me ≡ peers.old.me }
{
    match peers.up(peer) {
        Ok(()) => Ok(None),
        Err(PeersNo::BadPeer) => Ok(Some(Refusal::BadPeer)),
        Err(PeersNo::PeersFull) => Ok(Some(Refusal::PeersFull)),
        Err(PeersNo::OutOfMemory) => Err(OutOfMemory),
    }
}

/// Takes a peer up, and shows it the own rows that it may see, or tells why not. The peer counts as
/// told what it then has.
pub fn come_up(
    peers: &mut Peers,
    track: &mut Track,
    told: &mut Told,
    alloc: Global,
    tree: &Tree,
    peer: &i32,
) -> Result<Option<Refusal>, OutOfMemory>
    requires { IsValidScene tree.now.scene }
    ensures taken { IfOk result (λ r. (r, peers.new) ≡ peer_comes peer.now peers.old) }
    ensures track { IfOk result (λ r. track.new ≡ track_came r peer.now track.old) }
    ensures told { IfOk result (λ r. told.new ≡ told_came r peer.now (parts_kept false peers.old tree.now track.old told.old)) }
    ensures me { peers.new.me ≡ peers.old.me }
{
    let me = peers.me();
    match take_in(peers, peer)? {
        Some(refusal) => Ok(Some(refusal)),
        None => {
            tell_new(told, alloc, tree, track, &me, peer)?;
            track.peer_up(peer)?;
            Ok(None)
        }
    }
}

/// Why no packet is taken from a link.
pub fn judge_link(peers: &Peers, from: &i32) -> Option<Fault>
    ensures fault { result ≡ link_judged peers.now from.now }
    ensures other { result ≡ None → int_eq from.now peers.now.me ≡ false }
{
    let me = peers.me();
    if !peers.is_up(from) || lacks_server(&me, from) {
        return Some(Fault::UnknownPeer { peer: *from });
    }
    None
}
