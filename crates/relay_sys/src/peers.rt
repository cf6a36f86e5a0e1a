//! The peers that came up at one peer.
ghost use Rattle.std.specs.Prelude.{◌≡◌, ◌≤◌, ◌<◌, ◌++◌, [], ◌∷◌, not, filter, length, OnOk, OnErr, true, false, int_lt, nat_le, ◌&&◌};
ghost use Rattle.std.specs.List.{prefix_len};
ghost use Rattle.std.specs.Ordering.{int_eq};
ghost use Rattle.gd_variant.specs.Words.{has_int, put_by};
ghost use Rattle.peer_model.specs.Heard.{server};
ghost use Rattle.peer_model.specs.Refusals.{most_clients};
ghost use Rattle.peer_steps.specs.Peers.{no_peers, with_peer, is_bad_peer, peer_goes};
ghost use Rattle.relay_sys.specs.Links.{TakesUp, state_in};

use gd_variant::OutOfMemory;
use indexmap::IndexSet;
use std::alloc::Global;
use std::marker::Model;

/// The number of the server (Godot: `MultiplayerPeer.TARGET_PEER_SERVER`).
pub const SERVER: i32 = 1;

/// The most clients that are up at the server.
const MOST_CLIENTS: usize = 64;

/// How a peer stands to the one that knows it.
#[derive(Clone, Copy, Debug, Drop, PartialEq, Eq)]
pub enum PeerState {
    /// It never came up.
    Never,
    /// It is up.
    Up,
    /// It was up, and came down again.
    Gone,
}

/// Why a peer isn't taken up.
#[derive(Clone, Copy, Debug, Drop, PartialEq, Eq)]
pub enum PeersNo {
    /// Its number is below 1, is this peer's own, or belongs to one that was up before.
    BadPeer,
    /// This is the server, and 64 clients are up.
    PeersFull,
    OutOfMemory,
}

/// The peers that ever came up, in that order, and those that are up, in rising order. A number that
/// was up once never comes up again (Godot gives each peer a new number).
#[derive(Drop)]
pub struct Peers {
    me: i32,
    come: IndexSet<i32>,
    up: Vec<i32>,
}

impl Model for Peers {
    ghost use Rattle.std.specs.Prelude.{◌≡◌, false};
    ghost use Rattle.gd_variant.specs.Words.{has_int};
    ghost use Rattle.peer_steps.specs.Peers.{Peers as PeersOf};

    ghost Value = { PeersOf };

    ghost view = { λ p. record { me = p.me; come = p.come.keys; up = p.up.items } };

    ghost invariant = { λ p. has_int p.me p.up.items ≡ false };
}

/// How many numbers at the front are below this one.
fn place_of(up: &[i32], peer: &i32) -> usize
    ensures place { result ≡ prefix_len (λ b. int_lt b peer.now) up.now }
    ensures within { result ≤ length up.now }
{
    up.iter().take_while(|other| **other < *peer).count()
}

/// Puts a number among those of a list in rising order.
pub fn put_number(up: &mut Vec<i32>, peer: &i32) -> Result<(), OutOfMemory>
    ensures ok { OnOk result (up.new.items ≡ put_by int_lt peer.now up.old.items) }
    ensures err { OnErr result (up.new.items ≡ up.old.items) }
{
    let place = place_of(up, peer);
    up.insert(place, *peer)?;
    Ok(())
}

fn is_other(other: &i32, peer: &i32) -> bool
    ensures { result ≡ not (int_eq other.now peer.now) }
{
    *other != *peer
}

/// Takes a number away from a list.
pub fn drop_number(up: &mut Vec<i32>, peer: &i32)
    ensures { up.new.items ≡ filter (λ c. not (int_eq c peer.now)) up.old.items }
{
    up.retain(|other| is_other(other, peer));
}

fn has_number(numbers: &[i32], peer: &i32) -> bool
    ensures { result ≡ has_int peer.now numbers.now }
{
    numbers.contains(peer)
}

/// Notes that a peer came up, which it never did before.
fn note_come(come: &mut IndexSet<i32>, peer: &i32) -> Result<(), OutOfMemory>
    requires { has_int peer.now come.old.keys ≡ false }
    ensures { OnOk result (come.new.keys ≡ come.old.keys ++ peer.now ∷ []) }
{
    come.insert(*peer)?;
    Ok(())
}

impl Peers {
    /// The peer with this number knows no other yet.
    pub fn new(alloc: Global, me: i32) -> Peers
        ensures { result ≡ no_peers me }
    {
        Peers {
            me,
            come: IndexSet::new(alloc),
            up: Vec::new(alloc),
        }
    }

    /// The number of the peer that knows them.
    pub fn me(&self) -> i32
        ensures { result ≡ self.now.me }
    {
        self.me
    }

    /// The peers that are up, in rising order.
    pub fn up_now(&self) -> &[i32]
        ensures { result.now ≡ self.now.up }
    {
        self.up.as_slice()
    }

    /// Whether a peer is up; the one that knows them never is.
    pub fn is_up(&self, peer: &i32) -> bool
        ensures up { result ≡ has_int peer.now self.now.up }
        ensures other { result ≡ true → int_eq peer.now self.now.me ≡ false }
    {
        has_number(self.up.as_slice(), peer)
    }

    /// Whether a peer is up, was up, or never came.
    pub fn state_of(&self, peer: &i32) -> PeerState
        ensures { result ≡ state_in self.now peer.now }
    {
        if has_number(self.up.as_slice(), peer) {
            PeerState::Up
        } else if self.come.contains(peer) {
            PeerState::Gone
        } else {
            PeerState::Never
        }
    }

    fn is_bad(&self, peer: &i32) -> bool
        ensures { result ≡ is_bad_peer self.now peer.now }
    {
        *peer < 1 || *peer == self.me || self.come.contains(peer)
    }

    fn is_full(&self) -> bool
        ensures { result ≡ (int_eq self.now.me server && nat_le most_clients (length self.now.up)) }
    {
        self.me == SERVER && MOST_CLIENTS <= self.up.len()
    }

    /// Takes a peer up. Where it answers `BadPeer` or `PeersFull` nothing changes.
    pub fn up(&mut self, peer: &i32) -> Result<(), PeersNo>
        ensures { TakesUp self.old peer.now result self.new }
    {
        if self.is_bad(peer) {
            return Err(PeersNo::BadPeer);
        }
        if self.is_full() {
            return Err(PeersNo::PeersFull);
        }
        match self.put(peer) {
            Ok(()) => Ok(()),
            Err(OutOfMemory) => Err(PeersNo::OutOfMemory),
        }
    }

    fn put(&mut self, peer: &i32) -> Result<(), OutOfMemory>
        requires { is_bad_peer self.old peer.now ≡ false }
        ensures put { OnOk result (self.new ≡ with_peer peer.now self.old) }
        ensures me { self.new.me ≡ self.old.me }
    {
        note_come(&mut self.come, peer)?;
        put_number(&mut self.up, peer)?;
        Ok(())
    }

    /// Takes a peer down, and answers whether it was up.
    pub fn down(&mut self, peer: &i32) -> bool
        ensures { (result, self.new) ≡ peer_goes peer.now self.old }
    {
        if !has_number(self.up.as_slice(), peer) {
            return false;
        }
        drop_number(&mut self.up, peer);
        true
    }
}
