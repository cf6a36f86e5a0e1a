//! The other peers that one peer knows: which of them are up, and which ever were.
#![tactic(auto)]

mod peers;

pub use peers::{PeerState, Peers, PeersNo, SERVER, drop_number, put_number};
