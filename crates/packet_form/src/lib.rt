//! The packets of the multiplayer layer as definitions: what a packet is, how one reads and is
//! written, where bytes break, and the laws that join these. It has no code.
#![tactic(auto)]

mod head;
mod laws;

pub use head::{CallHead, Head, NodeWidth};
pub use laws::{bounded, read_faults, read_frames, round_trip, written_frames};
