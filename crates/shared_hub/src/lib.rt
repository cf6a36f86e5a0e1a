//! One peer for many callers.
//!
//! The whole peer and its journal stand in a slot that is held by turns: a caller draws a number, waits
//! until it is served, acts on the peer, and serves the next number. The contracts of the calls say what
//! each caller then knows: the journal that it has seen, the places of its own entries, and the outcome
//! that each of its events has there.
#![tactic(auto)]

mod crossing;
mod hub;
mod machine;
mod weight;

pub use crossing::cross_threads;
pub use hub::{Answer, EntryRows, Hub, Journal, JournalRow, Seat};
pub use machine::{Kind, PeerMachine};
pub use turn_hub::{Did, HubStop, Look};
