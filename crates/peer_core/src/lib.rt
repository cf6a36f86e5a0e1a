//! One peer: what it holds, what it answers to each event, and what it sends.
//!
//! Built so far are links, spawns by scene and custom ones, despawns, assignments to properties,
//! settings of visibility, frames, and received spawns, despawns and values, over any valid scene.
#![tactic(auto)]

mod effects;
mod entries;
mod links;
mod messages;
mod peer;
mod reporting;
mod sending;
mod setting;
mod telling;

pub use peer::{Peer, Stop};
