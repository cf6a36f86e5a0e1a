//! A session of several peers: what each of them holds, and what waits on the links between them.
//!
//! Built so far are a server with up to 64 clients that come and go, operations, and reliable packets.
#![tactic(auto)]

mod client;
mod connect;
mod deliver;
mod flight;
mod going;
mod operate;
mod steps;
mod texts;
mod way;
mod world;

pub use world::{ReportNo, World, WorldStop};
