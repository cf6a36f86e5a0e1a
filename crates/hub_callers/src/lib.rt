//! Callers of a hub, by its public calls alone: two scoped threads, and two started jobs.
#![tactic(auto)]

mod crossing;
mod job;
mod jobs;
mod scoped;
mod serving;

pub use job::{Given, ServeJob};
pub use jobs::{begin, run_jobs};
pub use scoped::run_scoped;
pub use serving::{Served, close_both, serve};
