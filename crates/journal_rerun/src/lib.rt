//! The journal of one peer, run again.
#![tactic(auto)]

mod answers;
mod run;
mod scene;

pub use run::rerun;
