//! What holds of every session of built events, and what each event makes of what a world keeps.
#![tactic(auto)]

mod laws;

pub use laws::{none_is_fault, pairs_hold, replicas_settle, steps_are_right, still_leaves};
