//! Whether a value is sound, in a time that grows as its size does: the keys of a dictionary are
//! compared by a set of their written forms, and not each with each.
#![tactic(auto)]

mod keys;
mod soundness;

pub use soundness::judge_sound;
