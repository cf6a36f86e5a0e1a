//! The tree of nodes with their values: the fixed ones of a scene, and those that were spawned.
#![tactic(auto)]

pub mod examples;
mod node;
mod numbers;
mod tree;
mod values;

pub use node::{NodeNow, TreeNo};
pub use tree::Tree;
pub use values::Values;
