//! The laws that hold of every line: what is written is read. It has no code.
#![tactic(auto)]

mod laws;

pub use laws::{written_texts_are_read, written_values_are_plain};
