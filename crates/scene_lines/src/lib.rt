//! The laws that a scene is read of the line that is written of it. It has no code.
#![tactic(auto)]

mod laws;

pub use laws::{printed_scenes_are_read, written_scenes_are_read};
