//! Packets in hexadecimal, one a line, shown as lines of text.
#![tactic(auto)]

mod laws;
mod lines;
mod run;

pub use laws::{ends_without_a_line, small_inputs};
pub use run::show;
