//! The lines that the program writes: what values, packets, answers and reports are in text.
//!
//! The parts that lines are made of are public too, so that a crate above writes lines of its own.
#![tactic(auto)]

pub mod cells;
mod decoded;
pub mod line;
mod messages;
mod outcomes;
mod reasons;
mod reports;
pub mod values;

pub use decoded::decoded_text;
pub use messages::{bad_text, message_text};
pub use outcomes::outcome_text;
pub use reasons::class_name;
pub use reports::report_text;
