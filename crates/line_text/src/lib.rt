//! Lines of JSON, read exactly by their grammar.
//!
//! A line is one JSON value that `serde_json` reads. It is judged from outside in and from left to right,
//! an object in the order of the keys that docs/FORMATS.md lists, and the first thing wrong is the reason.
//!
//! The parts that lines are made of are public too, so that a crate above reads lines of its own.
#![tactic(auto)]

mod line;
mod lists;
mod methods;
mod nodes;
mod operations;
mod parts;
mod peers;
mod props;
mod scenes;
mod sessions;
mod sights;
mod syncs;
mod values;
mod words;

pub use line::data_of;
pub use operations::{op_of, worded_of};
pub use parts::{bytes_of, nat_of, none_of, one_of, three_of, two_of};
pub use peers::peer_of;
pub use program_edge::LineStop;
pub use scenes::read_scene;
pub use sessions::{SessionLine, read_event, written_lines_are_read};
pub use values::written_values_are_read;
pub use words::class_of;
