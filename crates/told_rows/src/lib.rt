//! What each peer was told of on-change properties, when links come up, rows are shown and hidden, and
//! frames happen.
#![tactic(auto)]

mod defaults;
mod links;
mod rows;
mod values;

pub use links::come_up;
pub use rows::{hide_row, is_among, shift_row, show_row};
pub use values::value_of;
