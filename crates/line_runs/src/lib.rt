//! A command over an input of lines: each line is read, taken and answered, and the answer is
//! written before a read that may wait for more.
#![tactic(auto)]

mod limits;
mod run;
mod taker;

pub use limits::{LONGEST_LINE, MOST_JUDGED};
pub use run::run_lines;
pub use taker::{Behind, LineTaker};
