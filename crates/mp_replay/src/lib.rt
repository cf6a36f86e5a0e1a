//! The commands of the program over a source and a sink: a session is replayed, a journal is run again,
//! packets are shown.
#![tactic(auto)]

mod commands;
mod entry;
mod session;
mod words;

pub use commands::run;
pub use entry::program;
