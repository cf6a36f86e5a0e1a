//! The edge of the program: where bytes come from and go to, lines, and how a run ends.
#![tactic(auto)]

mod lines;
mod memory;
mod reader;
mod sink;
mod source;
mod status;
mod stop;
mod told;
mod writer;

pub use lines::{LineReader, NextLine, PIECE, ReadStop};
pub use memory::{MemSink, MemSource, SureSink, SureSource};
pub use reader::StdSource;
pub use sink::{Sink, put_all, put_pieces};
pub use source::{Failed, Source};
pub use status::{LineWhy, Status};
pub use stop::LineStop;
pub use told::put_status;
pub use writer::StdSink;
