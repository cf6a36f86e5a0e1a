//! The lines of a journal: what happened to one peer, a line an entry, read and written.
#![tactic(auto)]

mod laws;
mod lines;
mod operations;
mod reading;
mod writing;

pub use laws::written_entries_are_read;
pub use lines::JournalLine;
pub use reading::read_journal;
pub use writing::journal_line_text;
