//! A machine for many callers: it stands in a slot that is held by turns, with the journal of all that was done to it.
#![tactic(auto)]

mod calls;
mod desk;
mod entry;
mod machine;
mod outboxes;
mod rule;
mod seat;

pub use calls::{own_entries_grow, own_entries_stay};
pub use desk::Desk;
pub use entry::{Answer, Did, EntryRows, HubStop, Journal, JournalRow, Look};
pub use machine::Machine;
pub use outboxes::{Outbox, Outboxes};
pub use rule::{ByTurns, Stage, View};
pub use seat::{Hub, Seat, Token};
