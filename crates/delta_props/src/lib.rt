//! On-change properties: what each peer was told of them, what a frame tells where a value differs,
//! and what a received Delta entry assigns.
#![tactic(auto)]

mod finding;
mod meaning;
mod taking;
mod telling;
mod told;

pub use finding::is_on_change;
pub use taking::{judge, take};
pub use told::Told;
