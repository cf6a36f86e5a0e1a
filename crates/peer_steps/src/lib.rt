//! What one peer answers and keeps, as a function of what it keeps: plain records, a step over them,
//! and the laws that join that step with the definitions. It has no code.
#![tactic(auto)]

mod making;
mod rows;
mod site;

pub use making::Making;
pub use rows::SpawnedRow;
pub use site::Site;
