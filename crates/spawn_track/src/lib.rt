//! Spawned nodes at both ends: the rows of this peer and what an operation makes of them, why it is
//! refused, what a received spawn makes and why it is a fault.
#![tactic(auto)]

mod despawning;
mod lookup;
mod making;
mod naming;
mod numbers;
mod placing;
mod receiving;
mod seeing;
mod shown;
mod spawning;
mod track;
mod values;

pub use despawning::number_at;
pub use lookup::{fixed_node, path_id, spawner_at, syncs_of};
pub use making::copy_argument;
pub use placing::put_value;
pub use shown::FIXED_BIT;
pub use track::{Gone, Track};
pub use values::{fits, has_prop, owns};
